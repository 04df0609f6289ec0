//! Two columns of moments, or moments and durations, in one call.
ghost use Rattle.std.specs.Prelude.{◌≡◌, ◌++◌, length, drop};
ghost use Rattle.muxandu_c.specs.EachBatches.{written_each, status_of_each, count_of_values};
ghost use Rattle.muxandu_c.specs.Moments.{moment_add, moment_subtract, moment_compare, moment_difference};
ghost use Rattle.muxandu_c.specs.PairBatches.{of_pair, pair_values, pair_status, pairs_with_rooms, pair_room_status};

use crate::moments::{
    MuxanduMoment, moment_add, moment_compare, moment_difference, moment_subtract,
};
use crate::pair_batches::{Pairing, pair_all, pair_each};
use crate::refused::{MuxanduStatus, Refused};
use crate::values::{MuxanduBatch, MuxanduDuration};

#[derive(Clone, Copy)]
pub(crate) struct Add;

impl Pairing<MuxanduMoment, MuxanduDuration, MuxanduMoment> for Add {
    ghost value_of = { λ pairing first second. moment_add first second };

    #[inline(always)]
    fn pair(self, first: MuxanduMoment, second: MuxanduDuration) -> Result<MuxanduMoment, Refused> {
        moment_add(first, second)
    }
}

/// Each moment plus the duration at its place, at the same offset, up to the first pair that
/// muxandu_date_time_add rejects. Errors: BUFFER if `out` or `durations` has fewer items than
/// `moments` (the call then writes nothing), else that of the first rejected pair.
#[unsafe(no_mangle)]
pub extern "C" fn muxandu_moments_add(
    moments: &[MuxanduMoment],
    durations: &[MuxanduDuration],
    out: &mut [MuxanduMoment],
) -> MuxanduBatch
    ensures count { result.count ≡
        length (pair_values moment_add out.old moments.now durations.now) }
    ensures status { result.status ≡ pair_status moment_add out.old moments.now durations.now }
    ensures written { out.new ≡ pair_values moment_add out.old moments.now durations.now
        ++ drop result.count out.old }
{
    pair_all(Add, moments, durations, out)
}

/// Each moment plus the duration at its place, at the same offset, and the status of
/// muxandu_date_time_add for both. If a pair fails, its place in `out` keeps its contents, and the
/// call continues with the next. `count` is the number of converted pairs. Errors: BUFFER if `out`,
/// `durations` or `statuses` has fewer items than `moments`; the call then writes nothing.
#[unsafe(no_mangle)]
pub extern "C" fn muxandu_each_moment_add(
    moments: &[MuxanduMoment],
    durations: &[MuxanduDuration],
    out: &mut [MuxanduMoment],
    statuses: &mut [MuxanduStatus],
) -> MuxanduBatch
    ensures count { result.count ≡ count_of_values (of_pair moment_add)
        (pairs_with_rooms out.old statuses.old moments.now durations.now) }
    ensures status { result.status ≡
        pair_room_status out.old statuses.old moments.now durations.now }
    ensures written { out.new ≡ written_each (of_pair moment_add)
        (pairs_with_rooms out.old statuses.old moments.now durations.now) out.old }
    ensures statuses { let gone = pairs_with_rooms out.old statuses.old moments.now durations.now in
        statuses.new ≡ status_of_each (of_pair moment_add) gone
        ++ drop (length gone) statuses.old }
{
    pair_each(Add, moments, durations, out, statuses)
}

#[derive(Clone, Copy)]
pub(crate) struct Subtract;

impl Pairing<MuxanduMoment, MuxanduDuration, MuxanduMoment> for Subtract {
    ghost value_of = { λ pairing first second. moment_subtract first second };

    #[inline(always)]
    fn pair(self, first: MuxanduMoment, second: MuxanduDuration) -> Result<MuxanduMoment, Refused> {
        moment_subtract(first, second)
    }
}

/// Each moment minus the duration at its place, at the same offset, up to the first pair that
/// muxandu_date_time_subtract rejects. Errors: BUFFER if `out` or `durations` has fewer items than
/// `moments` (the call then writes nothing), else that of the first rejected pair.
#[unsafe(no_mangle)]
pub extern "C" fn muxandu_moments_subtract(
    moments: &[MuxanduMoment],
    durations: &[MuxanduDuration],
    out: &mut [MuxanduMoment],
) -> MuxanduBatch
    ensures count { result.count ≡
        length (pair_values moment_subtract out.old moments.now durations.now) }
    ensures status { result.status ≡ pair_status moment_subtract out.old moments.now durations.now }
    ensures written { out.new ≡ pair_values moment_subtract out.old moments.now durations.now
        ++ drop result.count out.old }
{
    pair_all(Subtract, moments, durations, out)
}

/// Each moment minus the duration at its place, at the same offset, and the status of
/// muxandu_date_time_subtract for both. If a pair fails, its place in `out` keeps its contents, and
/// the call continues with the next. `count` is the number of converted pairs. Errors: BUFFER if
/// `out`, `durations` or `statuses` has fewer items than `moments`; the call then writes nothing.
#[unsafe(no_mangle)]
pub extern "C" fn muxandu_each_moment_subtract(
    moments: &[MuxanduMoment],
    durations: &[MuxanduDuration],
    out: &mut [MuxanduMoment],
    statuses: &mut [MuxanduStatus],
) -> MuxanduBatch
    ensures count { result.count ≡ count_of_values (of_pair moment_subtract)
        (pairs_with_rooms out.old statuses.old moments.now durations.now) }
    ensures status { result.status ≡
        pair_room_status out.old statuses.old moments.now durations.now }
    ensures written { out.new ≡ written_each (of_pair moment_subtract)
        (pairs_with_rooms out.old statuses.old moments.now durations.now) out.old }
    ensures statuses { let gone = pairs_with_rooms out.old statuses.old moments.now durations.now in
        statuses.new ≡ status_of_each (of_pair moment_subtract) gone
        ++ drop (length gone) statuses.old }
{
    pair_each(Subtract, moments, durations, out, statuses)
}

#[derive(Clone, Copy)]
pub(crate) struct Compare;

impl Pairing<MuxanduMoment, MuxanduMoment, i32> for Compare {
    ghost value_of = { λ pairing first second. moment_compare first second };

    #[inline(always)]
    fn pair(self, first: MuxanduMoment, second: MuxanduMoment) -> Result<i32, Refused> {
        moment_compare(first, second)
    }
}

/// The order of each moment and the one at its place in `others`: -1 if it comes first, 0 if both
/// are one instant, else 1, up to the first pair that muxandu_date_time_compare rejects. Errors:
/// BUFFER if `out` or `others` has fewer items than `firsts` (the call then writes nothing), else
/// that of the first rejected pair.
#[unsafe(no_mangle)]
pub extern "C" fn muxandu_moments_compare(
    firsts: &[MuxanduMoment],
    others: &[MuxanduMoment],
    out: &mut [i32],
) -> MuxanduBatch
    ensures count { result.count ≡
        length (pair_values moment_compare out.old firsts.now others.now) }
    ensures status { result.status ≡ pair_status moment_compare out.old firsts.now others.now }
    ensures written { out.new ≡ pair_values moment_compare out.old firsts.now others.now
        ++ drop result.count out.old }
{
    pair_all(Compare, firsts, others, out)
}

/// The order of each moment and the one at its place in `others`: -1 if it comes first, 0 if both
/// are one instant, else 1, and the status of muxandu_date_time_compare for both. If a pair fails,
/// its place in `out` keeps its contents, and the call continues with the next. `count` is the
/// number of converted pairs. Errors: BUFFER if `out`, `others` or `statuses` has fewer items than
/// `firsts`; the call then writes nothing.
#[unsafe(no_mangle)]
pub extern "C" fn muxandu_each_moment_compare(
    firsts: &[MuxanduMoment],
    others: &[MuxanduMoment],
    out: &mut [i32],
    statuses: &mut [MuxanduStatus],
) -> MuxanduBatch
    ensures count { result.count ≡ count_of_values (of_pair moment_compare)
        (pairs_with_rooms out.old statuses.old firsts.now others.now) }
    ensures status { result.status ≡ pair_room_status out.old statuses.old firsts.now others.now }
    ensures written { out.new ≡ written_each (of_pair moment_compare)
        (pairs_with_rooms out.old statuses.old firsts.now others.now) out.old }
    ensures statuses { let gone = pairs_with_rooms out.old statuses.old firsts.now others.now in
        statuses.new ≡ status_of_each (of_pair moment_compare) gone
        ++ drop (length gone) statuses.old }
{
    pair_each(Compare, firsts, others, out, statuses)
}

#[derive(Clone, Copy)]
pub(crate) struct Difference;

impl Pairing<MuxanduMoment, MuxanduMoment, MuxanduDuration> for Difference {
    ghost value_of = { λ pairing first second. moment_difference first second };

    #[inline(always)]
    fn pair(self, first: MuxanduMoment, second: MuxanduMoment) -> Result<MuxanduDuration, Refused> {
        moment_difference(first, second)
    }
}

/// The duration to each moment from the one at its place in `earlier`, by instant, up to the first
/// pair that muxandu_date_time_difference rejects. Errors: BUFFER if `out` or `earlier` has fewer
/// items than `later` (the call then writes nothing), else that of the first rejected pair.
#[unsafe(no_mangle)]
pub extern "C" fn muxandu_moments_difference(
    later: &[MuxanduMoment],
    earlier: &[MuxanduMoment],
    out: &mut [MuxanduDuration],
) -> MuxanduBatch
    ensures count { result.count ≡
        length (pair_values moment_difference out.old later.now earlier.now) }
    ensures status { result.status ≡ pair_status moment_difference out.old later.now earlier.now }
    ensures written { out.new ≡ pair_values moment_difference out.old later.now earlier.now
        ++ drop result.count out.old }
{
    pair_all(Difference, later, earlier, out)
}

/// The duration to each moment from the one at its place in `earlier`, by instant, and the status
/// of muxandu_date_time_difference for both. If a pair fails, its place in `out` keeps its
/// contents, and the call continues with the next. `count` is the number of converted pairs.
/// Errors: BUFFER if `out`, `earlier` or `statuses` has fewer items than `later`; the call then
/// writes nothing.
#[unsafe(no_mangle)]
pub extern "C" fn muxandu_each_moment_difference(
    later: &[MuxanduMoment],
    earlier: &[MuxanduMoment],
    out: &mut [MuxanduDuration],
    statuses: &mut [MuxanduStatus],
) -> MuxanduBatch
    ensures count { result.count ≡ count_of_values (of_pair moment_difference)
        (pairs_with_rooms out.old statuses.old later.now earlier.now) }
    ensures status { result.status ≡ pair_room_status out.old statuses.old later.now earlier.now }
    ensures written { out.new ≡ written_each (of_pair moment_difference)
        (pairs_with_rooms out.old statuses.old later.now earlier.now) out.old }
    ensures statuses { let gone = pairs_with_rooms out.old statuses.old later.now earlier.now in
        statuses.new ≡ status_of_each (of_pair moment_difference) gone
        ++ drop (length gone) statuses.old }
{
    pair_each(Difference, later, earlier, out, statuses)
}
