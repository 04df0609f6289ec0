//! Columns of moments with gaps in one call.
ghost use Rattle.std.specs.Prelude.{◌≡◌, ◌++◌, count_by, length, take, drop};
ghost use Rattle.std.specs.List.{zip};
ghost use Rattle.muxandu_c.specs.Batches.{batch_values, batch_status};
ghost use Rattle.muxandu_c.specs.Gaps.{gap, no_duration, no_date_time, no_order};
ghost use Rattle.muxandu_c.specs.Gaps.{is_gap, is_no_duration, has_gap, past_gap, past_gaps};
ghost use Rattle.muxandu_c.specs.Moments.{date_time_of_moment, moment_to_offset, moment_truncate, moment_add_months};
ghost use Rattle.muxandu_c.specs.Moments.{moment_add, moment_subtract, moment_compare, moment_difference};
ghost use Rattle.muxandu_c.specs.PairBatches.{pair_values, pair_status};

use crate::gap_batches::{convert_past_gaps, pair_past_gaps};
use crate::moment_batches::{AddMonths, ToDateTimes, ToOffset, Truncate};
use crate::moment_pair_batches::{Add, Compare, Difference, Subtract};
use crate::moments::MuxanduMoment;
use crate::unit::MuxanduUnit;
use crate::values::{MuxanduBatch, MuxanduDateTime, MuxanduDuration};

// The marks of gaps.
const GAP: MuxanduMoment = MuxanduMoment {
    seconds: i64::MIN,
    nanoseconds: 0,
    offset_seconds: 0,
};

const NO_DURATION: MuxanduDuration = MuxanduDuration {
    seconds: i64::MAX,
    nanoseconds: i32::MAX,
};

const NO_DATE_TIME: MuxanduDateTime = MuxanduDateTime {
    year: 0,
    month: 0,
    day: 0,
    hour: 0,
    minute: 0,
    second: 0,
    nanosecond: 0,
    offset_seconds: 0,
};

const NO_ORDER: i32 = 2;

/// The date-time of each moment, at its own offset, past gaps and up to the first that
/// muxandu_date_time_from_timestamp rejects. A gap, a row with -9223372036854775808 seconds, leads
/// to a date-time of zeros; `gaps` is the number of gaps among the `count` rows. Errors: BUFFER if
/// `out` has fewer items than `moments` (the call then writes no item), else that of the first
/// rejected item.
#[unsafe(no_mangle)]
pub extern "C" fn muxandu_date_times_past_gaps(
    moments: &[MuxanduMoment],
    out: &mut [MuxanduDateTime],
    gaps: &mut usize,
) -> MuxanduBatch
    ensures count { result.count ≡
        length (batch_values (past_gap no_date_time date_time_of_moment) out.old moments.now) }
    ensures status { result.status ≡
        batch_status (past_gap no_date_time date_time_of_moment) out.old moments.now }
    ensures written { out.new ≡
        batch_values (past_gap no_date_time date_time_of_moment) out.old moments.now
        ++ drop result.count out.old }
    ensures gaps { gaps.new ≡ count_by is_gap (take result.count moments.now) }
{
    convert_past_gaps(ToDateTimes, NO_DATE_TIME, moments, out, gaps)
}

/// The same instant of each moment at another offset in seconds, past gaps and up to the first that
/// muxandu_date_time_to_offset rejects. A gap, a row with -9223372036854775808 seconds, leads to a
/// gap; `gaps` is the number of gaps among the `count` rows. Errors: BUFFER if `out` has fewer
/// items than `moments` (the call then writes no item), else that of the first rejected item.
#[unsafe(no_mangle)]
pub extern "C" fn muxandu_moments_to_offset_past_gaps(
    moments: &[MuxanduMoment],
    offset_seconds: i32,
    out: &mut [MuxanduMoment],
    gaps: &mut usize,
) -> MuxanduBatch
    ensures count { result.count ≡
        length (batch_values (past_gap gap (moment_to_offset offset_seconds)) out.old moments.now) }
    ensures status { result.status ≡
        batch_status (past_gap gap (moment_to_offset offset_seconds)) out.old moments.now }
    ensures written { out.new ≡
        batch_values (past_gap gap (moment_to_offset offset_seconds)) out.old moments.now
        ++ drop result.count out.old }
    ensures gaps { gaps.new ≡ count_by is_gap (take result.count moments.now) }
{
    convert_past_gaps(ToOffset { offset_seconds }, GAP, moments, out, gaps)
}

/// Each moment, rounded down to a unit by its own clocks, past gaps and up to the first that
/// muxandu_date_time_truncate rejects. A gap, a row with -9223372036854775808 seconds, leads to a
/// gap; `gaps` is the number of gaps among the `count` rows. Errors: BUFFER if `out` has fewer
/// items than `moments` (the call then writes no item), else that of the first rejected item.
#[unsafe(no_mangle)]
pub extern "C" fn muxandu_moments_truncate_past_gaps(
    moments: &[MuxanduMoment],
    unit: MuxanduUnit,
    out: &mut [MuxanduMoment],
    gaps: &mut usize,
) -> MuxanduBatch
    ensures count { result.count ≡
        length (batch_values (past_gap gap (moment_truncate unit)) out.old moments.now) }
    ensures status { result.status ≡
        batch_status (past_gap gap (moment_truncate unit)) out.old moments.now }
    ensures written { out.new ≡
        batch_values (past_gap gap (moment_truncate unit)) out.old moments.now
        ++ drop result.count out.old }
    ensures gaps { gaps.new ≡ count_by is_gap (take result.count moments.now) }
{
    convert_past_gaps(Truncate { unit }, GAP, moments, out, gaps)
}

/// Each moment a number of months later, or earlier if it is negative, at the same local time and
/// offset; in a shorter month on its last day, past gaps and up to the first that
/// muxandu_date_add_months rejects. A gap, a row with -9223372036854775808 seconds, leads to a gap;
/// `gaps` is the number of gaps among the `count` rows. Errors: BUFFER if `out` has fewer items
/// than `moments` (the call then writes no item), else that of the first rejected item.
#[unsafe(no_mangle)]
pub extern "C" fn muxandu_moments_add_months_past_gaps(
    moments: &[MuxanduMoment],
    months: i32,
    out: &mut [MuxanduMoment],
    gaps: &mut usize,
) -> MuxanduBatch
    ensures count { result.count ≡
        length (batch_values (past_gap gap (moment_add_months months)) out.old moments.now) }
    ensures status { result.status ≡
        batch_status (past_gap gap (moment_add_months months)) out.old moments.now }
    ensures written { out.new ≡
        batch_values (past_gap gap (moment_add_months months)) out.old moments.now
        ++ drop result.count out.old }
    ensures gaps { gaps.new ≡ count_by is_gap (take result.count moments.now) }
{
    convert_past_gaps(AddMonths { months }, GAP, moments, out, gaps)
}

/// Each moment plus the duration at its place, at the same offset, past gaps and up to the first
/// pair that muxandu_date_time_add rejects. A pair with a gap leads to a gap. A moment with
/// -9223372036854775808 seconds is a gap, and so is a duration with 9223372036854775807 seconds and
/// 2147483647 nanoseconds. `gaps` is the number of such pairs among the `count` pairs. Errors:
/// BUFFER if `out` or `durations` has fewer items than `moments` (the call then writes no item),
/// else that of the first rejected pair.
#[unsafe(no_mangle)]
pub extern "C" fn muxandu_moments_add_past_gaps(
    moments: &[MuxanduMoment],
    durations: &[MuxanduDuration],
    out: &mut [MuxanduMoment],
    gaps: &mut usize,
) -> MuxanduBatch
    ensures count { result.count ≡
        length (pair_values (past_gaps is_no_duration gap moment_add)
        out.old moments.now durations.now) }
    ensures status { result.status ≡
        pair_status (past_gaps is_no_duration gap moment_add)
        out.old moments.now durations.now }
    ensures written { out.new ≡
        pair_values (past_gaps is_no_duration gap moment_add)
        out.old moments.now durations.now
        ++ drop result.count out.old }
    ensures gaps { gaps.new ≡
        count_by (has_gap is_no_duration) (zip (take result.count moments.now) durations.now) }
{
    pair_past_gaps(Add, GAP, moments, durations, out, gaps)
}

/// Each moment minus the duration at its place, at the same offset, past gaps and up to the first
/// pair that muxandu_date_time_subtract rejects. A pair with a gap leads to a gap. A moment with
/// -9223372036854775808 seconds is a gap, and so is a duration with 9223372036854775807 seconds and
/// 2147483647 nanoseconds. `gaps` is the number of such pairs among the `count` pairs. Errors:
/// BUFFER if `out` or `durations` has fewer items than `moments` (the call then writes no item),
/// else that of the first rejected pair.
#[unsafe(no_mangle)]
pub extern "C" fn muxandu_moments_subtract_past_gaps(
    moments: &[MuxanduMoment],
    durations: &[MuxanduDuration],
    out: &mut [MuxanduMoment],
    gaps: &mut usize,
) -> MuxanduBatch
    ensures count { result.count ≡
        length (pair_values (past_gaps is_no_duration gap moment_subtract)
        out.old moments.now durations.now) }
    ensures status { result.status ≡
        pair_status (past_gaps is_no_duration gap moment_subtract)
        out.old moments.now durations.now }
    ensures written { out.new ≡
        pair_values (past_gaps is_no_duration gap moment_subtract)
        out.old moments.now durations.now
        ++ drop result.count out.old }
    ensures gaps { gaps.new ≡
        count_by (has_gap is_no_duration) (zip (take result.count moments.now) durations.now) }
{
    pair_past_gaps(Subtract, GAP, moments, durations, out, gaps)
}

/// The order of each moment and the one at its place in `others`: -1 if it comes first, 0 if both
/// are one instant, else 1, past gaps and up to the first pair that muxandu_date_time_compare
/// rejects. A pair with a gap, a row with -9223372036854775808 seconds, leads to 2; `gaps` is the
/// number of such pairs among the `count` pairs. Errors: BUFFER if `out` or `others` has fewer
/// items than `firsts` (the call then writes no item), else that of the first rejected pair.
#[unsafe(no_mangle)]
pub extern "C" fn muxandu_moments_compare_past_gaps(
    firsts: &[MuxanduMoment],
    others: &[MuxanduMoment],
    out: &mut [i32],
    gaps: &mut usize,
) -> MuxanduBatch
    ensures count { result.count ≡
        length (pair_values (past_gaps is_gap no_order moment_compare)
        out.old firsts.now others.now) }
    ensures status { result.status ≡
        pair_status (past_gaps is_gap no_order moment_compare)
        out.old firsts.now others.now }
    ensures written { out.new ≡
        pair_values (past_gaps is_gap no_order moment_compare)
        out.old firsts.now others.now
        ++ drop result.count out.old }
    ensures gaps { gaps.new ≡
        count_by (has_gap is_gap) (zip (take result.count firsts.now) others.now) }
{
    pair_past_gaps(Compare, NO_ORDER, firsts, others, out, gaps)
}

/// The duration to each moment from the one at its place in `earlier`, by instant, past gaps and up
/// to the first pair that muxandu_date_time_difference rejects. A row with -9223372036854775808
/// seconds is a gap. A pair with a gap leads to a duration with 9223372036854775807 seconds and
/// 2147483647 nanoseconds. `gaps` is the number of such pairs among the `count` pairs. Errors:
/// BUFFER if `out` or `earlier` has fewer items than `later` (the call then writes no item), else
/// that of the first rejected pair.
#[unsafe(no_mangle)]
pub extern "C" fn muxandu_moments_difference_past_gaps(
    later: &[MuxanduMoment],
    earlier: &[MuxanduMoment],
    out: &mut [MuxanduDuration],
    gaps: &mut usize,
) -> MuxanduBatch
    ensures count { result.count ≡
        length (pair_values (past_gaps is_gap no_duration moment_difference)
        out.old later.now earlier.now) }
    ensures status { result.status ≡
        pair_status (past_gaps is_gap no_duration moment_difference)
        out.old later.now earlier.now }
    ensures written { out.new ≡
        pair_values (past_gaps is_gap no_duration moment_difference)
        out.old later.now earlier.now
        ++ drop result.count out.old }
    ensures gaps { gaps.new ≡
        count_by (has_gap is_gap) (zip (take result.count later.now) earlier.now) }
{
    pair_past_gaps(Difference, NO_DURATION, later, earlier, out, gaps)
}
