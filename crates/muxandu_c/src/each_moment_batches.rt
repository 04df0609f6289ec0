//! Columns of moments in one call that continues after errors.
ghost use Rattle.std.specs.Prelude.{◌≡◌, ◌++◌, length, drop};
ghost use Rattle.muxandu_c.specs.EachBatches.{written_each, status_of_each, count_of_values};
ghost use Rattle.muxandu_c.specs.EachBatches.{with_both_rooms, room_status};
ghost use Rattle.muxandu_c.specs.Moments.{date_time_of_moment, moment_of_date_time, moment_at};
ghost use Rattle.muxandu_c.specs.Moments.{moment_to_offset, moment_truncate, moment_add_months};

use crate::each_batches::convert_each;
use crate::moment_batches::{
    AddMonths, FromDateTimes, FromMomentTexts, ToDateTimes, ToOffset, Truncate,
};
use crate::moments::MuxanduMoment;
use crate::refused::MuxanduStatus;
use crate::unit::MuxanduUnit;
use crate::values::{MuxanduBatch, MuxanduDateTime, MuxanduSpan};

/// The date-time of each moment, at its own offset, and the status of
/// muxandu_date_time_from_timestamp for it. If an item fails, its place in `out` keeps its
/// contents, and the call continues with the next. `count` is the number of converted items.
/// Errors: BUFFER if `out` or `statuses` has fewer items than `moments`; the call then writes
/// nothing.
#[unsafe(no_mangle)]
pub extern "C" fn muxandu_date_times_from_each_moment(
    moments: &[MuxanduMoment],
    out: &mut [MuxanduDateTime],
    statuses: &mut [MuxanduStatus],
) -> MuxanduBatch
    ensures count { result.count ≡ count_of_values date_time_of_moment
        (with_both_rooms out.old statuses.old moments.now) }
    ensures status { result.status ≡ room_status out.old statuses.old moments.now }
    ensures written { out.new ≡ written_each date_time_of_moment
        (with_both_rooms out.old statuses.old moments.now) out.old }
    ensures statuses { let gone = with_both_rooms out.old statuses.old moments.now in
        statuses.new ≡ status_of_each date_time_of_moment gone
        ++ drop (length gone) statuses.old }
{
    convert_each(ToDateTimes, moments, out, statuses)
}

/// The moment of each date-time, and the status of muxandu_timestamp_from_date_time for it. If an
/// item fails, its place in `out` keeps its contents, and the call continues with the next. `count`
/// is the number of converted items. Errors: BUFFER if `out` or `statuses` has fewer items than
/// `date_times`; the call then writes nothing.
#[unsafe(no_mangle)]
pub extern "C" fn muxandu_moments_from_each_date_time(
    date_times: &[MuxanduDateTime],
    out: &mut [MuxanduMoment],
    statuses: &mut [MuxanduStatus],
) -> MuxanduBatch
    ensures count { result.count ≡ count_of_values moment_of_date_time
        (with_both_rooms out.old statuses.old date_times.now) }
    ensures status { result.status ≡ room_status out.old statuses.old date_times.now }
    ensures written { out.new ≡ written_each moment_of_date_time
        (with_both_rooms out.old statuses.old date_times.now) out.old }
    ensures statuses { let gone = with_both_rooms out.old statuses.old date_times.now in
        statuses.new ≡ status_of_each moment_of_date_time gone
        ++ drop (length gone) statuses.old }
{
    convert_each(FromDateTimes, date_times, out, statuses)
}

/// The same instant of each moment at another offset in seconds, and the status of
/// muxandu_date_time_to_offset for it. If an item fails, its place in `out` keeps its contents, and
/// the call continues with the next. `count` is the number of converted items. Errors: BUFFER if
/// `out` or `statuses` has fewer items than `moments`; the call then writes nothing.
#[unsafe(no_mangle)]
pub extern "C" fn muxandu_each_moment_to_offset(
    moments: &[MuxanduMoment],
    offset_seconds: i32,
    out: &mut [MuxanduMoment],
    statuses: &mut [MuxanduStatus],
) -> MuxanduBatch
    ensures count { result.count ≡ count_of_values (moment_to_offset offset_seconds)
        (with_both_rooms out.old statuses.old moments.now) }
    ensures status { result.status ≡ room_status out.old statuses.old moments.now }
    ensures written { out.new ≡ written_each (moment_to_offset offset_seconds)
        (with_both_rooms out.old statuses.old moments.now) out.old }
    ensures statuses { let gone = with_both_rooms out.old statuses.old moments.now in
        statuses.new ≡ status_of_each (moment_to_offset offset_seconds) gone
        ++ drop (length gone) statuses.old }
{
    convert_each(ToOffset { offset_seconds }, moments, out, statuses)
}

/// Each moment, rounded down to a unit by its own clocks, and the status of
/// muxandu_date_time_truncate for it. If an item fails, its place in `out` keeps its contents, and
/// the call continues with the next. `count` is the number of converted items. Errors: BUFFER if
/// `out` or `statuses` has fewer items than `moments`; the call then writes nothing.
#[unsafe(no_mangle)]
pub extern "C" fn muxandu_each_moment_truncate(
    moments: &[MuxanduMoment],
    unit: MuxanduUnit,
    out: &mut [MuxanduMoment],
    statuses: &mut [MuxanduStatus],
) -> MuxanduBatch
    ensures count { result.count ≡ count_of_values (moment_truncate unit)
        (with_both_rooms out.old statuses.old moments.now) }
    ensures status { result.status ≡ room_status out.old statuses.old moments.now }
    ensures written { out.new ≡ written_each (moment_truncate unit)
        (with_both_rooms out.old statuses.old moments.now) out.old }
    ensures statuses { let gone = with_both_rooms out.old statuses.old moments.now in
        statuses.new ≡ status_of_each (moment_truncate unit) gone
        ++ drop (length gone) statuses.old }
{
    convert_each(Truncate { unit }, moments, out, statuses)
}

/// Each moment a number of months later, or earlier if it is negative, at the same local time and
/// offset; in a shorter month on its last day, and the status of muxandu_date_add_months for it. If
/// an item fails, its place in `out` keeps its contents, and the call continues with the next.
/// `count` is the number of converted items. Errors: BUFFER if `out` or `statuses` has fewer items
/// than `moments`; the call then writes nothing.
#[unsafe(no_mangle)]
pub extern "C" fn muxandu_each_moment_add_months(
    moments: &[MuxanduMoment],
    months: i32,
    out: &mut [MuxanduMoment],
    statuses: &mut [MuxanduStatus],
) -> MuxanduBatch
    ensures count { result.count ≡ count_of_values (moment_add_months months)
        (with_both_rooms out.old statuses.old moments.now) }
    ensures status { result.status ≡ room_status out.old statuses.old moments.now }
    ensures written { out.new ≡ written_each (moment_add_months months)
        (with_both_rooms out.old statuses.old moments.now) out.old }
    ensures statuses { let gone = with_both_rooms out.old statuses.old moments.now in
        statuses.new ≡ status_of_each (moment_add_months months) gone
        ++ drop (length gone) statuses.old }
{
    convert_each(AddMonths { months }, moments, out, statuses)
}

/// The instant and the offset in each text of RFC 3339, and the status of
/// muxandu_date_time_from_rfc3339 for it. The status is SPAN for a span outside the block `texts`.
/// If an item fails, its place in `out` keeps its contents, and the call continues with the next.
/// `count` is the number of converted items. Errors: BUFFER if `out` or `statuses` has fewer items
/// than `spans`; the call then writes nothing.
#[unsafe(no_mangle)]
pub extern "C" fn muxandu_moments_from_each_rfc3339(
    texts: &[u8],
    spans: &[MuxanduSpan],
    out: &mut [MuxanduMoment],
    statuses: &mut [MuxanduStatus],
) -> MuxanduBatch
    ensures count { result.count ≡ count_of_values (moment_at texts.now)
        (with_both_rooms out.old statuses.old spans.now) }
    ensures status { result.status ≡ room_status out.old statuses.old spans.now }
    ensures written { out.new ≡ written_each (moment_at texts.now)
        (with_both_rooms out.old statuses.old spans.now) out.old }
    ensures statuses { let gone = with_both_rooms out.old statuses.old spans.now in
        statuses.new ≡ status_of_each (moment_at texts.now) gone
        ++ drop (length gone) statuses.old }
{
    convert_each(FromMomentTexts { texts }, spans, out, statuses)
}
