//! Many values in one call that continues after errors.
ghost use Rattle.std.specs.Prelude.{◌≡◌, ◌≤◌, ◌++◌, length, drop};
ghost use Rattle.muxandu_c.specs.Answers.{value_or};
ghost use Rattle.muxandu_c.specs.EachBatches.{written_each, status_of_each, count_of_values, count_of};
ghost use Rattle.muxandu_c.specs.EachBatches.{with_both_rooms, room_status};
ghost use Rattle.muxandu_c.specs.Values.{date_time_of_second, second_of_date_time};

use crate::batches::{Conversion, ToDateTime, ToSecond, stop_at};
use crate::refused::{MuxanduStatus, Refused, status_of};
use crate::values::{MuxanduBatch, MuxanduDateTime};

// The value and the status of each item.
#[inline(always)]
pub(crate) fn convert_each<A: Copy, B: Copy, C: Conversion<A, B>>(
    conversion: C,
    items: &[A],
    out: &mut [B],
    statuses: &mut [u32],
) -> MuxanduBatch
    ensures count { result.count ≡ count_of_values (C.value_of conversion)
        (with_both_rooms out.old statuses.old items.now) }
    ensures status { result.status ≡ room_status out.old statuses.old items.now }
    ensures written { out.new ≡ written_each (C.value_of conversion)
        (with_both_rooms out.old statuses.old items.now) out.old }
    ensures statuses { let gone = with_both_rooms out.old statuses.old items.now in
        statuses.new ≡ status_of_each (C.value_of conversion) gone
        ++ drop (length gone) statuses.old }
{
    if out.len() < items.len() || statuses.len() < items.len() {
        return stop_at(0, Refused::Buffer);
    }
    MuxanduBatch {
        count: fill_each(conversion, items, out, statuses),
        status: 0,
    }
}

#[inline(always)]
fn fill_each<A: Copy, B: Copy, C: Conversion<A, B>>(
    conversion: C,
    items: &[A],
    out: &mut [B],
    statuses: &mut [u32],
) -> usize
    requires room { length items.now ≤ length out.old }
    requires statuses_room { length items.now ≤ length statuses.old }
    ensures count { result ≡ count_of_values (C.value_of conversion) items.now }
    ensures written { out.new ≡ written_each (C.value_of conversion) items.now out.old }
    ensures statuses { statuses.new ≡ status_of_each (C.value_of conversion) items.now
        ++ drop (length items.now) statuses.old }
{
    let mut count = 0;
    for (k, item) in items.iter().enumerate() {
        let answer = conversion.convert(*item);
        put_value(answer, &mut out[k]);
        statuses[k] = status_of(answer);
        count += count_of(answer);
    }
    count
}

// The value of an answer, or another one after an error.
#[inline(always)]
pub(crate) fn value_or<B: Copy>(answer: Result<B, Refused>, other: B) -> B
    ensures { result ≡ value_or answer other }
{
    match answer {
        Ok(value) => value,
        Err(_) => other,
    }
}

// Puts the value of an answer into a place. After an error it writes nothing, also no byte between or behind fields.
#[inline(always)]
pub(crate) fn put_value<B: Copy>(answer: Result<B, Refused>, there: &mut B)
    ensures { there.new ≡ value_or answer there.old }
{
    match answer {
        Ok(value) => *there = value,
        Err(_) => {}
    }
}

// One for an answer that has a value.
#[inline(always)]
pub(crate) fn count_of<B: Copy>(answer: Result<B, Refused>) -> usize
    ensures value { result ≡ count_of answer }
    ensures at_most { result ≤ 1 }
{
    match answer {
        Ok(_) => 1,
        Err(_) => 0,
    }
}

/// The date-time of each Unix second at an offset in seconds, and the status of
/// muxandu_date_time_from_timestamp for it. If an item fails, its place in `out` keeps its
/// contents, and the call continues with the next. `count` is the number of converted items.
/// Errors: BUFFER if `out` or `statuses` has fewer items than `seconds`; the call then writes
/// nothing.
#[unsafe(no_mangle)]
pub extern "C" fn muxandu_date_times_from_each_second(
    seconds: &[i64],
    offset_seconds: i32,
    out: &mut [MuxanduDateTime],
    statuses: &mut [MuxanduStatus],
) -> MuxanduBatch
    ensures count { result.count ≡ count_of_values (date_time_of_second offset_seconds)
        (with_both_rooms out.old statuses.old seconds.now) }
    ensures status { result.status ≡ room_status out.old statuses.old seconds.now }
    ensures written { out.new ≡ written_each (date_time_of_second offset_seconds)
        (with_both_rooms out.old statuses.old seconds.now) out.old }
    ensures statuses { let gone = with_both_rooms out.old statuses.old seconds.now in
        statuses.new ≡ status_of_each (date_time_of_second offset_seconds) gone
        ++ drop (length gone) statuses.old }
{
    convert_each(ToDateTime { offset_seconds }, seconds, out, statuses)
}

/// The Unix second of each date-time, rounded down, and the status of
/// muxandu_timestamp_from_date_time for it. If an item fails, its place in `out` keeps its
/// contents, and the call continues with the next. `count` is the number of converted items.
/// Errors: BUFFER if `out` or `statuses` has fewer items than `date_times`; the call then writes
/// nothing.
#[unsafe(no_mangle)]
pub extern "C" fn muxandu_seconds_from_each_date_time(
    date_times: &[MuxanduDateTime],
    out: &mut [i64],
    statuses: &mut [MuxanduStatus],
) -> MuxanduBatch
    ensures count { result.count ≡ count_of_values second_of_date_time
        (with_both_rooms out.old statuses.old date_times.now) }
    ensures status { result.status ≡ room_status out.old statuses.old date_times.now }
    ensures written { out.new ≡ written_each second_of_date_time
        (with_both_rooms out.old statuses.old date_times.now) out.old }
    ensures statuses { let gone = with_both_rooms out.old statuses.old date_times.now in
        statuses.new ≡ status_of_each second_of_date_time gone
        ++ drop (length gone) statuses.old }
{
    convert_each(ToSecond, date_times, out, statuses)
}
