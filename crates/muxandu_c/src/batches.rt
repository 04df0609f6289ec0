//! Many values in one call.
ghost use Rattle.std.specs.Prelude.{◌≡◌, ◌<◌, ◌≤◌, ◌++◌, length, take, drop, Result};
ghost use Rattle.muxandu_c.specs.Answers.{status_number};
ghost use Rattle.muxandu_c.specs.Batches.{values_of, status_of_items, AreValuesOf};
ghost use Rattle.muxandu_c.specs.Batches.{batch_values, batch_status};
ghost use Rattle.muxandu_c.specs.Exchange.{IsRead, IsReadAt};
ghost use Rattle.muxandu_c.specs.Values.{date_time_of_second, second_of_date_time, date_from_day, day_from_date};
ghost use Rattle.muxandu_c.specs.declared.refused.Refused.{Refused};
ghost use Rattle.muxandu_c.specs.declared.refused.Refused.TheVariants as refused;

use crate::date_time_batches::fill_from_date_times;
use crate::date_times::date_time_from_timestamp;
use crate::day_batches::fill_from_days;
use crate::days::{date_from_day, day_from_date};
use crate::exchange::timestamp_from_rfc3339;
use crate::parts::{instant_of_date_time, read_date_time};
use crate::refused::{Refused, status};
use crate::second_batches::fill_from_seconds;
use crate::values::{MuxanduBatch, MuxanduDate, MuxanduDateTime, MuxanduSpan, MuxanduTimestamp};

// The conversion of each item of a batch into a value, or an error.
pub(crate) trait Conversion<A, B>: Copy {
    /// The value of an item, or why it is refused.
    ghost value_of: { Self → A → Result B Refused };

    fn convert(self, item: A) -> Result<B, Refused>
        ensures { result ≡ value_of self item };
}

// The values of items, up to the first that is refused.
#[inline(always)]
pub(crate) fn convert_all<A: Copy, B: Copy, C: Conversion<A, B>>(
    conversion: C,
    items: &[A],
    out: &mut [B],
) -> MuxanduBatch
    ensures count { result.count ≡ length (batch_values (C.value_of conversion) out.old items.now) }
    ensures status { result.status ≡ batch_status (C.value_of conversion) out.old items.now }
    ensures written { out.new ≡ batch_values (C.value_of conversion) out.old items.now
        ++ drop result.count out.old }
{
    if out.len() < items.len() {
        return stop_at(0, Refused::Buffer);
    }
    fill(conversion, items, out)
}

#[inline(always)]
pub(crate) fn fill<A: Copy, B: Copy, C: Conversion<A, B>>(
    conversion: C,
    items: &[A],
    out: &mut [B],
) -> MuxanduBatch
    requires room { length items.now ≤ length out.old }
    ensures count { result.count ≡ length (values_of (C.value_of conversion) items.now) }
    ensures status { result.status ≡ status_of_items (C.value_of conversion) items.now }
    ensures written { out.new ≡ values_of (C.value_of conversion) items.now
        ++ drop result.count out.old }
{
    for (k, item) in items.iter().enumerate() {
        match conversion.convert(*item) {
            Ok(value) => out[k] = value,
            Err(refused) => return stop_at(k, refused),
        }
    }
    MuxanduBatch {
        count: items.len(),
        status: 0,
    }
}

pub(crate) fn stop_at(count: usize, refused: Refused) -> MuxanduBatch
    ensures count { result.count ≡ count }
    ensures status { result.status ≡ status_number refused }
{
    MuxanduBatch {
        count,
        status: status(refused),
    }
}

#[derive(Clone, Copy)]
pub(crate) struct ToDateTime {
    pub(crate) offset_seconds: i32,
}

impl Conversion<i64, MuxanduDateTime> for ToDateTime {
    ghost value_of = { λ conversion second. date_time_of_second conversion.offset_seconds second };

    #[inline(always)]
    fn convert(self, item: i64) -> Result<MuxanduDateTime, Refused> {
        date_time_from_timestamp(
            MuxanduTimestamp {
                seconds: item,
                nanoseconds: 0,
            },
            self.offset_seconds,
        )
    }
}

/// The date-time of each Unix second at an offset in seconds, up to the first that
/// muxandu_date_time_from_timestamp rejects. Errors: BUFFER if `out` has fewer items than `seconds`
/// (the call then writes nothing), else that of the first rejected item.
#[unsafe(no_mangle)]
pub extern "C" fn muxandu_date_times_from_seconds(
    seconds: &[i64],
    offset_seconds: i32,
    out: &mut [MuxanduDateTime],
) -> MuxanduBatch
    ensures count { result.count ≡
        length (batch_values (date_time_of_second offset_seconds) out.old seconds.now) }
    ensures status { result.status ≡
        batch_status (date_time_of_second offset_seconds) out.old seconds.now }
    ensures written { out.new ≡
        batch_values (date_time_of_second offset_seconds) out.old seconds.now
        ++ drop result.count out.old }
{
    if out.len() < seconds.len() {
        return stop_at(0, Refused::Buffer);
    }
    fill_from_seconds(seconds, offset_seconds, out)
}

#[derive(Clone, Copy)]
pub(crate) struct ToSecond;

impl Conversion<MuxanduDateTime, i64> for ToSecond {
    ghost value_of = { λ conversion date_time. second_of_date_time date_time };

    #[inline(always)]
    fn convert(self, item: MuxanduDateTime) -> Result<i64, Refused> {
        let at = read_date_time(item)?;
        Ok(instant_of_date_time(at, item.offset_seconds)?.as_seconds())
    }
}

/// The Unix second of each date-time, rounded down, up to the first that
/// muxandu_timestamp_from_date_time rejects. Errors: BUFFER if `out` has fewer items than
/// `date_times` (the call then writes nothing), else that of the first rejected item.
#[unsafe(no_mangle)]
pub extern "C" fn muxandu_seconds_from_date_times(
    date_times: &[MuxanduDateTime],
    out: &mut [i64],
) -> MuxanduBatch
    ensures count { result.count ≡
        length (batch_values second_of_date_time out.old date_times.now) }
    ensures status { result.status ≡ batch_status second_of_date_time out.old date_times.now }
    ensures written { out.new ≡ batch_values second_of_date_time out.old date_times.now
        ++ drop result.count out.old }
{
    if out.len() < date_times.len() {
        return stop_at(0, Refused::Buffer);
    }
    fill_from_date_times(date_times, out)
}

#[derive(Clone, Copy)]
pub(crate) struct ToDate;

impl Conversion<i32, MuxanduDate> for ToDate {
    ghost value_of = { λ conversion day. date_from_day day };

    #[inline(always)]
    fn convert(self, item: i32) -> Result<MuxanduDate, Refused> {
        date_from_day(item)
    }
}

/// The date of each day number, up to the first that muxandu_date_from_day rejects. Errors: BUFFER
/// if `out` has fewer items than `days` (the call then writes nothing), else that of the first
/// rejected item.
#[unsafe(no_mangle)]
pub extern "C" fn muxandu_dates_from_days(days: &[i32], out: &mut [MuxanduDate]) -> MuxanduBatch
    ensures count { result.count ≡ length (batch_values date_from_day out.old days.now) }
    ensures status { result.status ≡ batch_status date_from_day out.old days.now }
    ensures written { out.new ≡ batch_values date_from_day out.old days.now
        ++ drop result.count out.old }
{
    if out.len() < days.len() {
        return stop_at(0, Refused::Buffer);
    }
    fill_from_days(days, out)
}

#[derive(Clone, Copy)]
struct ToDay;

impl Conversion<MuxanduDate, i32> for ToDay {
    ghost value_of = { λ conversion date. day_from_date date };

    #[inline(always)]
    fn convert(self, item: MuxanduDate) -> Result<i32, Refused> {
        day_from_date(item)
    }
}

/// The day number of each date, up to the first that muxandu_day_from_date rejects. Errors: BUFFER
/// if `out` has fewer items than `dates` (the call then writes nothing), else that of the first
/// rejected item.
#[unsafe(no_mangle)]
pub extern "C" fn muxandu_days_from_dates(dates: &[MuxanduDate], out: &mut [i32]) -> MuxanduBatch
    ensures count { result.count ≡ length (batch_values day_from_date out.old dates.now) }
    ensures status { result.status ≡ batch_status day_from_date out.old dates.now }
    ensures written { out.new ≡ batch_values day_from_date out.old dates.now
        ++ drop result.count out.old }
{
    convert_all(ToDay, dates, out)
}

/// The instant of each text of RFC 3339, up to the first that muxandu_timestamp_from_rfc3339
/// rejects. A span outside the block `texts` fails with SPAN. Errors: BUFFER if `out` has fewer
/// items than `spans` (the call then writes nothing), else that of the first rejected item.
#[unsafe(no_mangle)]
pub extern "C" fn muxandu_timestamps_from_rfc3339(
    texts: &[u8],
    spans: &[MuxanduSpan],
    out: &mut [MuxanduTimestamp],
) -> MuxanduBatch
    ensures room { length out.old < length spans.now → (result.count ≡ 0)
        × (result.status ≡ status_number refused.Buffer) }
    ensures values { length spans.now ≤ length out.old →
        AreValuesOf (IsReadAt texts.now) spans.now (take result.count out.new) result.status }
    ensures count { result.count ≤ length spans.now }
    ensures behind { drop result.count out.new ≡ drop result.count out.old }
{
    if out.len() < spans.len() {
        return stop_at(0, Refused::Buffer);
    }
    fill_timestamps(texts, spans, out)
}

fn fill_timestamps(
    texts: &[u8],
    spans: &[MuxanduSpan],
    out: &mut [MuxanduTimestamp],
) -> MuxanduBatch
    requires room { length spans.now ≤ length out.old }
    ensures values { AreValuesOf (IsReadAt texts.now) spans.now
        (take result.count out.new) result.status }
    ensures count { result.count ≤ length spans.now }
    ensures behind { drop result.count out.new ≡ drop result.count out.old }
{
    for (k, span) in spans.iter().enumerate() {
        match timestamp_in(texts, *span) {
            Ok(at) => out[k] = at,
            Err(refused) => return stop_at(k, refused),
        }
    }
    MuxanduBatch {
        count: spans.len(),
        status: 0,
    }
}

// The instant of the text of a span.
#[inline(always)]
fn timestamp_in(texts: &[u8], span: MuxanduSpan) -> Result<MuxanduTimestamp, Refused>
    ensures { IsReadAt texts.now span result }
{
    if span.start > texts.len() || span.length > texts.len() - span.start {
        return Err(Refused::Span);
    }
    read_timestamp_text(&texts[span.start..span.start + span.length])
}

#[inline(always)]
fn read_timestamp_text(text: &[u8]) -> Result<MuxanduTimestamp, Refused>
    ensures { IsRead text.now result }
{
    timestamp_from_rfc3339(text)
}
