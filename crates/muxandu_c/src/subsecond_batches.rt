//! Many counts of milliseconds, microseconds or nanoseconds in one call.
ghost use Rattle.std.specs.Prelude.{◌≡◌, ◌++◌, length, drop};
ghost use Rattle.muxandu_c.specs.Batches.{batch_values, batch_status};
ghost use Rattle.muxandu_c.specs.SubsecondBatches.{date_time_of_milliseconds, milliseconds_of_date_time};
ghost use Rattle.muxandu_c.specs.SubsecondBatches.{date_time_of_microseconds, microseconds_of_date_time};
ghost use Rattle.muxandu_c.specs.SubsecondBatches.{date_time_of_nanoseconds, nanoseconds_of_date_time};

use crate::batches::{Conversion, convert_all};
use crate::date_times::{date_time_from_timestamp, timestamp_from_date_time};
use crate::refused::Refused;
use crate::timestamps::{
    muxandu_timestamp_from_microseconds, muxandu_timestamp_from_nanoseconds,
    timestamp_from_milliseconds, timestamp_to_microseconds, timestamp_to_milliseconds,
    timestamp_to_nanoseconds,
};
use crate::values::{MuxanduBatch, MuxanduDateTime};

#[derive(Clone, Copy)]
struct FromManyMilliseconds {
    offset_seconds: i32,
}

impl Conversion<i64, MuxanduDateTime> for FromManyMilliseconds {
    ghost value_of = { λ it count. date_time_of_milliseconds it.offset_seconds count };

    #[inline(always)]
    fn convert(self, item: i64) -> Result<MuxanduDateTime, Refused> {
        date_time_from_timestamp(timestamp_from_milliseconds(item)?, self.offset_seconds)
    }
}

/// The date-time of each Unix millisecond at an offset in seconds, up to the first that
/// muxandu_timestamp_from_milliseconds or muxandu_date_time_from_timestamp rejects. Errors: BUFFER
/// if `out` has fewer items than `milliseconds` (the call then writes nothing), else that of the
/// first rejected item.
#[unsafe(no_mangle)]
pub extern "C" fn muxandu_date_times_from_milliseconds(
    milliseconds: &[i64],
    offset_seconds: i32,
    out: &mut [MuxanduDateTime],
) -> MuxanduBatch
    ensures count { result.count ≡
        length (batch_values (date_time_of_milliseconds offset_seconds) out.old milliseconds.now) }
    ensures status { result.status ≡
        batch_status (date_time_of_milliseconds offset_seconds) out.old milliseconds.now }
    ensures written { out.new ≡
        batch_values (date_time_of_milliseconds offset_seconds) out.old milliseconds.now
        ++ drop result.count out.old }
{
    convert_all(FromManyMilliseconds { offset_seconds }, milliseconds, out)
}

#[derive(Clone, Copy)]
struct ToManyMilliseconds;

impl Conversion<MuxanduDateTime, i64> for ToManyMilliseconds {
    ghost value_of = { λ conversion date_time. milliseconds_of_date_time date_time };

    #[inline(always)]
    fn convert(self, item: MuxanduDateTime) -> Result<i64, Refused> {
        timestamp_to_milliseconds(timestamp_from_date_time(item)?)
    }
}

/// The milliseconds from 1970-01-01 0:00 UTC of each date-time, rounded down, up to the first that
/// muxandu_timestamp_from_date_time or muxandu_timestamp_to_milliseconds rejects. Errors: BUFFER if
/// `out` has fewer items than `date_times` (the call then writes nothing), else that of the first
/// rejected item.
#[unsafe(no_mangle)]
pub extern "C" fn muxandu_milliseconds_from_date_times(
    date_times: &[MuxanduDateTime],
    out: &mut [i64],
) -> MuxanduBatch
    ensures count { result.count ≡
        length (batch_values milliseconds_of_date_time out.old date_times.now) }
    ensures status { result.status ≡ batch_status milliseconds_of_date_time out.old date_times.now }
    ensures written { out.new ≡ batch_values milliseconds_of_date_time out.old date_times.now
        ++ drop result.count out.old }
{
    convert_all(ToManyMilliseconds, date_times, out)
}

#[derive(Clone, Copy)]
struct FromManyMicroseconds {
    offset_seconds: i32,
}

impl Conversion<i64, MuxanduDateTime> for FromManyMicroseconds {
    ghost value_of = { λ it count. date_time_of_microseconds it.offset_seconds count };

    #[inline(always)]
    fn convert(self, item: i64) -> Result<MuxanduDateTime, Refused> {
        date_time_from_timestamp(
            muxandu_timestamp_from_microseconds(item),
            self.offset_seconds,
        )
    }
}

/// The date-time of each Unix microsecond at an offset in seconds, up to the first that
/// muxandu_date_time_from_timestamp rejects. Errors: BUFFER if `out` has fewer items than
/// `microseconds` (the call then writes nothing), else that of the first rejected item.
#[unsafe(no_mangle)]
pub extern "C" fn muxandu_date_times_from_microseconds(
    microseconds: &[i64],
    offset_seconds: i32,
    out: &mut [MuxanduDateTime],
) -> MuxanduBatch
    ensures count { result.count ≡
        length (batch_values (date_time_of_microseconds offset_seconds) out.old microseconds.now) }
    ensures status { result.status ≡
        batch_status (date_time_of_microseconds offset_seconds) out.old microseconds.now }
    ensures written { out.new ≡
        batch_values (date_time_of_microseconds offset_seconds) out.old microseconds.now
        ++ drop result.count out.old }
{
    convert_all(FromManyMicroseconds { offset_seconds }, microseconds, out)
}

#[derive(Clone, Copy)]
struct ToManyMicroseconds;

impl Conversion<MuxanduDateTime, i64> for ToManyMicroseconds {
    ghost value_of = { λ conversion date_time. microseconds_of_date_time date_time };

    #[inline(always)]
    fn convert(self, item: MuxanduDateTime) -> Result<i64, Refused> {
        timestamp_to_microseconds(timestamp_from_date_time(item)?)
    }
}

/// The microseconds from 1970-01-01 0:00 UTC of each date-time, rounded down, up to the first that
/// muxandu_timestamp_from_date_time or muxandu_timestamp_to_microseconds rejects. Errors: BUFFER if
/// `out` has fewer items than `date_times` (the call then writes nothing), else that of the first
/// rejected item.
#[unsafe(no_mangle)]
pub extern "C" fn muxandu_microseconds_from_date_times(
    date_times: &[MuxanduDateTime],
    out: &mut [i64],
) -> MuxanduBatch
    ensures count { result.count ≡
        length (batch_values microseconds_of_date_time out.old date_times.now) }
    ensures status { result.status ≡ batch_status microseconds_of_date_time out.old date_times.now }
    ensures written { out.new ≡ batch_values microseconds_of_date_time out.old date_times.now
        ++ drop result.count out.old }
{
    convert_all(ToManyMicroseconds, date_times, out)
}

#[derive(Clone, Copy)]
struct FromManyNanoseconds {
    offset_seconds: i32,
}

impl Conversion<i64, MuxanduDateTime> for FromManyNanoseconds {
    ghost value_of = { λ it count. date_time_of_nanoseconds it.offset_seconds count };

    #[inline(always)]
    fn convert(self, item: i64) -> Result<MuxanduDateTime, Refused> {
        date_time_from_timestamp(
            muxandu_timestamp_from_nanoseconds(item),
            self.offset_seconds,
        )
    }
}

/// The date-time of each Unix nanosecond at an offset in seconds, up to the first that
/// muxandu_date_time_from_timestamp rejects. Errors: BUFFER if `out` has fewer items than
/// `nanoseconds` (the call then writes nothing), else that of the first rejected item.
#[unsafe(no_mangle)]
pub extern "C" fn muxandu_date_times_from_nanoseconds(
    nanoseconds: &[i64],
    offset_seconds: i32,
    out: &mut [MuxanduDateTime],
) -> MuxanduBatch
    ensures count { result.count ≡
        length (batch_values (date_time_of_nanoseconds offset_seconds) out.old nanoseconds.now) }
    ensures status { result.status ≡
        batch_status (date_time_of_nanoseconds offset_seconds) out.old nanoseconds.now }
    ensures written { out.new ≡
        batch_values (date_time_of_nanoseconds offset_seconds) out.old nanoseconds.now
        ++ drop result.count out.old }
{
    convert_all(FromManyNanoseconds { offset_seconds }, nanoseconds, out)
}

#[derive(Clone, Copy)]
struct ToManyNanoseconds;

impl Conversion<MuxanduDateTime, i64> for ToManyNanoseconds {
    ghost value_of = { λ conversion date_time. nanoseconds_of_date_time date_time };

    #[inline(always)]
    fn convert(self, item: MuxanduDateTime) -> Result<i64, Refused> {
        timestamp_to_nanoseconds(timestamp_from_date_time(item)?)
    }
}

/// The nanoseconds from 1970-01-01 0:00 UTC of each date-time, up to the first that
/// muxandu_timestamp_from_date_time or muxandu_timestamp_to_nanoseconds rejects. Errors: BUFFER if
/// `out` has fewer items than `date_times` (the call then writes nothing), else that of the first
/// rejected item.
#[unsafe(no_mangle)]
pub extern "C" fn muxandu_nanoseconds_from_date_times(
    date_times: &[MuxanduDateTime],
    out: &mut [i64],
) -> MuxanduBatch
    ensures count { result.count ≡
        length (batch_values nanoseconds_of_date_time out.old date_times.now) }
    ensures status { result.status ≡ batch_status nanoseconds_of_date_time out.old date_times.now }
    ensures written { out.new ≡ batch_values nanoseconds_of_date_time out.old date_times.now
        ++ drop result.count out.old }
{
    convert_all(ToManyNanoseconds, date_times, out)
}
