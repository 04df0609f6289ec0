//! Columns of moments in one call.
ghost use Rattle.std.specs.Prelude.{◌≡◌, ◌++◌, length, drop};
ghost use Rattle.muxandu_c.specs.Batches.{batch_values, batch_status};
ghost use Rattle.muxandu_c.specs.Moments.{date_time_of_moment, moment_of_date_time, moment_at};
ghost use Rattle.muxandu_c.specs.Moments.{moment_to_offset, moment_truncate, moment_add_months};

use crate::batches::{Conversion, convert_all};
use crate::moments::{
    MuxanduMoment, date_time_of_moment, moment_add_months, moment_of_date_time, moment_to_offset,
    moment_truncate,
};
use crate::refused::Refused;
use crate::text_batches::date_time_in;
use crate::unit::MuxanduUnit;
use crate::values::{MuxanduBatch, MuxanduDateTime, MuxanduSpan};

#[derive(Clone, Copy)]
pub(crate) struct ToDateTimes;

impl Conversion<MuxanduMoment, MuxanduDateTime> for ToDateTimes {
    ghost value_of = { λ conversion item. date_time_of_moment item };

    #[inline(always)]
    fn convert(self, item: MuxanduMoment) -> Result<MuxanduDateTime, Refused> {
        date_time_of_moment(item)
    }
}

/// The date-time of each moment, at its own offset, up to the first that
/// muxandu_date_time_from_timestamp rejects. Errors: BUFFER if `out` has fewer items than `moments`
/// (the call then writes nothing), else that of the first rejected item.
#[unsafe(no_mangle)]
pub extern "C" fn muxandu_date_times_from_moments(
    moments: &[MuxanduMoment],
    out: &mut [MuxanduDateTime],
) -> MuxanduBatch
    ensures count { result.count ≡
        length (batch_values date_time_of_moment out.old moments.now) }
    ensures status { result.status ≡ batch_status date_time_of_moment out.old moments.now }
    ensures written { out.new ≡ batch_values date_time_of_moment out.old moments.now
        ++ drop result.count out.old }
{
    convert_all(ToDateTimes, moments, out)
}

#[derive(Clone, Copy)]
pub(crate) struct FromDateTimes;

impl Conversion<MuxanduDateTime, MuxanduMoment> for FromDateTimes {
    ghost value_of = { λ conversion item. moment_of_date_time item };

    #[inline(always)]
    fn convert(self, item: MuxanduDateTime) -> Result<MuxanduMoment, Refused> {
        moment_of_date_time(item)
    }
}

/// The moment of each date-time, up to the first that muxandu_timestamp_from_date_time rejects.
/// Errors: BUFFER if `out` has fewer items than `date_times` (the call then writes nothing), else
/// that of the first rejected item.
#[unsafe(no_mangle)]
pub extern "C" fn muxandu_moments_from_date_times(
    date_times: &[MuxanduDateTime],
    out: &mut [MuxanduMoment],
) -> MuxanduBatch
    ensures count { result.count ≡
        length (batch_values moment_of_date_time out.old date_times.now) }
    ensures status { result.status ≡ batch_status moment_of_date_time out.old date_times.now }
    ensures written { out.new ≡ batch_values moment_of_date_time out.old date_times.now
        ++ drop result.count out.old }
{
    convert_all(FromDateTimes, date_times, out)
}

#[derive(Clone, Copy)]
pub(crate) struct ToOffset {
    pub(crate) offset_seconds: i32,
}

impl Conversion<MuxanduMoment, MuxanduMoment> for ToOffset {
    ghost value_of = { λ conversion item. moment_to_offset conversion.offset_seconds item };

    #[inline(always)]
    fn convert(self, item: MuxanduMoment) -> Result<MuxanduMoment, Refused> {
        moment_to_offset(item, self.offset_seconds)
    }
}

/// The same instant of each moment at another offset in seconds, up to the first that
/// muxandu_date_time_to_offset rejects. Errors: BUFFER if `out` has fewer items than `moments` (the
/// call then writes nothing), else that of the first rejected item.
#[unsafe(no_mangle)]
pub extern "C" fn muxandu_moments_to_offset(
    moments: &[MuxanduMoment],
    offset_seconds: i32,
    out: &mut [MuxanduMoment],
) -> MuxanduBatch
    ensures count { result.count ≡
        length (batch_values (moment_to_offset offset_seconds) out.old moments.now) }
    ensures status { result.status ≡
        batch_status (moment_to_offset offset_seconds) out.old moments.now }
    ensures written { out.new ≡ batch_values (moment_to_offset offset_seconds) out.old moments.now
        ++ drop result.count out.old }
{
    convert_all(ToOffset { offset_seconds }, moments, out)
}

#[derive(Clone, Copy)]
pub(crate) struct Truncate {
    pub(crate) unit: u32,
}

impl Conversion<MuxanduMoment, MuxanduMoment> for Truncate {
    ghost value_of = { λ conversion item. moment_truncate conversion.unit item };

    #[inline(always)]
    fn convert(self, item: MuxanduMoment) -> Result<MuxanduMoment, Refused> {
        moment_truncate(item, self.unit)
    }
}

/// Each moment, rounded down to a unit by its own clocks, up to the first that
/// muxandu_date_time_truncate rejects. Errors: BUFFER if `out` has fewer items than `moments` (the
/// call then writes nothing), else that of the first rejected item.
#[unsafe(no_mangle)]
pub extern "C" fn muxandu_moments_truncate(
    moments: &[MuxanduMoment],
    unit: MuxanduUnit,
    out: &mut [MuxanduMoment],
) -> MuxanduBatch
    ensures count { result.count ≡
        length (batch_values (moment_truncate unit) out.old moments.now) }
    ensures status { result.status ≡ batch_status (moment_truncate unit) out.old moments.now }
    ensures written { out.new ≡ batch_values (moment_truncate unit) out.old moments.now
        ++ drop result.count out.old }
{
    convert_all(Truncate { unit }, moments, out)
}

#[derive(Clone, Copy)]
pub(crate) struct AddMonths {
    pub(crate) months: i32,
}

impl Conversion<MuxanduMoment, MuxanduMoment> for AddMonths {
    ghost value_of = { λ conversion item. moment_add_months conversion.months item };

    #[inline(always)]
    fn convert(self, item: MuxanduMoment) -> Result<MuxanduMoment, Refused> {
        moment_add_months(item, self.months)
    }
}

/// Each moment a number of months later, or earlier if it is negative, at the same local time and
/// offset; in a shorter month on its last day, up to the first that muxandu_date_add_months
/// rejects. Errors: BUFFER if `out` has fewer items than `moments` (the call then writes nothing),
/// else that of the first rejected item.
#[unsafe(no_mangle)]
pub extern "C" fn muxandu_moments_add_months(
    moments: &[MuxanduMoment],
    months: i32,
    out: &mut [MuxanduMoment],
) -> MuxanduBatch
    ensures count { result.count ≡
        length (batch_values (moment_add_months months) out.old moments.now) }
    ensures status { result.status ≡ batch_status (moment_add_months months) out.old moments.now }
    ensures written { out.new ≡ batch_values (moment_add_months months) out.old moments.now
        ++ drop result.count out.old }
{
    convert_all(AddMonths { months }, moments, out)
}

#[derive(Clone, Copy)]
pub(crate) struct FromMomentTexts<'a> {
    pub(crate) texts: &'a [u8],
}

impl Conversion<MuxanduSpan, MuxanduMoment> for FromMomentTexts<'_> {
    ghost value_of = { λ conversion span. moment_at conversion.texts.now span };

    fn convert(self, item: MuxanduSpan) -> Result<MuxanduMoment, Refused> {
        moment_of_date_time(date_time_in(self.texts, item)?)
    }
}

/// The instant and the offset in each text of RFC 3339, up to the first that
/// muxandu_date_time_from_rfc3339 rejects. A span outside the block `texts` fails with SPAN.
/// Errors: BUFFER if `out` has fewer items than `spans` (the call then writes nothing), else that
/// of the first rejected item.
#[unsafe(no_mangle)]
pub extern "C" fn muxandu_moments_from_rfc3339(
    texts: &[u8],
    spans: &[MuxanduSpan],
    out: &mut [MuxanduMoment],
) -> MuxanduBatch
    ensures count { result.count ≡
        length (batch_values (moment_at texts.now) out.old spans.now) }
    ensures status { result.status ≡ batch_status (moment_at texts.now) out.old spans.now }
    ensures written { out.new ≡ batch_values (moment_at texts.now) out.old spans.now
        ++ drop result.count out.old }
{
    convert_all(FromMomentTexts { texts }, spans, out)
}
