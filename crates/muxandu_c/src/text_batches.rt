//! Many texts of a block in one call.
ghost use Rattle.std.specs.Prelude.{◌≡◌, ◌++◌, length, drop};
ghost use Rattle.muxandu_c.specs.Batches.{batch_values, batch_status};
ghost use Rattle.muxandu_c.specs.EachBatches.{written_each, status_of_each, count_of_values};
ghost use Rattle.muxandu_c.specs.EachBatches.{with_both_rooms, room_status};
ghost use Rattle.muxandu_c.specs.TextBatches.{date_time_at, date_time_read};

use crate::batches::{Conversion, convert_all};
use crate::each_batches::convert_each;
use crate::exchange::date_time_from_rfc3339;
use crate::refused::{MuxanduStatus, Refused};
use crate::values::{MuxanduBatch, MuxanduDateTime, MuxanduSpan};

#[derive(Clone, Copy)]
struct FromTexts<'a> {
    texts: &'a [u8],
}

impl Conversion<MuxanduSpan, MuxanduDateTime> for FromTexts<'_> {
    ghost value_of = { λ conversion span. date_time_at conversion.texts.now span };

    fn convert(self, item: MuxanduSpan) -> Result<MuxanduDateTime, Refused> {
        date_time_in(self.texts, item)
    }
}

// The date-time of the text of a span.
#[inline(always)]
pub(crate) fn date_time_in(texts: &[u8], span: MuxanduSpan) -> Result<MuxanduDateTime, Refused>
    ensures { result ≡ date_time_at texts.now span }
{
    if span.start > texts.len() || span.length > texts.len() - span.start {
        return Err(Refused::Span);
    }
    date_time_of_text(&texts[span.start..span.start + span.length])
}

// The date-time of a text.
#[inline(always)]
pub(crate) fn date_time_of_text(text: &[u8]) -> Result<MuxanduDateTime, Refused>
    ensures { result ≡ date_time_read text.now }
{
    date_time_from_rfc3339(text)
}

/// The date-time and the offset in each text of RFC 3339, up to the first that
/// muxandu_date_time_from_rfc3339 rejects. A span outside the block `texts` fails with SPAN.
/// Errors: BUFFER if `out` has fewer items than `spans` (the call then writes nothing), else that
/// of the first rejected item.
#[unsafe(no_mangle)]
pub extern "C" fn muxandu_date_times_from_rfc3339(
    texts: &[u8],
    spans: &[MuxanduSpan],
    out: &mut [MuxanduDateTime],
) -> MuxanduBatch
    ensures count { result.count ≡
        length (batch_values (date_time_at texts.now) out.old spans.now) }
    ensures status { result.status ≡ batch_status (date_time_at texts.now) out.old spans.now }
    ensures written { out.new ≡ batch_values (date_time_at texts.now) out.old spans.now
        ++ drop result.count out.old }
{
    convert_all(FromTexts { texts }, spans, out)
}

/// The date-time and the offset in each text of RFC 3339, and the status of
/// muxandu_date_time_from_rfc3339 for it. The status is SPAN for a span outside the block `texts`.
/// If an item fails, its place in `out` keeps its contents, and the call continues with the next.
/// `count` is the number of converted items. Errors: BUFFER if `out` or `statuses` has fewer items
/// than `spans`; the call then writes nothing.
#[unsafe(no_mangle)]
pub extern "C" fn muxandu_date_times_from_each_rfc3339(
    texts: &[u8],
    spans: &[MuxanduSpan],
    out: &mut [MuxanduDateTime],
    statuses: &mut [MuxanduStatus],
) -> MuxanduBatch
    ensures count { result.count ≡ count_of_values (date_time_at texts.now)
        (with_both_rooms out.old statuses.old spans.now) }
    ensures status { result.status ≡ room_status out.old statuses.old spans.now }
    ensures written { out.new ≡ written_each (date_time_at texts.now)
        (with_both_rooms out.old statuses.old spans.now) out.old }
    ensures statuses { let gone = with_both_rooms out.old statuses.old spans.now in
        statuses.new ≡ status_of_each (date_time_at texts.now) gone
        ++ drop (length gone) statuses.old }
{
    convert_each(FromTexts { texts }, spans, out, statuses)
}
