//! Columns of texts without an offset, or of some with one and some without.
ghost use Rattle.std.specs.Prelude.{◌≡◌, ◌++◌, length, drop};
ghost use Rattle.muxandu_c.specs.Batches.{batch_values, batch_status};
ghost use Rattle.muxandu_c.specs.EachBatches.{written_each, status_of_each, count_of_values};
ghost use Rattle.muxandu_c.specs.EachBatches.{with_both_rooms, room_status};
ghost use Rattle.muxandu_c.specs.LocalTexts.{local_at, local_moment_at, local_pair, local_moment_pair};
ghost use Rattle.muxandu_c.specs.PairBatches.{of_pair, pair_values, pair_status, pairs_with_rooms, pair_room_status};

use crate::batches::{Conversion, convert_all};
use crate::each_batches::convert_each;
use crate::local_date_times::date_time_from_local;
use crate::moments::{MuxanduMoment, moment_of_date_time};
use crate::pair_batches::{Pairing, pair_all, pair_each};
use crate::refused::{MuxanduStatus, Refused};
use crate::values::{MuxanduBatch, MuxanduDateTime, MuxanduSpan};

// The date-time of the text of a span, and its moment.
fn local_at(
    texts: &[u8],
    offset_seconds: i32,
    span: MuxanduSpan,
) -> Result<MuxanduDateTime, Refused>
    ensures { result ≡ local_at texts.now offset_seconds span }
{
    if span.start > texts.len() || span.length > texts.len() - span.start {
        return Err(Refused::Span);
    }
    date_time_from_local(&texts[span.start..span.start + span.length], offset_seconds)
}

fn local_moment_at(
    texts: &[u8],
    offset_seconds: i32,
    span: MuxanduSpan,
) -> Result<MuxanduMoment, Refused>
    ensures { result ≡ local_moment_at texts.now offset_seconds span }
{
    moment_of_date_time(local_at(texts, offset_seconds, span)?)
}

#[derive(Clone, Copy)]
struct FromLocalTexts<'a> {
    texts: &'a [u8],
    offset_seconds: i32,
}

impl Conversion<MuxanduSpan, MuxanduDateTime> for FromLocalTexts<'_> {
    ghost value_of = { λ conversion span.
        local_at conversion.texts.now conversion.offset_seconds span };

    fn convert(self, item: MuxanduSpan) -> Result<MuxanduDateTime, Refused> {
        local_at(self.texts, self.offset_seconds, item)
    }
}

#[derive(Clone, Copy)]
struct FromLocalTextsAtOffsets<'a> {
    texts: &'a [u8],
}

impl Pairing<MuxanduSpan, i32, MuxanduDateTime> for FromLocalTextsAtOffsets<'_> {
    ghost value_of = { λ pairing first second. local_pair pairing.texts.now first second };

    fn pair(self, first: MuxanduSpan, second: i32) -> Result<MuxanduDateTime, Refused> {
        local_at(self.texts, second, first)
    }
}

/// The date-time in each text of RFC 3339, with or without an offset, up to the first
/// that muxandu_date_time_from_local rejects at `offset_seconds`. A span outside the block `texts`
/// fails with SPAN. Errors: BUFFER if `out` has fewer items than `spans` (the call then writes
/// nothing), else that of the first rejected item.
#[unsafe(no_mangle)]
pub extern "C" fn muxandu_date_times_from_local(
    texts: &[u8],
    spans: &[MuxanduSpan],
    offset_seconds: i32,
    out: &mut [MuxanduDateTime],
) -> MuxanduBatch
    ensures count { result.count ≡
        length (batch_values (local_at texts.now offset_seconds) out.old spans.now) }
    ensures status { result.status ≡
        batch_status (local_at texts.now offset_seconds) out.old spans.now }
    ensures written { out.new ≡
        batch_values (local_at texts.now offset_seconds) out.old spans.now
        ++ drop result.count out.old }
{
    convert_all(
        FromLocalTexts {
            texts,
            offset_seconds,
        },
        spans,
        out,
    )
}

/// The date-time in each text of RFC 3339, with or without an offset, and the
/// status of muxandu_date_time_from_local for it at `offset_seconds`. The status is SPAN for a span
/// outside the block `texts`. If an item fails, its place in `out` keeps its contents, and the call
/// continues with the next. `count` is the number of converted items. Errors: BUFFER if `out` or
/// `statuses` has fewer items than `spans`; the call then writes nothing.
#[unsafe(no_mangle)]
pub extern "C" fn muxandu_date_times_from_each_local(
    texts: &[u8],
    spans: &[MuxanduSpan],
    offset_seconds: i32,
    out: &mut [MuxanduDateTime],
    statuses: &mut [MuxanduStatus],
) -> MuxanduBatch
    ensures count { result.count ≡ count_of_values (local_at texts.now offset_seconds)
        (with_both_rooms out.old statuses.old spans.now) }
    ensures status { result.status ≡ room_status out.old statuses.old spans.now }
    ensures written { out.new ≡ written_each (local_at texts.now offset_seconds)
        (with_both_rooms out.old statuses.old spans.now) out.old }
    ensures statuses { let gone = with_both_rooms out.old statuses.old spans.now in
        statuses.new ≡ status_of_each (local_at texts.now offset_seconds) gone
        ++ drop (length gone) statuses.old }
{
    convert_each(
        FromLocalTexts {
            texts,
            offset_seconds,
        },
        spans,
        out,
        statuses,
    )
}

/// The date-time in each text of RFC 3339, with or without an offset, up to the first that
/// muxandu_date_time_from_local rejects at the offset at its place in `offsets`. A span outside the
/// block `texts` fails with SPAN. Errors: BUFFER if `out` or `offsets` has fewer items than `spans`
/// (the call then writes nothing), else that of the first rejected item.
#[unsafe(no_mangle)]
pub extern "C" fn muxandu_date_times_from_local_at(
    texts: &[u8],
    spans: &[MuxanduSpan],
    offsets: &[i32],
    out: &mut [MuxanduDateTime],
) -> MuxanduBatch
    ensures count { result.count ≡
        length (pair_values (local_pair texts.now) out.old spans.now offsets.now) }
    ensures status { result.status ≡
        pair_status (local_pair texts.now) out.old spans.now offsets.now }
    ensures written { out.new ≡
        pair_values (local_pair texts.now) out.old spans.now offsets.now
        ++ drop result.count out.old }
{
    pair_all(FromLocalTextsAtOffsets { texts }, spans, offsets, out)
}

/// The date-time in each text of RFC 3339, with or without an offset, and the status of
/// muxandu_date_time_from_local for it at the offset at its place in `offsets`. The status is SPAN
/// for a span outside the block `texts`. If an item fails, its place in `out` keeps its contents,
/// and the call continues with the next. `count` is the number of converted items. Errors: BUFFER
/// if `out`, `offsets` or `statuses` has fewer items than `spans`; the call then writes nothing.
#[unsafe(no_mangle)]
pub extern "C" fn muxandu_date_times_from_each_local_at(
    texts: &[u8],
    spans: &[MuxanduSpan],
    offsets: &[i32],
    out: &mut [MuxanduDateTime],
    statuses: &mut [MuxanduStatus],
) -> MuxanduBatch
    ensures count { result.count ≡ count_of_values (of_pair (local_pair texts.now))
        (pairs_with_rooms out.old statuses.old spans.now offsets.now) }
    ensures status { result.status ≡
        pair_room_status out.old statuses.old spans.now offsets.now }
    ensures written { out.new ≡ written_each (of_pair (local_pair texts.now))
        (pairs_with_rooms out.old statuses.old spans.now offsets.now) out.old }
    ensures statuses { let gone = pairs_with_rooms out.old statuses.old spans.now offsets.now in
        statuses.new ≡ status_of_each (of_pair (local_pair texts.now)) gone
        ++ drop (length gone) statuses.old }
{
    pair_each(
        FromLocalTextsAtOffsets { texts },
        spans,
        offsets,
        out,
        statuses,
    )
}

#[derive(Clone, Copy)]
struct FromLocalMomentTexts<'a> {
    texts: &'a [u8],
    offset_seconds: i32,
}

impl Conversion<MuxanduSpan, MuxanduMoment> for FromLocalMomentTexts<'_> {
    ghost value_of = { λ conversion span.
        local_moment_at conversion.texts.now conversion.offset_seconds span };

    fn convert(self, item: MuxanduSpan) -> Result<MuxanduMoment, Refused> {
        local_moment_at(self.texts, self.offset_seconds, item)
    }
}

#[derive(Clone, Copy)]
struct FromLocalMomentTextsAtOffsets<'a> {
    texts: &'a [u8],
}

impl Pairing<MuxanduSpan, i32, MuxanduMoment> for FromLocalMomentTextsAtOffsets<'_> {
    ghost value_of = { λ pairing first second. local_moment_pair pairing.texts.now first second };

    fn pair(self, first: MuxanduSpan, second: i32) -> Result<MuxanduMoment, Refused> {
        local_moment_at(self.texts, second, first)
    }
}

/// The moment in each text of RFC 3339, with or without an offset, up to the first
/// that muxandu_date_time_from_local rejects at `offset_seconds`. A span outside the block `texts`
/// fails with SPAN. Errors: BUFFER if `out` has fewer items than `spans` (the call then writes
/// nothing), else that of the first rejected item.
#[unsafe(no_mangle)]
pub extern "C" fn muxandu_moments_from_local(
    texts: &[u8],
    spans: &[MuxanduSpan],
    offset_seconds: i32,
    out: &mut [MuxanduMoment],
) -> MuxanduBatch
    ensures count { result.count ≡
        length (batch_values (local_moment_at texts.now offset_seconds) out.old spans.now) }
    ensures status { result.status ≡
        batch_status (local_moment_at texts.now offset_seconds) out.old spans.now }
    ensures written { out.new ≡
        batch_values (local_moment_at texts.now offset_seconds) out.old spans.now
        ++ drop result.count out.old }
{
    convert_all(
        FromLocalMomentTexts {
            texts,
            offset_seconds,
        },
        spans,
        out,
    )
}

/// The moment in each text of RFC 3339, with or without an offset, and the
/// status of muxandu_date_time_from_local for it at `offset_seconds`. The status is SPAN for a span
/// outside the block `texts`. If an item fails, its place in `out` keeps its contents, and the call
/// continues with the next. `count` is the number of converted items. Errors: BUFFER if `out` or
/// `statuses` has fewer items than `spans`; the call then writes nothing.
#[unsafe(no_mangle)]
pub extern "C" fn muxandu_moments_from_each_local(
    texts: &[u8],
    spans: &[MuxanduSpan],
    offset_seconds: i32,
    out: &mut [MuxanduMoment],
    statuses: &mut [MuxanduStatus],
) -> MuxanduBatch
    ensures count { result.count ≡ count_of_values (local_moment_at texts.now offset_seconds)
        (with_both_rooms out.old statuses.old spans.now) }
    ensures status { result.status ≡ room_status out.old statuses.old spans.now }
    ensures written { out.new ≡ written_each (local_moment_at texts.now offset_seconds)
        (with_both_rooms out.old statuses.old spans.now) out.old }
    ensures statuses { let gone = with_both_rooms out.old statuses.old spans.now in
        statuses.new ≡ status_of_each (local_moment_at texts.now offset_seconds) gone
        ++ drop (length gone) statuses.old }
{
    convert_each(
        FromLocalMomentTexts {
            texts,
            offset_seconds,
        },
        spans,
        out,
        statuses,
    )
}

/// The moment in each text of RFC 3339, with or without an offset, up to the first that
/// muxandu_date_time_from_local rejects at the offset at its place in `offsets`. A span outside the
/// block `texts` fails with SPAN. Errors: BUFFER if `out` or `offsets` has fewer items than `spans`
/// (the call then writes nothing), else that of the first rejected item.
#[unsafe(no_mangle)]
pub extern "C" fn muxandu_moments_from_local_at(
    texts: &[u8],
    spans: &[MuxanduSpan],
    offsets: &[i32],
    out: &mut [MuxanduMoment],
) -> MuxanduBatch
    ensures count { result.count ≡
        length (pair_values (local_moment_pair texts.now) out.old spans.now offsets.now) }
    ensures status { result.status ≡
        pair_status (local_moment_pair texts.now) out.old spans.now offsets.now }
    ensures written { out.new ≡
        pair_values (local_moment_pair texts.now) out.old spans.now offsets.now
        ++ drop result.count out.old }
{
    pair_all(FromLocalMomentTextsAtOffsets { texts }, spans, offsets, out)
}

/// The moment in each text of RFC 3339, with or without an offset, and the status of
/// muxandu_date_time_from_local for it at the offset at its place in `offsets`. The status is SPAN
/// for a span outside the block `texts`. If an item fails, its place in `out` keeps its contents,
/// and the call continues with the next. `count` is the number of converted items. Errors: BUFFER
/// if `out`, `offsets` or `statuses` has fewer items than `spans`; the call then writes nothing.
#[unsafe(no_mangle)]
pub extern "C" fn muxandu_moments_from_each_local_at(
    texts: &[u8],
    spans: &[MuxanduSpan],
    offsets: &[i32],
    out: &mut [MuxanduMoment],
    statuses: &mut [MuxanduStatus],
) -> MuxanduBatch
    ensures count { result.count ≡ count_of_values (of_pair (local_moment_pair texts.now))
        (pairs_with_rooms out.old statuses.old spans.now offsets.now) }
    ensures status { result.status ≡
        pair_room_status out.old statuses.old spans.now offsets.now }
    ensures written { out.new ≡ written_each (of_pair (local_moment_pair texts.now))
        (pairs_with_rooms out.old statuses.old spans.now offsets.now) out.old }
    ensures statuses { let gone = pairs_with_rooms out.old statuses.old spans.now offsets.now in
        statuses.new ≡ status_of_each (of_pair (local_moment_pair texts.now)) gone
        ++ drop (length gone) statuses.old }
{
    pair_each(
        FromLocalMomentTextsAtOffsets { texts },
        spans,
        offsets,
        out,
        statuses,
    )
}
