//! Many texts written into one block, in one call that continues after errors.
ghost use Rattle.std.specs.Prelude.{◌≡◌, ◌≤◌, ◌++◌, length, drop};
ghost use Rattle.std.specs.List.{concat};
ghost use Rattle.muxandu_c.specs.EachBatches.{status_of_each, count_of_values, room_status};
ghost use Rattle.muxandu_c.specs.EachTexts.{answers_in, answers_in_block, texts_or_none, as_it_is};
ghost use Rattle.muxandu_c.specs.Exchange.{date_time_to_rfc3339};
ghost use Rattle.muxandu_c.specs.TextBlocks.{spans_of};

use crate::batches::stop_at;
use crate::each_batches::{count_of, value_or};
use crate::refused::{MuxanduStatus, Refused, status_of};
use crate::text_blocks::write_text_at;
use crate::values::{MuxanduBatch, MuxanduDateTime, MuxanduSpan};

/// Writes the text of each date-time into the block `texts`, one after the other with nothing
/// between, its place to `spans`, and the status of muxandu_date_time_to_rfc3339 for it. The status
/// is BUFFER if the rest of `texts` is too short. If an item fails, its span is empty, and the call
/// continues with the next. `count` is the number of written texts. Errors: BUFFER if `spans` or
/// `statuses` has fewer items than `date_times`; the call then writes nothing.
#[unsafe(no_mangle)]
pub extern "C" fn muxandu_each_date_time_to_rfc3339(
    date_times: &[MuxanduDateTime],
    texts: &mut [u8],
    spans: &mut [MuxanduSpan],
    statuses: &mut [MuxanduStatus],
) -> MuxanduBatch
    ensures count { result.count ≡ count_of_values as_it_is
        (answers_in_block texts.old spans.old statuses.old date_times.now) }
    ensures status { result.status ≡ room_status spans.old statuses.old date_times.now }
    ensures written { let all = concat (texts_or_none
        (answers_in_block texts.old spans.old statuses.old date_times.now)) in
        texts.new ≡ all ++ drop (length all) texts.old }
    ensures spans { let all = texts_or_none
        (answers_in_block texts.old spans.old statuses.old date_times.now) in
        spans.new ≡ spans_of 0 all ++ drop (length all) spans.old }
    ensures statuses { let all = status_of_each as_it_is
        (answers_in_block texts.old spans.old statuses.old date_times.now) in
        statuses.new ≡ all ++ drop (length all) statuses.old }
{
    if spans.len() < date_times.len() || statuses.len() < date_times.len() {
        return stop_at(0, Refused::Buffer);
    }
    MuxanduBatch {
        count: fill_each_text(date_times, texts, spans, statuses),
        status: 0,
    }
}

fn fill_each_text(
    date_times: &[MuxanduDateTime],
    texts: &mut [u8],
    spans: &mut [MuxanduSpan],
    statuses: &mut [u32],
) -> usize
    requires room { length date_times.now ≤ length spans.old }
    requires statuses_room { length date_times.now ≤ length statuses.old }
    ensures count { result ≡ count_of_values as_it_is
        (answers_in date_time_to_rfc3339 texts.old date_times.now) }
    ensures written { let all = concat (texts_or_none
        (answers_in date_time_to_rfc3339 texts.old date_times.now)) in
        texts.new ≡ all ++ drop (length all) texts.old }
    ensures spans { let all = texts_or_none
        (answers_in date_time_to_rfc3339 texts.old date_times.now) in
        spans.new ≡ spans_of 0 all ++ drop (length all) spans.old }
    ensures statuses { let all = status_of_each as_it_is
        (answers_in date_time_to_rfc3339 texts.old date_times.now) in
        statuses.new ≡ all ++ drop (length all) statuses.old }
{
    let mut start = 0;
    let mut count = 0;
    for (k, date_time) in date_times.iter().enumerate() {
        let answer = write_text_at(*date_time, texts, start);
        let length = value_or(answer, 0);
        spans[k] = MuxanduSpan { start, length };
        statuses[k] = status_of(answer);
        start += length;
        count += count_of(answer);
    }
    count
}
