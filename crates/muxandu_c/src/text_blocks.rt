//! Many texts written into one block.
ghost use Rattle.std.specs.Prelude.{◌≡◌, ◌≤◌, ◌++◌, length, take, drop};
ghost use Rattle.std.specs.List.{concat};
ghost use Rattle.muxandu_c.specs.Answers.{written_over, text_if_room, length_of_answer};
ghost use Rattle.muxandu_c.specs.Exchange.{date_time_to_rfc3339};
ghost use Rattle.muxandu_c.specs.TextBlocks.{texts_of, status_of_texts, spans_of, texts_in_block, block_status};

use crate::batches::stop_at;
use crate::exchange::date_time_to_rfc3339;
use crate::refused::Refused;
use crate::values::{MuxanduBatch, MuxanduDateTime, MuxanduSpan};
use crate::written_texts::write_date_time;
use rfc3339::TEXT_ROOM;

/// Writes the text of each date-time into the block `texts`, one after the other with nothing
/// between, and its place to `spans`. It stops at the first that muxandu_date_time_to_rfc3339
/// rejects, with BUFFER if the rest of `texts` is too short. Errors: BUFFER if `spans` has fewer
/// items than `date_times` (the call then writes nothing), else that of the first rejected item.
#[unsafe(no_mangle)]
pub extern "C" fn muxandu_date_times_to_rfc3339(
    date_times: &[MuxanduDateTime],
    texts: &mut [u8],
    spans: &mut [MuxanduSpan],
) -> MuxanduBatch
    ensures count { result.count ≡ length (texts_in_block texts.old spans.old date_times.now) }
    ensures status { result.status ≡ block_status texts.old spans.old date_times.now }
    ensures written { let all = concat (texts_in_block texts.old spans.old date_times.now) in
        texts.new ≡ all ++ drop (length all) texts.old }
    ensures spans { spans.new ≡ spans_of 0 (texts_in_block texts.old spans.old date_times.now)
        ++ drop result.count spans.old }
{
    if spans.len() < date_times.len() {
        return stop_at(0, Refused::Buffer);
    }
    fill_texts(date_times, texts, spans)
}

fn fill_texts(
    date_times: &[MuxanduDateTime],
    texts: &mut [u8],
    spans: &mut [MuxanduSpan],
) -> MuxanduBatch
    requires room { length date_times.now ≤ length spans.old }
    ensures count { result.count ≡ length (texts_of date_time_to_rfc3339 texts.old date_times.now) }
    ensures status { result.status ≡
        status_of_texts date_time_to_rfc3339 texts.old date_times.now }
    ensures written { let all = concat (texts_of date_time_to_rfc3339 texts.old date_times.now) in
        texts.new ≡ all ++ drop (length all) texts.old }
    ensures spans { spans.new ≡ spans_of 0 (texts_of date_time_to_rfc3339 texts.old date_times.now)
        ++ drop result.count spans.old }
{
    let mut start = 0;
    for (k, date_time) in date_times.iter().enumerate() {
        match write_text_at(*date_time, texts, start) {
            Ok(length) => {
                spans[k] = MuxanduSpan { start, length };
                start += length;
            }
            Err(refused) => return stop_at(k, refused),
        }
    }
    MuxanduBatch {
        count: date_times.len(),
        status: 0,
    }
}

// Puts the text of a date-time after this number of bytes of a block, if there is room, and returns its length.
pub(crate) fn write_text_at(
    date_time: MuxanduDateTime,
    block: &mut [u8],
    start: usize,
) -> Result<usize, Refused>
    requires { start ≤ length block.old }
    ensures length { result ≡
        length_of_answer (text_if_room (date_time_to_rfc3339 date_time) (drop start block.old)) }
    ensures written { let left = drop start block.old in block.new ≡ take start block.old
        ++ written_over (text_if_room (date_time_to_rfc3339 date_time) left) left }
{
    write_text(date_time, &mut block[start..])
}

// Puts the text of a date-time at the front of the block, if it has room, and says how long it is.
fn write_text(date_time: MuxanduDateTime, block: &mut [u8]) -> Result<usize, Refused>
    ensures length { result ≡
        length_of_answer (text_if_room (date_time_to_rfc3339 date_time) block.old) }
    ensures written { block.new ≡
        written_over (text_if_room (date_time_to_rfc3339 date_time) block.old) block.old }
{
    if block.len() >= TEXT_ROOM {
        return write_date_time(date_time, block);
    }
    let text = date_time_to_rfc3339(date_time)?;
    let bytes = text.as_bytes();
    if block.len() < bytes.len() {
        return Err(Refused::Buffer);
    }
    block[..bytes.len()].copy_from_slice(bytes);
    Ok(bytes.len())
}
