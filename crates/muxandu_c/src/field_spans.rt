//! Fields of lines.
ghost use Rattle.std.specs.Prelude.{◌≡◌, ◌≤◌, ◌<◌, ◌+◌, ◌-◌, ◌++◌, length, take, drop, min, true, false};
ghost use Rattle.muxandu_c.specs.FieldSpans.{next_place, ends_field, ahead_of, ended_at, lines_from};
ghost use Rattle.muxandu_c.specs.FieldSpans.{trimmed_end, place_after, is_quoted, span_within, span_of_field, span_of_number};
ghost use Rattle.muxandu_c.specs.FieldSpans.{field_spans, spans_status, is_line_end};

use crate::batches::stop_at;
use crate::refused::Refused;
use crate::values::{MuxanduBatch, MuxanduSpan};

// The places in a field: at its start, without quotes, between quotes, after one of them.
const START: u8 = 0;

const BARE: u8 = 1;

const QUOTED: u8 = 2;

const AFTER_QUOTE: u8 = 3;

/// The place of a field in each line of the block `texts`, and the number of lines in `count`.
/// Fields count from 0. A field ends before `separator` or before the end of its line. A field that
/// begins with `quote` contains separators and newlines up to the quote that closes it, the next
/// single one. Two quotes in a row within it are part of the field, and stay two. If the closing
/// quote is its last byte, its span has the bytes between the two quotes. If other bytes follow, or
/// no quote closes it, its span has all bytes of the field. Each line ends with a newline, or with
/// a carriage return and a newline, and the last line may end with the block. A line with fewer
/// fields has an empty span, at its newline or at the end of the block. If `quote` equals
/// `separator`, no field has quotes. Errors: BUFFER if `out` has fewer items than there are lines;
/// the call then writes those of the first lines.
#[unsafe(no_mangle)]
pub extern "C" fn muxandu_field_spans(
    texts: &[u8],
    field: usize,
    separator: u8,
    quote: u8,
    out: &mut [MuxanduSpan],
) -> MuxanduBatch
    ensures count { result.count ≡
        min (length out.old) (length (field_spans field separator quote texts.now)) }
    ensures status { result.status ≡
        spans_status out.old (field_spans field separator quote texts.now) }
    ensures written { out.new ≡ take result.count (field_spans field separator quote texts.now)
        ++ drop result.count out.old }
{
    let mut line = 0;
    let mut count = 0;
    'lines: while line < texts.len() {
        if count == out.len() {
            return stop_at(count, Refused::Buffer);
        }
        let (span, next) = span_in_line(texts, line, field, separator, quote);
        out[count] = span;
        count += 1;
        line = next;
    }
    MuxanduBatch { count, status: 0 }
}

// The span of a field of the line that begins at this index, and the index of the next line.
fn span_in_line(
    texts: &[u8],
    line: usize,
    field: usize,
    separator: u8,
    quote: u8,
) -> (MuxanduSpan, usize)
    requires { line < length texts.now }
    ensures span { let ahead = ahead_of separator quote 0 line (drop line texts.now) in
        result.0 ≡ span_of_number quote texts.now field line ahead.end ahead.fields }
    ensures next { lines_from separator quote result.1 (drop result.1 texts.now)
        ≡ (ahead_of separator quote 0 line (drop line texts.now)).lines }
    ensures later { line < result.1 }
    ensures at_most { result.1 ≤ length texts.now }
{
    let (span, end) = span_of_number(texts, line, field, separator, quote);
    (span, next_line(texts, end, separator, quote))
}

// The span of a field, by its number from the field at this index on, and the end of the last field that was
// read.
fn span_of_number(
    texts: &[u8],
    first: usize,
    number: usize,
    separator: u8,
    quote: u8,
) -> (MuxanduSpan, usize)
    requires { first ≤ length texts.now }
    ensures span { let ahead = ahead_of separator quote 0 first (drop first texts.now) in
        result.0 ≡ span_of_number quote texts.now number first ahead.end ahead.fields }
    ensures lines { (ended_at separator quote result.1 (drop result.1 texts.now)).lines
        ≡ (ahead_of separator quote 0 first (drop first texts.now)).lines }
    ensures later { first ≤ result.1 }
    ensures at_most { result.1 ≤ length texts.now }
{
    let mut start = first;
    let mut end = field_end(texts, first, separator, quote);
    let mut left = number;
    'fields: while left > 0 {
        if is_line_end(texts, end) {
            return (
                MuxanduSpan {
                    start: end,
                    length: 0,
                },
                end,
            );
        }
        start = end + 1;
        end = field_end(texts, start, separator, quote);
        left -= 1;
    }
    (span_of_field(texts, start, end, quote), end)
}

// The index of the line after the one in which a field ends at this index.
fn next_line(texts: &[u8], end: usize, separator: u8, quote: u8) -> usize
    requires { end ≤ length texts.now }
    ensures next { lines_from separator quote result (drop result texts.now)
        ≡ (ended_at separator quote end (drop end texts.now)).lines }
    ensures later { end ≤ result }
    ensures past { end < length texts.now → end < result }
    ensures at_most { result ≤ length texts.now }
{
    let mut last = end;
    'fields: while last < texts.len() {
        if is_line_end(texts, last) {
            return last + 1;
        }
        last = field_end(texts, last + 1, separator, quote);
    }
    last
}

// Whether a line ends at this index: with the block, or with a newline.
#[inline(always)]
fn is_line_end(texts: &[u8], end: usize) -> bool
    requires { end ≤ length texts.now }
    ensures value { result ≡ is_line_end (drop end texts.now) }
    ensures more { result ≡ false → end < length texts.now }
{
    end == texts.len() || texts[end] == b'\n'
}

// The index of the byte that ends the field at this index, or of the end of the block.
fn field_end(texts: &[u8], start: usize, separator: u8, quote: u8) -> usize
    requires { start ≤ length texts.now }
    ensures ahead { ended_at separator quote result (drop result texts.now)
        ≡ ahead_of separator quote 0 start (drop start texts.now) }
    ensures later { start ≤ result }
    ensures at_most { result ≤ length texts.now }
{
    let mut place = START;
    for k in start..texts.len() {
        if ends_field(separator, place, texts[k]) {
            return k;
        }
        place = next_place(quote, place, texts[k]);
    }
    texts.len()
}

// Whether a byte ends a field.
#[inline(always)]
fn ends_field(separator: u8, place: u8, byte: u8) -> bool
    ensures { result ≡ ends_field separator place byte }
{
    (place != QUOTED) & ((byte == separator) | (byte == b'\n'))
}

// The place after a byte of a field.
#[inline(always)]
fn next_place(quote: u8, place: u8, byte: u8) -> u8
    ensures { result ≡ next_place quote place byte }
{
    match place {
        START => if byte == quote { QUOTED } else { BARE },
        QUOTED => if byte == quote { AFTER_QUOTE } else { QUOTED },
        AFTER_QUOTE => if byte == quote { QUOTED } else { BARE },
        _ => BARE,
    }
}

// The span of a field without the end of its line and its quotes.
fn span_of_field(texts: &[u8], start: usize, end: usize, quote: u8) -> MuxanduSpan
    requires first { start ≤ end }
    requires last { end ≤ length texts.now }
    ensures { result ≡ span_of_field quote texts.now start end }
{
    span_within(texts, start, trimmed_end(texts, start, end), quote)
}

// The end of a field without a carriage return before a newline.
fn trimmed_end(texts: &[u8], start: usize, end: usize) -> usize
    requires first { start ≤ end }
    requires last { end ≤ length texts.now }
    ensures value { result ≡ trimmed_end texts.now start end }
    ensures later { start ≤ result }
    ensures at_most { result ≤ end }
{
    if end < texts.len() && texts[end] == b'\n' && start < end && texts[end - 1] == b'\r' {
        end - 1
    } else {
        end
    }
}

// The span between the quotes of a field, or of the whole field.
fn span_within(texts: &[u8], start: usize, end: usize, quote: u8) -> MuxanduSpan
    requires first { start ≤ end }
    requires last { end ≤ length texts.now }
    ensures { result ≡ span_within quote texts.now start end }
{
    if is_quoted(texts, start, end, quote) {
        MuxanduSpan {
            start: start + 1,
            length: end - start - 2,
        }
    } else {
        MuxanduSpan {
            start,
            length: end - start,
        }
    }
}

// Whether a field begins with a quote, and its last byte is the quote that closes it.
fn is_quoted(texts: &[u8], start: usize, end: usize, quote: u8) -> bool
    requires first { start ≤ end }
    requires last { end ≤ length texts.now }
    ensures value { result ≡ is_quoted quote texts.now start end }
    ensures two { result ≡ true → start + 1 < end }
{
    if end - start < 2 || texts[start] != quote {
        return false;
    }
    place_after(texts, start, end, quote) == AFTER_QUOTE
}

// The place after the bytes of a field.
fn place_after(texts: &[u8], start: usize, end: usize, quote: u8) -> u8
    requires first { start ≤ end }
    requires last { end ≤ length texts.now }
    ensures { result ≡ place_after quote 0 (take (end - start) (drop start texts.now)) }
{
    let mut place = START;
    for k in start..end {
        place = next_place(quote, place, texts[k]);
    }
    place
}
