//! Reports of lines without a stamp.
ghost use Rattle.std.specs.Prelude.{◌≡◌};
ghost use Rattle.stamps.specs.Tallies.{count_text, first_of_more, first_text, long_first_text, long_text, many_text, more_text, one_more_text, only_text};
ghost use Rattle.stamps.specs.Tallies.{tally_status};

use calendar_values::Text;
use line_devices::stamp_tallies::StampTally;

/// Reports how many lines of an input have no stamp, if there are such lines, unless it is to be
/// quiet. Returns the exit status: 1 where no line has a stamp, or more than half of the lines with
/// text have none.
pub fn tell_tally(rt: &HostRuntime, name: &str, tally: &StampTally, is_quiet: bool) -> u8
    ensures { result ≡ tally_status tally.now }
{
    if tally.is_due() && !is_quiet {
        let (count, first, more) = (count_text(tally), first_text(tally), more_text(tally));
        let (count, first, more) = (count.as_str(), first.as_str(), more.as_str());
        if name.is_empty() {
            let _ = eprintln!(rt; "stamps: {count}{first}{more}");
        } else {
            let _ = eprintln!(rt; "stamps: {name}: {count}{first}{more}");
        }
    }
    tell_long(rt, name, tally, is_quiet);
    u8::from(tally.is_poor())
}

/// Reports the lines that have no stamp in their first 65,500 bytes and more bytes than these, if
/// there are such lines, unless it is to be quiet. Such a line may have a stamp past these bytes.
pub fn tell_long(rt: &HostRuntime, name: &str, tally: &StampTally, is_quiet: bool) {
    let Some(line) = tally.first_long else {
        return;
    };
    if is_quiet {
        return;
    }
    let (text, first) = (
        long_text(tally.long, line),
        long_first_text(tally.long, line),
    );
    let (text, first) = (text.as_str(), first.as_str());
    let colon = if name.is_empty() { "" } else { ": " };
    let _ = eprintln!(rt;
        "stamps: {name}{colon}{text} first 65,500 bytes{first}: put it there, as jq -c '{{time}} + .' does"
    );
}

// A long line without a stamp, or the number of several.
fn long_text(count: u64, line: u64) -> Text
    ensures { result ≡ long_text count line }
{
    let mut text = Text::new();
    if count == 1 {
        text.push_bytes(b"line ");
        text.push_decimal(line);
        text.push_bytes(b" has no stamp in its");
    } else {
        text.push_decimal(count);
        text.push_bytes(b" lines have no stamp");
        text.push_bytes(b" in their");
    }
    text
}

// The first of several long lines without a stamp.
fn long_first_text(count: u64, line: u64) -> Text
    ensures { result ≡ long_first_text count line }
{
    let mut text = Text::new();
    if count != 1 {
        text.push_bytes(b", the first is line ");
        text.push_decimal(line);
    }
    text
}

// How many lines have no stamp, of how many.
fn count_text(tally: &StampTally) -> Text
    ensures { result ≡ count_text tally.now }
{
    let mut text = Text::new();
    if tally.missing == 0 {
        text.push_bytes(b"no line has a stamp");
    } else {
        text.push_decimal(tally.missing);
        text.push_bytes(b" of ");
        text.push_decimal(tally.texts);
    }
    text
}

// The first of them.
fn first_text(tally: &StampTally) -> Text
    ensures { result ≡ first_text tally.now.missing tally.now.first }
{
    match tally.first {
        Some(line) if tally.missing == 1 => only_text(line),
        Some(line) => first_of_more(line),
        None => Text::new(),
    }
}

// The only line without a stamp.
fn only_text(line: u64) -> Text
    ensures { result ≡ only_text line }
{
    let mut text = Text::new();
    text.push_bytes(b" lines has no stamp");
    text.push_bytes(b": line ");
    text.push_decimal(line);
    text
}

// The first of several lines without a stamp.
fn first_of_more(line: u64) -> Text
    ensures { result ≡ first_of_more line }
{
    let mut text = Text::new();
    text.push_bytes(b" lines have no stamp");
    text.push_bytes(b", the first is line ");
    text.push_decimal(line);
    text
}

// The lines that continue others.
fn more_text(tally: &StampTally) -> Text
    ensures { result ≡ more_text tally.now.continued }
{
    if tally.continued == 0 {
        return Text::new();
    }
    if tally.continued == 1 {
        return one_more_text();
    }
    many_text(tally.continued)
}

// One line that continues another.
fn one_more_text() -> Text
    ensures { result ≡ one_more_text }
{
    let mut text = Text::new();
    text.push_bytes(b", and 1 line");
    text.push_bytes(b" continues another");
    text
}

// Several lines that continue others.
fn many_text(continued: u64) -> Text
    ensures { result ≡ many_text continued }
{
    let mut text = Text::new();
    text.push_bytes(b", and ");
    text.push_decimal(continued);
    text.push_bytes(b" lines");
    text.push_bytes(b" continue others");
    text
}
