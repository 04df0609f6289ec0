//! Why a line ends the run.
ghost use Rattle.std.specs.Prelude.{◌≡◌, ◌≤◌, ◌+◌, ◌++◌, IsAscii, [], length};
ghost use Rattle.stamps.specs.declared.finding.Finding.TheVariants.{Line};
ghost use Rattle.stamps.specs.Findings.{cause_name, cause_end, cause_text, field_end, field_of, finding_text};

use calendar_values::Text;
use format_descriptions::{Field, ValueRefusal};
use log_forms::field_name;
use rfc3339::Component;

/// The reason why a line is at fault.
#[derive(Clone, Copy, Debug, PartialEq, Eq)]
pub enum Cause {
    /// It does not begin with a stamp.
    Missing,
    /// The stamp has a part that is out of its range.
    Refused(Component),
    /// The stamp lacks a part, or has one that is out of its range.
    Unread(ValueRefusal),
    /// It has no stamp that is in range.
    NoInstant,
    /// The instant of the stamp has no text in the style that is asked for.
    NoText,
    /// A zone in brackets follows the stamp, and would disagree with another offset.
    Zone,
    /// The instant is earlier than the one before.
    Earlier,
}

/// The finding that ends the run.
#[derive(Clone, Copy, Debug, PartialEq, Eq)]
pub enum Finding {
    /// A line: its number, counted from 1 on and at most 2^64 - 1, and its fault.
    Line(u64, Cause),
    /// The input is not empty, and no line of it has a stamp.
    NoStamp,
}

impl Finding {
    /// The text, as `line 3: second is out of range`.
    pub fn text(&self) -> Text
        ensures text { result ≡ finding_text self.now }
        ensures length { length result ≤ 63 }
    {
        let mut text = Text::new();
        match *self {
            Finding::Line(line, cause) => push_line(&mut text, line, cause),
            Finding::NoStamp => text.push_bytes(b"no line has a stamp"),
        }
        text
    }
}

// Adds a line and what is the matter with it.
fn push_line(text: &mut Text, line: u64, cause: Cause)
    requires { text.old ≡ [] }
    ensures value { text.new ≡ finding_text (Line line cause) }
    ensures length { length text.new ≤ 63 }
{
    text.push_bytes(b"line ");
    text.push_decimal(line);
    text.push_bytes(b": ");
    push_cause(text, cause);
}

// Adds what is the matter.
fn push_cause(text: &mut Text, cause: Cause)
    requires { length text.old ≤ 27 }
    ensures value { text.new ≡ text.old ++ cause_text cause }
    ensures length { length text.new ≤ length text.old + 36 }
{
    text.push_bytes(cause_name(cause).as_bytes());
    text.push_bytes(cause_end(cause).as_bytes());
}

// What a cause is called: the first part.
fn cause_name(cause: Cause) -> &'static str
    ensures value { result.now ≡ cause_name cause }
    ensures ascii { IsAscii result.now }
    ensures length { length result.now + length (cause_end cause) ≤ 36 }
{
    match cause {
        Cause::Missing => "no stamp",
        Cause::NoInstant => "no valid stamp",
        Cause::Refused(component) => component.name(),
        Cause::Unread(refusal) => field_name(field_of(refusal)),
        Cause::NoText => "its instant has no text",
        Cause::Zone => "a zone in brackets",
        Cause::Earlier => "earlier",
    }
}

// What a cause is called: the second part.
fn cause_end(cause: Cause) -> &'static str
    ensures value { result.now ≡ cause_end cause }
    ensures ascii { IsAscii result.now }
    ensures length { length result.now ≤ 20 }
{
    match cause {
        Cause::Refused(_) => " is out of range",
        Cause::Unread(refusal) => field_end(refusal),
        Cause::Earlier => " than the one before",
        Cause::Missing => "",
        Cause::NoInstant => "",
        Cause::NoText => "",
        Cause::Zone => " follows the stamp",
    }
}

// The part that a refusal names.
fn field_of(refusal: ValueRefusal) -> Field
    ensures { result ≡ field_of refusal }
{
    match refusal {
        ValueRefusal::Missing(field) | ValueRefusal::Wrong(field) => field,
    }
}

// What is the matter with the part that a refusal names.
fn field_end(refusal: ValueRefusal) -> &'static str
    ensures value { result.now ≡ field_end refusal }
    ensures ascii { IsAscii result.now }
    ensures length { length result.now ≤ 16 }
{
    match refusal {
        ValueRefusal::Missing(_) => " is missing",
        ValueRefusal::Wrong(_) => " is out of range",
    }
}
