//! Instants written.
ghost use Rattle.std.specs.Prelude.{◌≡◌, ◌≤◌, length, IfSome};
ghost use Rattle.stamps.specs.StampTexts.{in_quotes, is_date, stamp_text, value_text};
ghost use Rattle.stamps.specs.Styles.{text_in};
ghost use Rattle.stamps.specs.declared.task.Style.TheVariants.{Utc, At};

use crate::readers::LineStamp;
use crate::task::Style;
use calendar_values::{Text, UtcOffset};
use offset_times::ToOffset;
use rfc3339::{to_rfc3339_nanos, to_rfc3339_nanos_at, to_unix_nanos};
use utc_times::UtcDateTime;

/// The text of an instant in a style. None if the year that clocks there show is not one of 0 to
/// 9999.
#[tactic(auto, unfolding(crate::specs::Styles::text_in))]
#[inline(always)]
pub fn text_in(style: &Style, at: UtcDateTime) -> Option<Text>
    ensures text { result ≡ text_in style.now at }
    ensures length { IfSome result (λ text. length text ≤ 35) }
{
    match *style {
        Style::Utc => text_in_utc(at),
        Style::At(offset) => text_at(at, offset),
        Style::Unix => Some(to_unix_nanos(at)),
    }
}

/// The text of a stamp in a style. A date in place of a value of JSON is in quotes.
pub fn stamp_text(style: &Style, stamp: &LineStamp) -> Option<Text>
    ensures { result ≡ stamp_text style.now stamp.now }
{
    value_text(
        stamp.is_value && is_date(style),
        text_in(style, stamp.instant),
    )
}

// A text, if there is one, in quotes or as it is.
fn value_text(is_quoted: bool, text: Option<Text>) -> Option<Text>
    requires { IfSome text (λ text. length text ≤ 35) }
    ensures { result ≡ value_text is_quoted text }
{
    match (is_quoted, text) {
        (true, Some(text)) => Some(in_quotes(&text)),
        (_, text) => text,
    }
}

// Whether a style is one of dates.
fn is_date(style: &Style) -> bool
    ensures { result ≡ is_date style.now }
{
    match style {
        Style::Utc => true,
        Style::At(_) => true,
        Style::Unix => false,
    }
}

// A text in quotes.
fn in_quotes(text: &Text) -> Text
    requires { length text.now ≤ 35 }
    ensures { result ≡ in_quotes text.now }
{
    let mut quoted = Text::new();
    quoted.push(b'"');
    quoted.push_bytes(text.as_bytes());
    quoted.push(b'"');
    quoted
}

// In UTC.
fn text_in_utc(at: UtcDateTime) -> Option<Text>
    ensures text { result ≡ text_in Utc at }
    ensures length { IfSome result (λ text. length text ≤ 35) }
{
    to_rfc3339_nanos(at)
}

// At an offset.
fn text_at(at: UtcDateTime, offset: UtcOffset) -> Option<Text>
    ensures text { result ≡ text_in (At offset) at }
    ensures length { IfSome result (λ text. length text ≤ 35) }
{
    match at.checked_to_offset(offset) {
        Some(shown) => to_rfc3339_nanos_at(shown),
        None => None,
    }
}
