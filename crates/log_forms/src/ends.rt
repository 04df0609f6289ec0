//! Where a stamp ends.
ghost use Rattle.std.specs.Prelude.{◌≡◌, ◌≤◌, false, length};
ghost use Rattle.log_forms.specs.Ends.{begins_alphanumeric, begins_column, begins_comma, begins_fraction, begins_letter, begins_mark};
ghost use Rattle.log_forms.specs.Ends.{begins_separator, begins_text, begins_year};
ghost use Rattle.log_forms.specs.Ends.{begins_zone, begins_zone_column, ends_behind_comma, is_apart, is_fraction, is_joint, is_separator, is_spelled};
ghost use Rattle.log_forms.specs.Ends.{leaves_fraction, leaves_out, leaves_year, names_zone, opens_bracket, past_bracket, past_separators, runs_on};
ghost use Rattle.log_forms.specs.Ends.{spells, spells_zone};

use crate::instants::{has_count, is_whole, lacks_year};
use crate::places::{is_blank, past_blanks};
use crate::stamps::digit_count;
use crate::zone_words::{YEARS, ZONES};
use format_descriptions::Parts;

// Whether a stamp of these parts and this text ends before the rest of its line.
#[tactic(auto, unfolding(crate::specs::Ends::is_apart))]
pub(crate) fn is_apart(parts: &Parts, stamp: &[u8], rest: &[u8]) -> bool
    ensures { result ≡ is_apart parts.now stamp.now rest.now }
{
    match rest.split_first() {
        Some(_) => !runs_on(has_count(parts), rest) && !leaves_out(parts, stamp, rest),
        None => true,
    }
}

/// Whether a word continues in the rest of a line: with a digit, a letter, `_`, `+` or `-`, or with
/// `.` or `:` before a letter or a digit. No `:` continues a count.
#[inline(always)]
pub fn runs_on(is_count: bool, rest: &[u8]) -> bool
    ensures { result ≡ runs_on is_count rest.now }
{
    match rest.split_first() {
        Some((first, more)) => {
            first.is_ascii_alphanumeric()
                || *first == b'_'
                || *first == b'+'
                || *first == b'-'
                || (is_joint(is_count, *first) && begins_alphanumeric(more))
        }
        None => false,
    }
}

// Whether a byte joins two parts of a word.
fn is_joint(is_count: bool, byte: u8) -> bool
    ensures { result ≡ is_joint is_count byte }
{
    byte == b'.' || (byte == b':' && !is_count)
}

/// Whether a bracket opens a text.
#[inline(always)]
pub fn opens_bracket(rest: &[u8]) -> bool
    ensures { result ≡ opens_bracket rest.now }
{
    match rest.split_first() {
        Some((first, _)) => *first == b'[',
        None => false,
    }
}

// Whether a stamp of these parts and this text leaves out a part that the rest begins with.
fn leaves_out(parts: &Parts, stamp: &[u8], rest: &[u8]) -> bool
    ensures { result ≡ leaves_out parts.now stamp.now rest.now }
{
    (!is_whole(parts)
        && (leaves_fraction(parts, stamp, rest) || begins_zone(rest) || begins_zone_column(rest)))
        || leaves_year(parts, rest)
}

// Whether a stamp leaves out a fraction, or has a column of a table for one.
fn leaves_fraction(parts: &Parts, stamp: &[u8], rest: &[u8]) -> bool
    ensures { result ≡ leaves_fraction parts.now stamp.now rest.now }
{
    if parts.nanosecond.is_some() {
        begins_comma(rest) && ends_behind_comma(stamp)
    } else {
        begins_fraction(rest)
    }
}

// Whether a stamp without a year leaves one out.
fn leaves_year(parts: &Parts, rest: &[u8]) -> bool
    ensures { result ≡ leaves_year parts.now rest.now }
{
    lacks_year(parts) && !has_count(parts) && begins_year(rest)
}

// Whether a text begins with a fraction behind a comma: 3, 6 or 9 digits, and no column of a table after them.
fn begins_fraction(text: &[u8]) -> bool
    ensures { result ≡ begins_fraction text.now }
{
    match text.split_first() {
        Some((first, more)) => *first == b',' && is_fraction(digit_count(more), more),
        None => false,
    }
}

// Whether this number of digits at the front of a text is a fraction.
fn is_fraction(count: usize, text: &[u8]) -> bool
    requires { count ≤ length text.now }
    ensures { result ≡ is_fraction count text.now }
{
    (count == 3 || count == 6 || count == 9) && !begins_column(&text[count..])
}

// Whether a text begins with a comma that no blank follows.
fn begins_column(text: &[u8]) -> bool
    ensures { result ≡ begins_column text.now }
{
    match text.split_first() {
        Some((first, more)) => *first == b',' && begins_text(more),
        None => false,
    }
}

// Whether a text begins with a byte that is no blank.
fn begins_text(text: &[u8]) -> bool
    ensures { result ≡ begins_text text.now }
{
    match text.split_first() {
        Some((first, _)) => !is_blank(*first),
        None => false,
    }
}

// Whether a text begins with a comma.
fn begins_comma(text: &[u8]) -> bool
    ensures { result ≡ begins_comma text.now }
{
    match text.split_first() {
        Some((first, _)) => *first == b',',
        None => false,
    }
}

// Whether the digits at the end of a text are behind a comma.
#[tactic(auto, unfolding(crate::specs::Ends::ends_behind_comma))]
fn ends_behind_comma(text: &[u8]) -> bool
    ensures { result ≡ ends_behind_comma false text.now }
{
    let mut rest = text;
    let mut is_behind = false;
    while let Some((first, more)) = rest.split_first() {
        is_behind = *first == b',' || (is_behind && first.is_ascii_digit());
        rest = more;
    }
    is_behind
}

// Whether a text begins with a year.
fn begins_year(text: &[u8]) -> bool
    ensures { result ≡ begins_year text.now }
{
    YEARS.iter().any(|row| spells(row, text))
}

// Whether a text begins with a time zone or a half of the day, behind blanks and a bracket.
#[tactic(auto, using(crate::proofs::ZoneWordLemmas::no_zone))]
fn begins_zone(text: &[u8]) -> bool
    ensures { result ≡ begins_zone text.now }
{
    let text = past_bracket(past_blanks(text));
    begins_mark(text) && spells_zone(text)
}

// Whether the next column of a table begins with the name of a time zone.
fn begins_zone_column(text: &[u8]) -> bool
    ensures { result ≡ begins_zone_column text.now }
{
    begins_separator(past_blanks(text)) && names_zone(past_separators(text))
}

// Whether a text begins with the name of a time zone, or with a half of the day.
fn names_zone(text: &[u8]) -> bool
    ensures { result ≡ names_zone text.now }
{
    begins_letter(text) && spells_zone(text)
}

// Whether a row spells a time zone or a half of the day at the front of a text.
pub(crate) fn spells_zone(text: &[u8]) -> bool
    ensures { result ≡ spells_zone text.now }
{
    ZONES.iter().any(|row| spells(row, text))
}

// Whether a text begins with a byte between two columns of a table.
fn begins_separator(text: &[u8]) -> bool
    ensures { result ≡ begins_separator text.now }
{
    match text.split_first() {
        Some((first, _)) => is_separator(*first),
        None => false,
    }
}

// What follows such bytes and blanks.
#[tactic(auto, unfolding(crate::specs::Ends::past_separators))]
fn past_separators(text: &[u8]) -> &[u8]
    ensures { result.now ≡ past_separators text.now }
{
    let mut rest = text;
    while let Some((first, more)) = rest.split_first() {
        if !(is_blank(*first) || is_separator(*first)) {
            return rest;
        }
        rest = more;
    }
    rest
}

// Whether a byte stands between two columns of a table: a comma, a semicolon, a bar or a quote.
fn is_separator(byte: u8) -> bool
    ensures { result ≡ is_separator byte }
{
    byte == b',' || byte == b';' || byte == b'|' || byte == b'"' || byte == b'\''
}

// The rest of a text after a bracket.
fn past_bracket(text: &[u8]) -> &[u8]
    ensures { result.now ≡ past_bracket text.now }
{
    match text.split_first() {
        Some((first, rest)) if *first == b'(' || *first == b'[' => rest,
        _ => text,
    }
}

// Whether the marks of a row spell the front of a text.
#[tactic(auto, unfolding(crate::specs::Ends::spells))]
fn spells(row: &[u8], text: &[u8]) -> bool
    ensures { result ≡ spells row.now text.now }
{
    let Some((mark, row)) = row.split_first() else {
        return true;
    };
    match *mark {
        b' ' => true,
        b'!' => !begins_letter(text),
        b'|' => !runs_on(false, text),
        _ => match text.split_first() {
            Some((first, text)) => is_spelled(*mark, *first) && spells(row, text),
            None => false,
        },
    }
}

// Whether a mark spells a byte.
fn is_spelled(mark: u8, byte: u8) -> bool
    ensures { result ≡ is_spelled mark byte }
{
    match mark {
        b'#' => byte.is_ascii_digit(),
        b'@' => byte.is_ascii_alphabetic(),
        b'+' => byte == b'+' || byte == b'-',
        b'_' => byte == b' ',
        b'a'..=b'z' => byte == mark || byte == mark - 32,
        _ => byte == mark,
    }
}

// Whether a text begins with a letter or a sign, as each zone does.
fn begins_mark(text: &[u8]) -> bool
    ensures { result ≡ begins_mark text.now }
{
    match text.split_first() {
        Some((first, _)) => first.is_ascii_alphabetic() || *first == b'+' || *first == b'-',
        None => false,
    }
}

// Whether a text begins with a letter.
pub(crate) fn begins_letter(text: &[u8]) -> bool
    ensures { result ≡ begins_letter text.now }
{
    match text.split_first() {
        Some((first, _)) => first.is_ascii_alphabetic(),
        None => false,
    }
}

// Whether a text begins with a letter or a digit.
fn begins_alphanumeric(text: &[u8]) -> bool
    ensures { result ≡ begins_alphanumeric text.now }
{
    match text.split_first() {
        Some((first, _)) => first.is_ascii_alphanumeric(),
        None => false,
    }
}
