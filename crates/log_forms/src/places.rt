//! Where in a line a stamp is.
ghost use Rattle.std.specs.Prelude.{◌≡◌, ◌≤◌, length, option_map, IfSome, false, true};
ghost use Rattle.rfc3339.specs.Reading.{mark_at};
ghost use Rattle.log_forms.specs.Places.{behind_text, colour_end, field_at, last_bracket, past_colour, past_colours, text_at};
ghost use Rattle.log_forms.specs.Marks.{bytes_at, is_blank, past_blanks};

use crate::json::member_of;

/// Where in a line a stamp begins.
#[derive(Clone, Copy, Debug, PartialEq, Eq)]
pub enum Place {
    /// At the front.
    Front,
    /// At the front of the field with this number, counted from 1. Spaces and tabs separate fields.
    Field(usize),
    /// After the first place of a text.
    After,
    /// At the value of the first member of a name, in the outermost object of JSON. If there is
    /// none, `a.b` is the member `b` in the object of the member `a`.
    Json,
    /// After the last `[` that follows a space, before the first quote: the time of an access log.
    /// The name of the user, which a client chooses, comes before it, and the request after it.
    Access,
    /// After one or two colours of a terminal.
    Coloured,
}

// The line from a place on. The text is the one of `After`, and the name of `Json`.
#[tactic(auto, unfolding(crate::specs::Places::text_at))]
pub(crate) fn text_at<'a>(place: Place, text: &[u8], line: &'a [u8]) -> Option<&'a [u8]>
    ensures value { option_map (λ rest. rest.now) result ≡ text_at place text.now line.now }
    ensures shorter { IfSome result (λ rest. length rest.now ≤ length line.now) }
{
    match place {
        Place::Front => Some(line),
        Place::Field(number) => field_at(number, line),
        Place::After => behind_text(text, line),
        Place::Json => member_of(text, line),
        Place::Access => last_bracket(line),
        Place::Coloured => past_colours(line),
    }
}

// The rest after the last bracket behind a space, before the first quote.
#[tactic(auto, unfolding(crate::specs::Places::last_bracket))]
fn last_bracket(text: &[u8]) -> Option<&[u8]>
    ensures value { option_map (λ rest. rest.now) result ≡ last_bracket false text.now }
    ensures shorter { IfSome result (λ rest. length rest.now ≤ length text.now) }
{
    let mut rest = text;
    let mut is_behind_space = false;
    let mut found = None;
    while let Some((first, more)) = rest.split_first() {
        if *first == b'"' {
            return found;
        }
        if is_behind_space && *first == b'[' {
            found = Some(more);
        }
        is_behind_space = *first == b' ';
        rest = more;
    }
    found
}

// The rest after one or two colours.
fn past_colours(text: &[u8]) -> Option<&[u8]>
    ensures value { option_map (λ rest. rest.now) result ≡ past_colours text.now }
    ensures shorter { IfSome result (λ rest. length rest.now ≤ length text.now) }
{
    let Some(rest) = past_colour(text) else {
        return None;
    };
    match past_colour(rest) {
        Some(more) => Some(more),
        None => Some(rest),
    }
}

// The rest after a colour.
fn past_colour(text: &[u8]) -> Option<&[u8]>
    ensures value { option_map (λ rest. rest.now) result ≡ past_colour text.now }
    ensures shorter { IfSome result (λ rest. length rest.now ≤ length text.now) }
{
    let Some(rest) = after_mark(0x1B, text) else {
        return None;
    };
    let Some(rest) = after_mark(b'[', rest) else {
        return None;
    };
    colour_end(rest)
}

// The rest after the numbers of a colour.
#[tactic(auto, unfolding(crate::specs::Places::colour_end))]
fn colour_end(text: &[u8]) -> Option<&[u8]>
    ensures value { option_map (λ rest. rest.now) result ≡ colour_end text.now }
    ensures shorter { IfSome result (λ rest. length rest.now ≤ length text.now) }
{
    let mut rest = text;
    while let Some((first, more)) = rest.split_first() {
        if *first == b'm' {
            return Some(more);
        }
        if !(first.is_ascii_digit() || *first == b';') {
            return None;
        }
        rest = more;
    }
    None
}

// The line from the field with this number on.
#[tactic(auto, unfolding(crate::specs::Places::field_at))]
fn field_at(number: usize, line: &[u8]) -> Option<&[u8]>
    ensures value { option_map (λ rest. rest.now) result ≡ field_at true number line.now }
    ensures shorter { IfSome result (λ rest. length rest.now ≤ length line.now) }
{
    let mut rest = line;
    let mut left = number;
    let mut is_behind_blank = true;
    while let Some((first, more)) = rest.split_first() {
        let is_front = is_behind_blank && !is_blank(*first);
        if is_front && left == 1 {
            return Some(rest);
        }
        left = left.saturating_sub(is_front as usize);
        is_behind_blank = is_blank(*first);
        rest = more;
    }
    None
}

// Whether a byte is a space or a tab.
pub(crate) fn is_blank(byte: u8) -> bool
    ensures { result ≡ is_blank byte }
{
    byte == b' ' || byte == b'\t'
}

// What follows the first place of a text.
#[tactic(auto, unfolding(crate::specs::Places::behind_text))]
fn behind_text<'a>(text: &[u8], line: &'a [u8]) -> Option<&'a [u8]>
    ensures value { option_map (λ rest. rest.now) result ≡ behind_text text.now line.now }
    ensures shorter { IfSome result (λ rest. length rest.now ≤ length line.now) }
{
    let mut rest = line;
    while let Some((_, more)) = rest.split_first() {
        if let Some(found) = after_bytes(text, rest) {
            return Some(found);
        }
        rest = more;
    }
    None
}

// What follows these bytes at the front of a text.
#[tactic(auto, unfolding(crate::specs::Marks::bytes_at))]
pub(crate) fn after_bytes<'a>(bytes: &[u8], text: &'a [u8]) -> Option<&'a [u8]>
    ensures value { option_map (λ rest. rest.now) result ≡ bytes_at bytes.now text.now }
    ensures shorter { IfSome result (λ rest. length rest.now ≤ length text.now) }
{
    let mut rest = text;
    let mut left = bytes;
    while let Some((first, others)) = left.split_first() {
        let Some(more) = after_mark(*first, rest) else {
            return None;
        };
        rest = more;
        left = others;
    }
    Some(rest)
}

// What follows a byte at the front of a text.
#[tactic(auto, unfolding(rfc3339::specs::Reading::mark_at))]
pub(crate) fn after_mark(mark: u8, text: &[u8]) -> Option<&[u8]>
    ensures value { option_map (λ rest. rest.now) result ≡ mark_at mark text.now }
    ensures shorter { IfSome result (λ rest. length rest.now ≤ length text.now) }
{
    match text.split_first() {
        Some((first, text)) if *first == mark => Some(text),
        _ => None,
    }
}

// What follows the blanks at the front of a text.
#[tactic(auto, unfolding(crate::specs::Marks::past_blanks))]
pub(crate) fn past_blanks(text: &[u8]) -> &[u8]
    ensures value { result.now ≡ past_blanks text.now }
    ensures shorter { length result.now ≤ length text.now }
{
    let mut rest = text;
    while let Some((first, more)) = rest.split_first() {
        if !is_blank(*first) {
            return rest;
        }
        rest = more;
    }
    rest
}
