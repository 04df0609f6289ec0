//! The words before a stamp.
ghost use Rattle.std.specs.Prelude.{◌≡◌, [], true};
ghost use Rattle.log_forms.specs.Fronts.{begins_letters, ends_with_zone, follows_no_zone, is_gap, is_zone_word, last_word};

use crate::ends::{begins_letter, spells_zone};
use crate::instants::is_whole;
use crate::places::is_blank;
use format_descriptions::Parts;

// Whether no time zone is before a stamp of these parts, if they have no offset.
pub(crate) fn follows_no_zone(parts: &Parts, before: &[u8]) -> bool
    ensures { result ≡ follows_no_zone parts.now before.now }
{
    is_whole(parts) || !ends_with_zone(before)
}

// Whether the last word of a text is the name of a time zone.
fn ends_with_zone(text: &[u8]) -> bool
    ensures { result ≡ ends_with_zone text.now }
{
    is_zone_word(last_word(text))
}

// Whether a word is the name of a time zone of two letters or more.
fn is_zone_word(word: &[u8]) -> bool
    ensures { result ≡ is_zone_word word.now }
{
    begins_letters(word) && spells_zone(word)
}

// Whether a text begins with two letters.
fn begins_letters(text: &[u8]) -> bool
    ensures { result ≡ begins_letters text.now }
{
    match text.split_first() {
        Some((first, rest)) => first.is_ascii_alphabetic() && begins_letter(rest),
        None => false,
    }
}

// The last word of a text, and what follows it. Blanks and brackets stand between words.
#[tactic(auto, unfolding(crate::specs::Fronts::last_word))]
fn last_word(text: &[u8]) -> &[u8]
    ensures { result.now ≡ last_word [] true text.now }
{
    let mut rest = text;
    let mut word: &[u8] = &[];
    let mut is_behind_gap = true;
    while let Some((first, more)) = rest.split_first() {
        if is_behind_gap && !is_gap(*first) {
            word = rest;
        }
        is_behind_gap = is_gap(*first);
        rest = more;
    }
    word
}

// Whether a byte is a blank or a bracket.
fn is_gap(byte: u8) -> bool
    ensures { result ≡ is_gap byte }
{
    is_blank(byte) || byte == b'(' || byte == b')' || byte == b'[' || byte == b']'
}
