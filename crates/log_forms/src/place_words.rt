//! Words for places.
ghost use Rattle.std.specs.Prelude.{◌≡◌, ◌≤◌};
ghost use Rattle.log_forms.specs.PlaceWords.{field_numbered, number_in, place_of, place_with};

use crate::places::{Place, after_bytes};

/// The place of a word, and the number of its bytes before the text or the name: `front`, `access`,
/// `coloured`, `field:N` with N from 1 to 999, `after:TEXT`, or `json:NAME`. None if the word is no
/// place.
#[tactic(auto, unfolding(crate::specs::PlaceWords::place_of))]
pub fn place_of(word: &[u8]) -> Option<(Place, usize)>
    ensures value { result ≡ place_of word.now }
{
    if word == b"front".as_slice() {
        return Some((Place::Front, word.len()));
    }
    if word == b"access".as_slice() {
        return Some((Place::Access, word.len()));
    }
    if word == b"coloured".as_slice() {
        return Some((Place::Coloured, word.len()));
    }
    match after_bytes(b"field:", word) {
        Some(digits) => field_numbered(word.len(), number_in(0, digits)),
        None => match after_bytes(b"after:", word) {
            Some(text) => place_with(Place::After, 6, text),
            None => match after_bytes(b"json:", word) {
                Some(name) => place_with(Place::Json, 5, name),
                None => None,
            },
        },
    }
}

// The place of a field with this number, if that is one.
fn field_numbered(length: usize, number: Option<usize>) -> Option<(Place, usize)>
    ensures { result ≡ field_numbered length number }
{
    match number {
        Some(0) => None,
        Some(number) => Some((Place::Field(number), length)),
        None => None,
    }
}

// A place with a text that is not empty.
fn place_with(place: Place, length: usize, text: &[u8]) -> Option<(Place, usize)>
    ensures { result ≡ place_with place length text.now }
{
    if text.is_empty() {
        None
    } else {
        Some((place, length))
    }
}

// The number of decimal digits after those of another, up to 999. None if another byte is there.
#[tactic(auto, unfolding(crate::specs::PlaceWords::number_in))]
fn number_in(number: usize, text: &[u8]) -> Option<usize>
    requires { number ≤ 999 }
    ensures { result ≡ number_in number text.now }
{
    let Some((first, rest)) = text.split_first() else {
        return Some(number);
    };
    if !first.is_ascii_digit() {
        return None;
    }
    let longer = number * 10 + (*first - b'0') as usize;
    if longer > 999 {
        return None;
    }
    number_in(longer, rest)
}
