//! A text in two pieces: the bytes in front that are of one kind, and what follows them.
ghost use Rattle.std.specs.Prelude.{◌≡◌, ◌≤◌, length};
ghost use Rattle.duration_texts.specs.Pieces.{front, is_blank, is_letter, is_of, past};

// A kind of bytes.
#[derive(Clone, Copy)]
pub(crate) enum Kind {
    Blank,
    Digit,
    Letter,
}

// The bytes in front that are of a kind, and what follows them.
#[tactic(auto, using(crate::proofs::PieceLemmas::pieces))]
pub(crate) fn split(kind: Kind, text: &[u8]) -> (&[u8], &[u8])
    ensures front { result.0.now ≡ front (is_of kind) text.now }
    ensures past { result.1.now ≡ past (is_of kind) text.now }
{
    text.split_at(count(kind, text))
}

// The number of bytes in front that are of a kind.
fn count(kind: Kind, text: &[u8]) -> usize
    ensures count { result ≡ length (front (is_of kind) text.now) }
    ensures within { result ≤ length text.now }
{
    for (k, byte) in text.iter().enumerate() {
        if !is_of(kind, *byte) {
            return k;
        }
    }
    text.len()
}

// Whether a byte is of a kind.
fn is_of(kind: Kind, byte: u8) -> bool
    ensures { result ≡ is_of kind byte }
{
    match kind {
        Kind::Blank => byte == b' ',
        Kind::Digit => byte.is_ascii_digit(),
        Kind::Letter => is_letter(byte),
    }
}

// Whether a byte is of a word: an ASCII letter, or of a character that is not of ASCII.
fn is_letter(byte: u8) -> bool
    ensures { result ≡ is_letter byte }
{
    byte.is_ascii_alphabetic() || 128 <= byte
}

// What follows the blanks in front.
pub(crate) fn past_blanks(text: &[u8]) -> &[u8]
    ensures { result.now ≡ past is_blank text.now }
{
    split(Kind::Blank, text).1
}
