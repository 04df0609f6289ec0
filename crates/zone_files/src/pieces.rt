//! A text in two pieces: the bytes in front that are of one kind, and what follows them.
ghost use Rattle.std.specs.Prelude.{◌≡◌, ◌≤◌, length};
ghost use Rattle.zone_files.specs.Pieces.{front, is_of, is_quoted, past};

// A kind of bytes.
#[derive(Clone, Copy)]
pub(crate) enum Kind {
    Digit,
    Letter,
    Quoted,
    Line,
    Named,
}

// The bytes in front that are of a kind, and what follows them.
#[tactic(auto, using(crate::proofs::PieceLemmas::pieces))]
pub(crate) fn split(kind: Kind, text: &[u8]) -> (&[u8], &[u8])
    ensures front { result.0.now ≡ front (is_of kind) text.now }
    ensures past { result.1.now ≡ past (is_of kind) text.now }
{
    text.split_at(count(kind, text))
}

// The number of bytes in front that are of a kind.
fn count(kind: Kind, text: &[u8]) -> usize
    ensures count { result ≡ length (front (is_of kind) text.now) }
    ensures within { result ≤ length text.now }
{
    for (k, byte) in text.iter().enumerate() {
        if !is_of(kind, *byte) {
            return k;
        }
    }
    text.len()
}

// Whether a byte is of a kind.
fn is_of(kind: Kind, byte: u8) -> bool
    ensures { result ≡ is_of kind byte }
{
    match kind {
        Kind::Digit => byte.is_ascii_digit(),
        Kind::Letter => byte.is_ascii_alphabetic(),
        Kind::Quoted => is_quoted(byte),
        Kind::Line => byte != b'\n',
        Kind::Named => byte != 0,
    }
}

// Whether a byte is of a name between < and >.
fn is_quoted(byte: u8) -> bool
    ensures { result ≡ is_quoted byte }
{
    byte.is_ascii_alphanumeric() || byte == b'+' || byte == b'-'
}
