//! Which words of the command line are files, and which files are no text.
ghost use Rattle.std.specs.Prelude.{◌≡◌, map};
ghost use Rattle.stamps.specs.Files.{begins_at, count_length, front_length, is_compressed, is_dashes};
ghost use Rattle.stamps.specs.Files.{is_option, opens_block, packing_of, takes_files, takes_value};

use crate::arguments::is;

/// The number of the words of a request that come before its options and files: the first word and
/// its values, or all where no files may follow.
#[tactic(auto, unfolding(crate::specs::Files::front_length))]
pub fn front_length(words: &[&[u8]]) -> usize
    ensures { result ≡ front_length (map (λ word. word.now) words.now) }
{
    let Some((word, rest)) = words.split_first() else {
        return 0;
    };
    if takes_value(word) {
        return 2;
    }
    if is(word, "between") {
        return 3;
    }
    if takes_files(word) {
        return 1;
    }
    if is(word, "count") {
        return count_length(rest);
    }
    words.len()
}

// The number of the words of a count before its options and files, by those after the first.
fn count_length(words: &[&[u8]]) -> usize
    ensures { result ≡ count_length (map (λ word. word.now) words.now) }
{
    let Some((_, rest)) = words.split_first() else {
        return 2;
    };
    if begins_at(rest) { 4 } else { 2 }
}

// Whether `at` is the first of some words.
fn begins_at(words: &[&[u8]]) -> bool
    ensures { result ≡ begins_at (map (λ word. word.now) words.now) }
{
    match words.split_first() {
        Some((word, _)) => is(word, "at"),
        None => false,
    }
}

/// Whether a word is an option, as `--strict`: `-` is a file, and `--` ends the options.
#[tactic(auto, unfolding(crate::specs::Files::is_option))]
pub fn is_option(word: &[u8]) -> bool
    ensures { result ≡ is_option word.now }
{
    word.starts_with(b"-") && !is(word, "-") && !is_dashes(word)
}

/// Whether a word is `--`.
pub fn is_dashes(word: &[u8]) -> bool
    ensures { result ≡ is_dashes word.now }
{
    is(word, "--")
}

// Whether a value follows the word, and then files may.
#[tactic(auto, unfolding(crate::specs::Files::takes_value))]
fn takes_value(word: &[u8]) -> bool
    ensures { result ≡ takes_value word.now }
{
    is(word, "at") || is(word, "since") || is(word, "until") || is(word, "gaps")
}

// Whether files may follow the word.
#[tactic(auto, unfolding(crate::specs::Files::takes_files))]
fn takes_files(word: &[u8]) -> bool
    ensures { result ≡ takes_files word.now }
{
    is(word, "utc") || is(word, "unix") || is(word, "check") || is(word, "merge")
}

/// Whether the name of a file is that of a compressed one.
pub fn is_compressed(name: &[u8]) -> bool
    ensures { result ≡ is_compressed name.now }
{
    name.ends_with(b".gz")
}

/// How the bytes of an input are packed, where they are no lines of text.
#[derive(Clone, Copy, Debug, PartialEq, Eq)]
pub enum Packing {
    /// By gzip.
    Gzip,
    /// By zstd.
    Zstd,
    /// By xz.
    Xz,
    /// By bzip2.
    Bzip2,
    /// As text of UTF-16.
    Utf16,
}

/// The most bytes that tell a packing.
pub const LONGEST_SIGN: usize = 5;

/// The packing of an input by its first bytes, if it has one.
#[tactic(auto, unfolding(crate::specs::Files::packing_of))]
pub fn packing_of(head: &[u8]) -> Option<Packing>
    ensures { result ≡ packing_of head.now }
{
    if head.starts_with(&[0x1F, 0x8B]) {
        Some(Packing::Gzip)
    } else if head.starts_with(&[0x28, 0xB5, 0x2F, 0xFD]) {
        Some(Packing::Zstd)
    } else if head.starts_with(&[0xFD, b'7', b'z', b'X', b'Z']) {
        Some(Packing::Xz)
    } else if head.starts_with(b"BZh") && opens_block(head.get(4).copied()) {
        Some(Packing::Bzip2)
    } else if head.starts_with(&[0xFF, 0xFE]) || head.starts_with(&[0xFE, 0xFF]) {
        Some(Packing::Utf16)
    } else {
        None
    }
}

// Whether a byte opens a block of bzip2, or ends a file of it.
fn opens_block(byte: Option<u8>) -> bool
    ensures { result ≡ opens_block byte }
{
    match byte {
        Some(byte) => byte == 0x31 || byte == 0x17,
        None => false,
    }
}
