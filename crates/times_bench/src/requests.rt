//! How the words of a line read.
ghost use Rattle.std.specs.Prelude.{◌≡◌, ◌<◌, ◌≤◌, ℕ, ℤ, List, length, IfSome, OnSome, Option};
ghost use Rattle.std.specs.Option.{option_map};
ghost use Rattle.times_bench.specs.CallWords.{call_of};
ghost use Rattle.times_bench.specs.StepWords.{step_of};
ghost use Rattle.times_bench.specs.Requests.{Unix, Stamp, Run, Chain, unix_request, stamp_request, parse_instant, run_request, chain_request, chain_from};
ghost use Rattle.times_bench.specs.Words.{words_of, words_left, bytes_left, all_of};

use super::call_words::call_of;
use super::numbers::{parse_i64, parse_u32};
use super::step_words::step_of;
use super::words::{cut_at, two_fields};
use line_devices::table::Table;
use stamp_times::{Call, DateRead, Step};

/// The most calls or steps of a line: a word of at least three bytes each, and a space before it.
pub const MOST_WORDS: usize = 256;

/// The calls of a run.
pub type Calls = Table<Call, MOST_WORDS>;

/// The steps of a chain.
pub type Steps = Table<Step, MOST_WORDS>;

/// Room for the calls or the steps of a line, which line after line uses.
#[derive(Drop)]
pub struct Room {
    pub calls: Calls,
    pub steps: Steps,
}

impl Room {
    /// Room that nothing has used.
    pub fn new() -> Room {
        Room {
            calls: Table::new(Call::ReadDate(DateRead::Date)),
            steps: Table::new(Step::ToStamp),
        }
    }
}

/// The second of the words after `unix`.
pub fn read_unix(words: &[u8]) -> Option<i64>
    ensures { option_map Unix result ≡ unix_request (words_of words.now) }
{
    parse_i64(words)
}

/// The second and the nanosecond of the words after `stamp`.
#[tactic(auto, unfolding(crate::specs::Requests::stamp_request))]
pub fn read_stamp(words: &[u8]) -> Option<(i64, u32)>
    ensures { option_map (λ asked. Stamp asked.0 asked.1) result
        ≡ stamp_request (words_of words.now) }
{
    let (second, nanosecond) = two_fields(b' ', words)?;
    Some((parse_i64(second)?, parse_u32(nanosecond)?))
}

/// The second and the nanosecond of the words after `run`. Their calls take the place of those in
/// the table.
#[tactic(auto, unfolding(crate::specs::Requests::run_request))]
pub fn read_run(words: &[u8], calls: &mut Calls) -> Option<(i64, u32)>
    requires { length words.now < 1024 }
    ensures { option_map (λ asked. Run asked.0 asked.1 calls.new) result
        ≡ run_request (words_of words.now) }
{
    let (second, nanosecond, rest) = parse_instant(words)?;
    read_items(rest, calls)?;
    Some((second, nanosecond))
}

/// The second, the nanosecond and the start of the words after `chain`. Their steps take the place
/// of those in the table.
#[tactic(auto, unfolding(crate::specs::Requests::chain_request))]
pub fn read_chain(words: &[u8], steps: &mut Steps) -> Option<(i64, u32, Step)>
    requires { length words.now < 1024 }
    ensures { option_map (λ asked. Chain asked.0 asked.1 asked.2 steps.new) result
        ≡ chain_request (words_of words.now) }
{
    let (second, nanosecond, words) = parse_instant(words)?;
    let start = read_steps(words, steps)?;
    Some((second, nanosecond, start))
}

// The start that words begin with. The steps after it take the place of those in the table.
#[tactic(auto, unfolding(crate::specs::Requests::chain_from))]
#[inline(always)]
fn read_steps(words: Option<&[u8]>, steps: &mut Steps) -> Option<Step>
    requires { bytes_left words < 1024 }
    ensures { (second : ℤ) (nanosecond : ℕ)
        → option_map (λ start. Chain second nanosecond start steps.new) result
        ≡ chain_from second nanosecond (words_left words.entry) }
{
    let (start, rest) = cut_at(b' ', words?);
    let start = step_of(start)?;
    read_items(rest, steps)?;
    Some(start)
}

// The second and the nanosecond that words begin with, and what is left of them.
#[tactic(auto, unfolding(crate::specs::Requests::parse_instant))]
fn parse_instant(words: &[u8]) -> Option<(i64, u32, Option<&[u8]>)>
    ensures value { option_map (λ read. (read.0, read.1, words_left read.2)) result
        ≡ parse_instant (words_of words.now) }
    ensures shorter { IfSome result (λ read. bytes_left read.2 ≤ length words.now) }
{
    let (second, words) = cut_at(b' ', words);
    let (nanosecond, words) = cut_at(b' ', words?);
    Some((parse_i64(second)?, parse_u32(nanosecond)?, words))
}

// What a word of a run or of a chain reads as.
trait LineWord: Copy {
    ghost reading: { List ℕ → Option Self };

    fn read(word: &[u8]) -> Option<Self>
        ensures value { result ≡ reading word.now }
        ensures three_bytes { OnSome result (3 ≤ length word.now) };
}

impl LineWord for Call {
    ghost reading = { call_of };

    fn read(word: &[u8]) -> Option<Call> {
        call_of(word)
    }
}

impl LineWord for Step {
    ghost reading = { step_of };

    fn read(word: &[u8]) -> Option<Step> {
        step_of(word)
    }
}

// Puts the items of words into the table, in the place of those there, if all of the words read.
fn read_items<T: LineWord>(words: Option<&[u8]>, items: &mut Table<T, MOST_WORDS>) -> Option<()>
    requires { bytes_left words < 1024 }
    ensures { option_map (λ _. items.new) result ≡ all_of T.reading (words_left words.entry) }
{
    items.clear();
    let mut left = words;
    'words: while let Some(text) = left {
        let (word, rest) = cut_at(b' ', text);
        items.push(T::read(word)?);
        left = rest;
    }
    Some(())
}
