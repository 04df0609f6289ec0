//! Buckets of time.
ghost use Rattle.std.specs.Prelude.{◌≡◌, ◌≤◌, ◌/◌, ◌+ℤ◌, pos, ℕ, ℤ, Bool, List, Option, take};
ghost use Rattle.calendar_values.specs.WallClock.{IsWallClock};
ghost use Rattle.line_devices.specs.declared.stamp_tallies.LineKind.{LineKind};
ghost use Rattle.line_counts.specs.Counting.{Counting, empty_count, most};
ghost use Rattle.line_counts.specs.Steps.{step_of};

use calendar_values::Text;
use line_devices::stamp_tallies::LineKind;
use utc_times::UtcDateTime;

/// The most bytes of a line that decide on its instant.
pub const LONGEST_HEAD: usize = 65_536;

/// Puts lines into buckets of time, and writes their rows.
pub trait Buckets {
    /// The memory of the lines before a line.
    type Memory: Drop;

    /// How it does.
    ghost counting: { Self → Counting Self.Memory };

    /// Returns the memory before the first line.
    fn first_memory(&self) -> Self::Memory
        ensures { result ≡ (counting self.now).memory };

    /// Returns the instant of a line, if it has one: by the memory and the last instant of the
    /// lines before it, and by whether it is the first.
    fn instant_of(
        &self,
        memory: &Self::Memory,
        last: Option<UtcDateTime>,
        is_first: bool,
        line: &[u8],
    ) -> Option<UtcDateTime>
        ensures { result ≡ (counting self.now).instant memory.now last is_first line.now };

    /// Brings the memory up to a line, by its number and by how it counts.
    fn remember(&self, memory: &mut Self::Memory, number: u64, kind: LineKind, line: &[u8])
        ensures { memory.new ≡ (counting self.now).after memory.old number kind line.now };

    /// Returns the bucket of an instant, if it has one: the instant at which the bucket starts.
    fn bucket_of(&self, at: UtcDateTime) -> Option<UtcDateTime>
        ensures { result ≡ (counting self.now).bucket at };

    /// Returns the bucket after a bucket.
    fn next(&self, start: UtcDateTime) -> UtcDateTime
        ensures { result ≡ (counting self.now).next start };

    /// Returns the text of a row: of a bucket, and the number of its lines.
    fn row_of(&self, start: UtcDateTime, count: u64) -> Text
        ensures { result ≡ (counting self.now).row start count };

    /// Returns the number of the buckets from one on and before another, at most 2^64 - 1.
    fn count_between(&self, from: UtcDateTime, to: UtcDateTime) -> u64
        ensures { result ≡ empty_count (counting self.now).next most from to };

    /// Returns the most buckets without lines one after another that have rows.
    fn most_empty(&self) -> u64
        ensures { result ≡ (counting self.now).most_empty };

    /// Returns the text in place of the rows of more buckets without lines, by their number.
    fn text_in_place(&self, count: u64) -> Text
        ensures { result ≡ (counting self.now).in_place count };

    /// The first 65,536 bytes of a line decide on its instant.
    ghost by_head: { (buckets : Self) (memory : Self.Memory) (last : Option ℤ) (is_first : Bool)
        (line : List ℕ)
        → (counting buckets).instant memory last is_first (take 65536 line)
        ≡ (counting buckets).instant memory last is_first line };

    /// They also decide on the memory after it.
    ghost remembers_head: { (buckets : Self) (memory : Self.Memory) (number : ℕ) (kind : LineKind)
        (line : List ℕ)
        → (counting buckets).after memory number kind (take 65536 line)
        ≡ (counting buckets).after memory number kind line };
}

/// Returns the number of steps of one length, in nanoseconds and a minute at least, from an instant
/// up to another or past it.
pub fn steps_between(from: UtcDateTime, to: UtcDateTime, step: u64) -> u64
    requires { 60000000000 ≤ step }
    ensures { result ≡ empty_count (step_of step) most from to }
{
    let first = place_of(from);
    let last = place_of(to);
    if last <= first {
        return 0;
    }
    steps_in(last - first - 1, step) + 1
}

// The number of whole steps that a number of nanoseconds has.
fn steps_in(nanos: u128, step: u64) -> u64
    requires step { 60000000000 ≤ step }
    requires nanos { nanos ≤ 200_000_000_000_000_000_000_000 }
    ensures value { result ≡ nanos / step }
    ensures few { result ≤ 4_000_000_000_000 }
{
    (nanos / step as u128) as u64
}

// The number of nanoseconds up to an instant, from one before the range.
fn place_of(at: UtcDateTime) -> u128
    ensures place { pos result ≡ at +ℤ pos 100_000_000_000_000_000_000_000 }
    ensures most { result ≤ 200_000_000_000_000_000_000_000 }
    ensures in_range { IsWallClock at }
{
    (at.unix_timestamp_nanos() + 100_000_000_000_000_000_000_000) as u128
}
