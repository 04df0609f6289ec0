//! The instants of lines.
ghost use Rattle.std.specs.Prelude.{◌≡◌, ℕ, ℤ, Bool, List, Option, take};
ghost use Rattle.line_devices.specs.declared.stamp_tallies.LineKind.{LineKind};
ghost use Rattle.line_merges.specs.Instants.{LogReading, is_before, up_to};

use line_devices::stamp_tallies::LineKind;

/// The most bytes of a line that decide on its instant.
pub const LONGEST_HEAD: usize = 65_536;

/// Tells the instants of lines.
pub trait Instants {
    /// The memory of the lines before a line of a log.
    type Memory;

    /// How the lines of the log with a number are read.
    ghost reading: { Self → ℕ → LogReading Self.Memory };

    /// Returns the instant of a line, as a number that grows with time: by the number of its log,
    /// by the memory and the last instant of the lines before it there, and by whether it is the
    /// first.
    fn instant_of(
        &self,
        log: usize,
        memory: &Self::Memory,
        last: Option<i128>,
        is_first: bool,
        line: &[u8],
    ) -> Option<i128>
        ensures { result ≡ (reading self.now log).instant memory.now last is_first line.now };

    /// Brings the memory of a log up to a line, by its number in the log and by how it counts.
    fn remember(
        &self,
        log: usize,
        memory: &mut Self::Memory,
        number: u64,
        kind: LineKind,
        line: &[u8],
    )
        ensures { memory.new ≡ (reading self.now log).after memory.old number kind line.now };

    /// The first 65,536 bytes of a line decide on its instant.
    ghost by_head: { (instants : Self) (log : ℕ) (memory : Self.Memory) (last : Option ℤ)
        (is_first : Bool) (line : List ℕ)
        → (reading instants log).instant memory last is_first (take 65536 line)
        ≡ (reading instants log).instant memory last is_first line };

    /// They also decide on the memory after it.
    ghost remembers_head: { (instants : Self) (log : ℕ) (memory : Self.Memory) (number : ℕ)
        (kind : LineKind) (line : List ℕ)
        → (reading instants log).after memory number kind (take 65536 line)
        ≡ (reading instants log).after memory number kind line };
}

/// Returns whether an instant is before another. Without an instant a line is before all that have
/// one.
pub(crate) fn is_before(first: Option<i128>, second: Option<i128>) -> bool
    ensures { result ≡ is_before first second }
{
    match (first, second) {
        (Some(first), Some(second)) => first < second,
        (None, Some(_)) => true,
        (_, None) => false,
    }
}

/// Returns the instant up to a line: its own, or the one of the lines before.
pub(crate) fn up_to(last: Option<i128>, own: Option<i128>) -> Option<i128>
    ensures { result ≡ up_to last own }
{
    match own {
        Some(_) => own,
        None => last,
    }
}
