//! Lines out of blocks of bytes.
ghost use Rattle.std.specs.Prelude.{◌≡◌, ◌≤◌, ◌<◌, ℕ, List, [], ◌∷◌, ◌++◌, take, length, Option, OnOk, IfOk, IfErr, IsOk};
ghost use Rattle.line_devices.specs.LineParts.{HasNone};
ghost use Rattle.line_counts.specs.Counts.{first_tally};
ghost use Rattle.line_counts.specs.Progress.{AllSent, Completes, Ends, Stands, mark_after};

use crate::buckets::{Buckets, LONGEST_HEAD};
use crate::tallies::{CountFault, Tally, send_last, take_line};
use line_devices::devices::Sink;
use line_devices::places::place_of;
use line_devices::sending::{Pending, flush};
use line_devices::table::Table;

/// The beginning of a line.
pub type Head = Table<u8, LONGEST_HEAD>;

/// The state after the bytes that were read.
#[derive(Drop)]
pub struct Work<M> {
    /// The state after the lines that ended.
    pub tally: Tally<M>,
    /// The first bytes of the last line.
    pub head: Head,
}

impl<M> Work<M> {
    /// Returns the state before anything is read.
    pub(crate) fn new<B: Buckets<Memory = M>>(buckets: &B) -> Work<M>
        ensures tally { result.tally ≡ first_tally (B.counting buckets.now) }
        ensures head { result.head ≡ [] }
    {
        Work {
            tally: Tally::first(buckets),
            head: Head::new(0),
        }
    }
}

/// Takes in a block, and writes the rows that its lines end, up to a line that ends the run.
pub(crate) fn feed<B: Buckets, W: Sink>(
    buckets: &B,
    is_strict: bool,
    writer: &mut W,
    pending: &mut Pending,
    work: &mut Work<B::Memory>,
    block: &[u8],
) -> Result<(), CountFault>
    ensures stands { IsOk result → (base : Option (List ℕ)) (taken : List ℕ)
        → Stands (B.counting buckets.now) is_strict base (W.written writer.old)
        pending.old work.old taken
        → Stands (B.counting buckets.now) is_strict base (W.written writer.new)
        pending.new work.new (taken ++ block.now) }
    ensures ends { IfErr result (λ fault. (base : Option (List ℕ)) (taken more : List ℕ)
        → Stands (B.counting buckets.now) is_strict base (W.written writer.old)
        pending.old work.old taken
        → Ends (B.counting buckets.now) is_strict base (W.written writer.new) fault
        ((taken ++ block.now) ++ more)) }
    ensures empty { OnOk result (pending.new ≡ []) }
    ensures mark { W.is_marked writer.new ≡ mark_after result (W.is_marked writer.old) }
{
    let mut place = 0;
    'lines: while place < block.len() {
        place += take_front(buckets, is_strict, writer, pending, work, &block[place..])?;
    }
    flush(writer, pending)?;
    Ok(())
}

// Takes in the front of a text, up to its first line feed if it has one. Returns the number of its
// bytes.
fn take_front<B: Buckets, W: Sink>(
    buckets: &B,
    is_strict: bool,
    writer: &mut W,
    pending: &mut Pending,
    work: &mut Work<B::Memory>,
    text: &[u8],
) -> Result<usize, CountFault>
    requires { 0 < length text.now }
    ensures count { IfOk result (λ count. (0 < count) × (count ≤ length text.now)) }
    ensures stands { IfOk result (λ count. (base : Option (List ℕ)) (taken : List ℕ)
        → Stands (B.counting buckets.now) is_strict base (W.written writer.old)
        pending.old work.old taken
        → Stands (B.counting buckets.now) is_strict base (W.written writer.new)
        pending.new work.new (taken ++ take count text.now)) }
    ensures ends { IfErr result (λ fault. (base : Option (List ℕ)) (taken more : List ℕ)
        → Stands (B.counting buckets.now) is_strict base (W.written writer.old)
        pending.old work.old taken
        → Ends (B.counting buckets.now) is_strict base (W.written writer.new) fault
        ((taken ++ text.now) ++ more)) }
    ensures mark { W.is_marked writer.new ≡ mark_after result (W.is_marked writer.old) }
{
    let end = place_of(b'\n', text, 0);
    work.head.push_front_of(&text[..end]);
    if end == text.len() {
        return Ok(end);
    }
    take_line(
        buckets,
        is_strict,
        writer,
        pending,
        &mut work.tally,
        work.head.items(),
    )?;
    work.head.clear();
    Ok(end + 1)
}

/// Counts the last line, if no line feed ends it, and writes all rows.
pub(crate) fn finish<B: Buckets, W: Sink>(
    buckets: &B,
    is_strict: bool,
    writer: &mut W,
    pending: &mut Pending,
    work: &mut Work<B::Memory>,
) -> Result<(), CountFault>
    ensures completes { IsOk result → (base : Option (List ℕ)) (taken : List ℕ)
        → Stands (B.counting buckets.now) is_strict base (W.written writer.old)
        pending.old work.old taken
        → Completes (B.counting buckets.now) is_strict base (W.written writer.new)
        taken work.new.tally }
    ensures ends { IfErr result (λ fault. (base : Option (List ℕ)) (taken : List ℕ)
        → Stands (B.counting buckets.now) is_strict base (W.written writer.old)
        pending.old work.old taken
        → Ends (B.counting buckets.now) is_strict base (W.written writer.new) fault taken) }
    ensures mark { W.is_marked writer.new ≡ mark_after result (W.is_marked writer.old) }
{
    take_rest(buckets, is_strict, writer, pending, work)?;
    send_last(buckets, writer, pending, &work.tally)?;
    flush(writer, pending)?;
    Ok(())
}

// Counts the last line, if no line feed ends it.
fn take_rest<B: Buckets, W: Sink>(
    buckets: &B,
    is_strict: bool,
    writer: &mut W,
    pending: &mut Pending,
    work: &mut Work<B::Memory>,
) -> Result<(), CountFault>
    ensures sent { IsOk result → (base : Option (List ℕ)) (taken : List ℕ)
        → Stands (B.counting buckets.now) is_strict base (W.written writer.old)
        pending.old work.old taken
        → AllSent (B.counting buckets.now) is_strict base (W.written writer.new)
        pending.new work.new.tally taken }
    ensures ends { IfErr result (λ fault. (base : Option (List ℕ)) (taken : List ℕ)
        → Stands (B.counting buckets.now) is_strict base (W.written writer.old)
        pending.old work.old taken
        → Ends (B.counting buckets.now) is_strict base (W.written writer.new) fault taken) }
    ensures mark { W.is_marked writer.new ≡ mark_after result (W.is_marked writer.old) }
{
    if work.head.is_empty() {
        return Ok(());
    }
    take_line(
        buckets,
        is_strict,
        writer,
        pending,
        &mut work.tally,
        work.head.items(),
    )?;
    Ok(())
}
