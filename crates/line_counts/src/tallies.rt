//! The rows that lines make.
ghost use Rattle.std.specs.Ordering.{int_eq};
ghost use Rattle.std.specs.Prelude.{◌≡◌, ◌++◌, int_lt, None, Some};
ghost use Rattle.line_devices.specs.Writing.{MarksFailure, SendsAll};
ghost use Rattle.line_counts.specs.Counting.{most};
ghost use Rattle.line_counts.specs.Counts.{back_of, bucket_at, count_line, empty_rows, empty_run, ended_rows, fault_of, first_tally, goes_back, last_row};
ghost use Rattle.line_counts.specs.Counts.{one_more, row_after, rows_by, tally_after, tally_at, tally_by, tally_passed};
ghost use Rattle.line_counts.specs.Progress.{Takes, mark_after};

use crate::buckets::Buckets;
use line_devices::devices::{DeviceFault, Sink};
use line_devices::sending::{Pending, flush, send};
use line_devices::stamp_tallies::{LineKind, StampTally, kind_of};
use utc_times::UtcDateTime;

/// The row of lines of one bucket.
#[derive(Clone, Copy, Debug)]
pub struct Row {
    /// The instant at which the bucket starts.
    pub start: UtcDateTime,
    /// The number of its lines, at most 2^64 - 1.
    pub count: u64,
}

/// The state after lines.
#[derive(Drop)]
pub struct Tally<M> {
    /// Their number, at most 2^64 - 1.
    pub lines: u64,
    /// The last of their instants.
    pub last: Option<UtcDateTime>,
    /// The last row, which may grow.
    pub row: Option<Row>,
    /// The number of the first line whose bucket is before that of the row then.
    pub back: Option<u64>,
    /// How many of them have no stamp.
    pub stamps: StampTally,
    /// The memory of them.
    pub memory: M,
}

/// The reason why a count ended before the end of the input.
#[derive(Clone, Copy, Debug, PartialEq, Eq)]
pub enum CountFault {
    /// A read failed.
    Read,
    /// A write failed.
    Write,
    /// The line with this number has no bucket.
    Missing(u64),
    /// The bucket of the line with this number is before that of the row.
    Back(u64),
}

impl From<DeviceFault> for CountFault {
    ghost use Rattle.line_counts.specs.declared.tallies.CountFault.TheVariants.{Write};

    ghost from_gives = { λ fault result. result ≡ Write };

    fn from(_fault: DeviceFault) -> CountFault {
        CountFault::Write
    }
}

impl<M> Tally<M> {
    /// Returns the tally before the first line.
    pub(crate) fn first<B: Buckets<Memory = M>>(buckets: &B) -> Tally<M>
        ensures { result ≡ first_tally (B.counting buckets.now) }
    {
        Tally {
            lines: 0,
            last: None,
            row: None,
            back: None,
            stamps: StampTally::new(),
            memory: buckets.first_memory(),
        }
    }
}

/// Counts a line, and sends the rows that it ends. A line that ends the run comes after the last
/// row, and after a write of all that is pending.
pub(crate) fn take_line<B: Buckets, W: Sink>(
    buckets: &B,
    is_strict: bool,
    writer: &mut W,
    pending: &mut Pending,
    tally: &mut Tally<B::Memory>,
    line: &[u8],
) -> Result<(), CountFault>
    ensures takes { Takes result (count_line (B.counting buckets.now) is_strict tally.old line.now)
        tally.new (W.written writer.old) (W.written writer.new) pending.old pending.new }
    ensures mark { W.is_marked writer.new ≡ mark_after result (W.is_marked writer.old) }
{
    let own = buckets.instant_of(&tally.memory, tally.last, tally.lines == 0, line);
    note(buckets, tally, line, &own);
    let bucket = bucket_at(buckets, &own);
    if let Some(fault) = fault_of(is_strict, tally, &bucket) {
        send_last(buckets, writer, pending, tally)?;
        flush(writer, pending)?;
        return Err(fault);
    }
    send_by(buckets, writer, pending, tally, &bucket)?;
    pass_line(tally, &bucket);
    Ok(())
}

// Keeps the instant of a line as the last one, if it has one, and counts the line by its stamp.
fn note<B: Buckets>(
    buckets: &B,
    tally: &mut Tally<B::Memory>,
    line: &[u8],
    own: &Option<UtcDateTime>,
)
    ensures { tally.new ≡ tally_at (B.counting buckets.now) tally.old line.now own.now }
{
    let number = tally.lines.saturating_add(1);
    if own.is_some() {
        tally.stamps.texts = tally.stamps.texts.saturating_add(1);
        tally.last = *own;
        buckets.remember(&mut tally.memory, number, LineKind::Stamped, line);
    } else {
        note_without_stamp(buckets, tally, number, line);
    }
}

// Counts a line of this number without a stamp.
#[inline(never)]
fn note_without_stamp<B: Buckets>(
    buckets: &B,
    tally: &mut Tally<B::Memory>,
    number: u64,
    line: &[u8],
)
    requires { number ≡ one_more tally.old.lines }
    ensures { tally.new ≡ tally_at (B.counting buckets.now) tally.old line.now None }
{
    let kind = kind_of(line, false);
    tally.stamps = tally.stamps.after(number, kind);
    buckets.remember(&mut tally.memory, number, kind, line);
}

// The bucket of a line, by its instant.
fn bucket_at<B: Buckets>(buckets: &B, own: &Option<UtcDateTime>) -> Option<UtcDateTime>
    ensures { result ≡ bucket_at (B.counting buckets.now) own.now }
{
    match own {
        Some(at) => buckets.bucket_of(*at),
        None => None,
    }
}

// The fault of a line if the run is strict.
fn fault_of<M>(
    is_strict: bool,
    tally: &Tally<M>,
    bucket: &Option<UtcDateTime>,
) -> Option<CountFault>
    ensures { result ≡ fault_of is_strict tally.now bucket.now }
{
    if !is_strict {
        return None;
    }
    let number = tally.lines.saturating_add(1);
    match bucket {
        None => Some(CountFault::Missing(number)),
        Some(start) if goes_back(&tally.row, *start) => Some(CountFault::Back(number)),
        Some(_) => None,
    }
}

// Whether a bucket is before that of the row.
fn goes_back(row: &Option<Row>, start: UtcDateTime) -> bool
    ensures { result ≡ goes_back row.now start }
{
    match row {
        Some(row) => is_before(start, row.start),
        None => false,
    }
}

// Whether a bucket is before another.
fn is_before(first: UtcDateTime, second: UtcDateTime) -> bool
    ensures { result ≡ int_lt first second }
{
    first < second
}

// Whether two buckets are one.
fn is_same(first: UtcDateTime, second: UtcDateTime) -> bool
    ensures { result ≡ int_eq first second }
{
    first == second
}

// Brings the tally up to a line of a bucket.
fn pass_in_bucket<M>(tally: &mut Tally<M>, start: UtcDateTime)
    ensures { tally.new ≡ tally_after tally.old start }
{
    let number = tally.lines.saturating_add(1);
    tally.lines = number;
    tally.back = tally.back.or(back_of(goes_back(&tally.row, start), number));
    tally.row = Some(row_after(&tally.row, start));
}

// The number of a line that goes back.
fn back_of(goes_back: bool, number: u64) -> Option<u64>
    ensures { result ≡ back_of goes_back number }
{
    if goes_back { Some(number) } else { None }
}

// Brings the tally up to a line without a bucket.
fn pass_over<M>(tally: &mut Tally<M>)
    ensures { tally.new ≡ tally_passed tally.old }
{
    tally.lines = tally.lines.saturating_add(1);
}

// Brings the tally up to a line, by its bucket.
fn pass_line<M>(tally: &mut Tally<M>, bucket: &Option<UtcDateTime>)
    ensures { tally.new ≡ tally_by tally.old bucket.now }
{
    match bucket {
        Some(start) => pass_in_bucket(tally, *start),
        None => pass_over(tally),
    }
}

// The row after a line of a bucket.
fn row_after(row: &Option<Row>, start: UtcDateTime) -> Row
    ensures { result ≡ row_after row.now start }
{
    match row {
        Some(row) if is_same(row.start, start) => Row {
            start,
            count: row.count.saturating_add(1),
        },
        _ => Row { start, count: 1 },
    }
}

/// Sends the last row.
pub(crate) fn send_last<B: Buckets, W: Sink>(
    buckets: &B,
    writer: &mut W,
    pending: &mut Pending,
    tally: &Tally<B::Memory>,
) -> Result<(), DeviceFault>
    ensures sent { SendsAll result (W.written writer.old) (W.written writer.new)
        pending.new (pending.old ++ last_row (B.counting buckets.now) tally.now.row) }
    ensures mark { MarksFailure result (W.is_marked writer.old) (W.is_marked writer.new) }
{
    match &tally.row {
        Some(row) => send_row(buckets, writer, pending, row.start, row.count),
        None => Ok(()),
    }
}

// Sends a row.
fn send_row<B: Buckets, W: Sink>(
    buckets: &B,
    writer: &mut W,
    pending: &mut Pending,
    start: UtcDateTime,
    count: u64,
) -> Result<(), DeviceFault>
    ensures sent { SendsAll result (W.written writer.old) (W.written writer.new)
        pending.new (pending.old ++ (B.counting buckets.now).row start count) }
    ensures mark { MarksFailure result (W.is_marked writer.old) (W.is_marked writer.new) }
{
    let text = buckets.row_of(start, count);
    send(writer, pending, text.as_bytes())
}

// Sends the rows that a line ends, by its bucket.
fn send_by<B: Buckets, W: Sink>(
    buckets: &B,
    writer: &mut W,
    pending: &mut Pending,
    tally: &Tally<B::Memory>,
    bucket: &Option<UtcDateTime>,
) -> Result<(), DeviceFault>
    ensures sent { SendsAll result (W.written writer.old) (W.written writer.new)
        pending.new (pending.old ++ rows_by (B.counting buckets.now) tally.now.row bucket.now) }
    ensures mark { MarksFailure result (W.is_marked writer.old) (W.is_marked writer.new) }
{
    match (&tally.row, bucket) {
        (Some(row), Some(start)) => send_ended(buckets, writer, pending, row, *start),
        (None, _) => Ok(()),
        (_, None) => Ok(()),
    }
}

// Sends the rows that a line of a bucket ends: none, if the row has that bucket.
fn send_ended<B: Buckets, W: Sink>(
    buckets: &B,
    writer: &mut W,
    pending: &mut Pending,
    row: &Row,
    start: UtcDateTime,
) -> Result<(), DeviceFault>
    ensures sent { SendsAll result (W.written writer.old) (W.written writer.new)
        pending.new (pending.old ++ ended_rows (B.counting buckets.now) (Some row.now) start) }
    ensures mark { MarksFailure result (W.is_marked writer.old) (W.is_marked writer.new) }
{
    if is_same(row.start, start) {
        return Ok(());
    }
    send_row(buckets, writer, pending, row.start, row.count)?;
    send_empty(buckets, writer, pending, buckets.next(row.start), start)
}

// Sends what is written of buckets without lines, from one on and before another: their rows, or a
// text in place of too many.
fn send_empty<B: Buckets, W: Sink>(
    buckets: &B,
    writer: &mut W,
    pending: &mut Pending,
    from: UtcDateTime,
    to: UtcDateTime,
) -> Result<(), DeviceFault>
    ensures sent { SendsAll result (W.written writer.old) (W.written writer.new)
        pending.new (pending.old ++ empty_run (B.counting buckets.now) from to) }
    ensures mark { MarksFailure result (W.is_marked writer.old) (W.is_marked writer.new) }
{
    let count = buckets.count_between(from, to);
    if count > buckets.most_empty() {
        let text = buckets.text_in_place(count);
        return send(writer, pending, text.as_bytes());
    }
    send_empty_rows(buckets, writer, pending, from, to)
}

// Sends the rows of buckets without lines, from one on and before another.
fn send_empty_rows<B: Buckets, W: Sink>(
    buckets: &B,
    writer: &mut W,
    pending: &mut Pending,
    from: UtcDateTime,
    to: UtcDateTime,
) -> Result<(), DeviceFault>
    ensures sent { SendsAll result (W.written writer.old) (W.written writer.new)
        pending.new (pending.old ++ empty_rows (B.counting buckets.now) most from to) }
    ensures mark { MarksFailure result (W.is_marked writer.old) (W.is_marked writer.new) }
{
    let mut start = from;
    'rows: for _row in 0..u64::MAX {
        if !is_before(start, to) {
            return Ok(());
        }
        send_row(buckets, writer, pending, start, 0)?;
        start = buckets.next(start);
    }
    Ok(())
}
