//! Rows of columns that may be gaps: a gap leads to a gap, and each other row to its own result.
ghost use Rattle.std.specs.Prelude.{◌≡◌, ◌≤◌, ◌++◌, Bool, Result, count_by, length, take, drop};
ghost use Rattle.std.specs.List.{zip};
ghost use Rattle.muxandu_c.specs.Batches.{batch_values, batch_status};
ghost use Rattle.muxandu_c.specs.Gaps.{is_gap, is_no_duration, has_gap, past_gap, past_gaps};
ghost use Rattle.muxandu_c.specs.PairBatches.{pair_values, pair_status};

use crate::batches::{Conversion, convert_all};
use crate::moments::MuxanduMoment;
use crate::pair_batches::{Pairing, pair_all};
use crate::refused::Refused;
use crate::values::{MuxanduBatch, MuxanduDuration};

// A row that may be a gap.
pub(crate) trait Row: Copy {
    /// Whether a row is a gap.
    ghost gap_test: { Self → Bool };

    fn is_gap(self) -> bool
        ensures { result ≡ gap_test self };
}

impl Row for MuxanduMoment {
    ghost gap_test = { λ row. is_gap row };

    #[inline(always)]
    fn is_gap(self) -> bool {
        self.seconds == i64::MIN
    }
}

impl Row for MuxanduDuration {
    ghost gap_test = { λ row. is_no_duration row };

    #[inline(always)]
    fn is_gap(self) -> bool {
        self.seconds == i64::MAX && self.nanoseconds == i32::MAX
    }
}

// A conversion of the rows that are no gap, and the mark to which a gap leads.
#[derive(Clone, Copy)]
struct PastGap<C, B> {
    conversion: C,
    mark: B,
}

impl<B: Copy, C: Conversion<MuxanduMoment, B>> Conversion<MuxanduMoment, B> for PastGap<C, B> {
    ghost value_of = { λ past row. past_gap past.mark (C.value_of past.conversion) row };

    #[inline(always)]
    fn convert(self, item: MuxanduMoment) -> Result<B, Refused> {
        if item.is_gap() {
            return Ok(self.mark);
        }
        self.conversion.convert(item)
    }
}

// The values of rows, up to the first that is refused, and how many of these rows are gaps.
#[inline(always)]
pub(crate) fn convert_past_gaps<B: Copy, C: Conversion<MuxanduMoment, B>>(
    conversion: C,
    mark: B,
    moments: &[MuxanduMoment],
    out: &mut [B],
    gaps: &mut usize,
) -> MuxanduBatch
    ensures count { result.count ≡
        length (batch_values (past_gap mark (C.value_of conversion)) out.old moments.now) }
    ensures status { result.status ≡
        batch_status (past_gap mark (C.value_of conversion)) out.old moments.now }
    ensures written { out.new ≡
        batch_values (past_gap mark (C.value_of conversion)) out.old moments.now
        ++ drop result.count out.old }
    ensures gaps { gaps.new ≡ count_by is_gap (take result.count moments.now) }
{
    let batch = convert_all(PastGap { conversion, mark }, moments, out);
    *gaps = gaps_in(&moments[..batch.count]);
    batch
}

// The number of rows that are gaps.
#[inline(always)]
fn gaps_in(moments: &[MuxanduMoment]) -> usize
    ensures { result ≡ count_by is_gap moments.now }
{
    let mut gaps = 0;
    for row in moments {
        if row.is_gap() {
            gaps += 1;
        }
    }
    gaps
}

// Whether one of two rows is a gap.
#[inline(always)]
fn have_gap<B: Row>(first: MuxanduMoment, second: B) -> bool
    ensures { result ≡ has_gap B.gap_test (first, second) }
{
    first.is_gap() | second.is_gap()
}

// A pairing of the rows that are no gap, and the mark to which a gap leads.
#[derive(Clone, Copy)]
struct PairPastGaps<P, C> {
    pairing: P,
    mark: C,
}

impl<B: Row, C: Copy, P: Pairing<MuxanduMoment, B, C>> Pairing<MuxanduMoment, B, C>
    for PairPastGaps<P, C> {
    ghost value_of = { λ past first second.
        past_gaps B.gap_test past.mark (P.value_of past.pairing) first second };

    #[inline(always)]
    fn pair(self, first: MuxanduMoment, second: B) -> Result<C, Refused> {
        if have_gap(first, second) {
            return Ok(self.mark);
        }
        self.pairing.pair(first, second)
    }
}

// The values of pairs, up to the first that is refused, and in how many of these pairs a row is a gap.
#[inline(always)]
pub(crate) fn pair_past_gaps<B: Row, C: Copy, P: Pairing<MuxanduMoment, B, C>>(
    pairing: P,
    mark: C,
    firsts: &[MuxanduMoment],
    seconds: &[B],
    out: &mut [C],
    gaps: &mut usize,
) -> MuxanduBatch
    ensures count { result.count ≡
        length (pair_values (past_gaps B.gap_test mark (P.value_of pairing))
        out.old firsts.now seconds.now) }
    ensures status { result.status ≡
        pair_status (past_gaps B.gap_test mark (P.value_of pairing))
        out.old firsts.now seconds.now }
    ensures written { out.new ≡
        pair_values (past_gaps B.gap_test mark (P.value_of pairing))
        out.old firsts.now seconds.now
        ++ drop result.count out.old }
    ensures gaps { gaps.new ≡
        count_by (has_gap B.gap_test) (zip (take result.count firsts.now) seconds.now) }
{
    let batch = pair_all(PairPastGaps { pairing, mark }, firsts, seconds, out);
    *gaps = gaps_in_pairs(&firsts[..batch.count], seconds);
    batch
}

// The number of pairs in which a row is a gap.
#[inline(always)]
fn gaps_in_pairs<B: Row>(firsts: &[MuxanduMoment], seconds: &[B]) -> usize
    requires pairs { length firsts.now ≤ length seconds.now }
    ensures { result ≡ count_by (has_gap B.gap_test) (zip firsts.now seconds.now) }
{
    let mut gaps = 0;
    for (k, first) in firsts.iter().enumerate() {
        if have_gap(*first, seconds[k]) {
            gaps += 1;
        }
    }
    gaps
}
