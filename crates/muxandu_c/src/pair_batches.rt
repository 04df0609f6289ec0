//! Many values in one call over two columns.
ghost use Rattle.std.specs.Prelude.{◌≡◌, ◌≤◌, ◌++◌, length, drop, Result};
ghost use Rattle.std.specs.List.{zip};
ghost use Rattle.muxandu_c.specs.Batches.{values_of, status_of_items};
ghost use Rattle.muxandu_c.specs.EachBatches.{written_each, status_of_each, count_of_values};
ghost use Rattle.muxandu_c.specs.PairBatches.{of_pair, pair_values, pair_status, pairs_with_rooms, pair_room_status};
ghost use Rattle.muxandu_c.specs.declared.refused.Refused.{Refused};

use crate::batches::stop_at;
use crate::each_batches::{count_of, put_value};
use crate::refused::{Refused, status_of};
use crate::values::MuxanduBatch;

// What an item of one column and an item of another lead to: a value, or an error.
pub(crate) trait Pairing<A, B, C>: Copy {
    /// The value of two items, or why they are refused.
    ghost value_of: { Self → A → B → Result C Refused };

    fn pair(self, first: A, second: B) -> Result<C, Refused>
        ensures { result ≡ value_of self first second };
}

// The values of pairs, up to the first that is refused.
#[inline(always)]
pub(crate) fn pair_all<A: Copy, B: Copy, C: Copy, P: Pairing<A, B, C>>(
    pairing: P,
    firsts: &[A],
    seconds: &[B],
    out: &mut [C],
) -> MuxanduBatch
    ensures count { result.count ≡
        length (pair_values (P.value_of pairing) out.old firsts.now seconds.now) }
    ensures status { result.status ≡
        pair_status (P.value_of pairing) out.old firsts.now seconds.now }
    ensures written { out.new ≡
        pair_values (P.value_of pairing) out.old firsts.now seconds.now
        ++ drop result.count out.old }
{
    if out.len() < firsts.len() || seconds.len() < firsts.len() {
        return stop_at(0, Refused::Buffer);
    }
    fill_pairs(pairing, firsts, seconds, out)
}

#[inline(always)]
fn fill_pairs<A: Copy, B: Copy, C: Copy, P: Pairing<A, B, C>>(
    pairing: P,
    firsts: &[A],
    seconds: &[B],
    out: &mut [C],
) -> MuxanduBatch
    requires room { length firsts.now ≤ length out.old }
    requires pairs { length firsts.now ≤ length seconds.now }
    ensures count { result.count ≡
        length (values_of (of_pair (P.value_of pairing)) (zip firsts.now seconds.now)) }
    ensures status { result.status ≡
        status_of_items (of_pair (P.value_of pairing)) (zip firsts.now seconds.now) }
    ensures written { out.new ≡
        values_of (of_pair (P.value_of pairing)) (zip firsts.now seconds.now)
        ++ drop result.count out.old }
{
    for (k, first) in firsts.iter().enumerate() {
        match pairing.pair(*first, seconds[k]) {
            Ok(value) => out[k] = value,
            Err(refused) => return stop_at(k, refused),
        }
    }
    MuxanduBatch {
        count: firsts.len(),
        status: 0,
    }
}

// The value and the status of each pair.
#[inline(always)]
pub(crate) fn pair_each<A: Copy, B: Copy, C: Copy, P: Pairing<A, B, C>>(
    pairing: P,
    firsts: &[A],
    seconds: &[B],
    out: &mut [C],
    statuses: &mut [u32],
) -> MuxanduBatch
    ensures count { result.count ≡ count_of_values (of_pair (P.value_of pairing))
        (pairs_with_rooms out.old statuses.old firsts.now seconds.now) }
    ensures status { result.status ≡
        pair_room_status out.old statuses.old firsts.now seconds.now }
    ensures written { out.new ≡ written_each (of_pair (P.value_of pairing))
        (pairs_with_rooms out.old statuses.old firsts.now seconds.now) out.old }
    ensures statuses { let gone = pairs_with_rooms out.old statuses.old firsts.now seconds.now in
        statuses.new ≡ status_of_each (of_pair (P.value_of pairing)) gone
        ++ drop (length gone) statuses.old }
{
    if statuses.len() < firsts.len() {
        return stop_at(0, Refused::Buffer);
    }
    if out.len() < firsts.len() || seconds.len() < firsts.len() {
        return stop_at(0, Refused::Buffer);
    }
    MuxanduBatch {
        count: fill_each_pair(pairing, firsts, seconds, out, statuses),
        status: 0,
    }
}

#[inline(always)]
fn fill_each_pair<A: Copy, B: Copy, C: Copy, P: Pairing<A, B, C>>(
    pairing: P,
    firsts: &[A],
    seconds: &[B],
    out: &mut [C],
    statuses: &mut [u32],
) -> usize
    requires room { length firsts.now ≤ length out.old }
    requires pairs { length firsts.now ≤ length seconds.now }
    requires statuses_room { length firsts.now ≤ length statuses.old }
    ensures count { result ≡
        count_of_values (of_pair (P.value_of pairing)) (zip firsts.now seconds.now) }
    ensures written { out.new ≡
        written_each (of_pair (P.value_of pairing)) (zip firsts.now seconds.now) out.old }
    ensures statuses { let gone = zip firsts.now seconds.now in
        statuses.new ≡ status_of_each (of_pair (P.value_of pairing)) gone
        ++ drop (length gone) statuses.old }
{
    let mut count = 0;
    for (k, first) in firsts.iter().enumerate() {
        let answer = pairing.pair(*first, seconds[k]);
        put_value(answer, &mut out[k]);
        statuses[k] = status_of(answer);
        count += count_of(answer);
    }
    count
}
