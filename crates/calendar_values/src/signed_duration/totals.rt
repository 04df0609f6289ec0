//! Sums of the durations that an iterator gives.
ghost use Rattle.std.specs.Prelude.{◌≡◌, ⊤, List, ℤ, pos, ◌+ℤ◌};
ghost use Rattle.std.specs.Iterator.{Drains, HoldsAlong, IsFinite};
ghost use Rattle.std.specs.List.{fold};
ghost use Rattle.calendar_values.specs.Durations.{IsDuration};

use crate::SignedDuration;
use std::iter::Sum;

impl Sum<SignedDuration> for SignedDuration {
    ghost can_sum = { λ durations. IsDuration (fold ◌+ℤ◌ (pos 0) durations) };

    ghost sum_gives = { λ durations sum. sum ≡ fold ◌+ℤ◌ (pos 0) durations };

    fn sum<I: Iterator<Item = SignedDuration>>(durations: I) -> SignedDuration {
        total(durations)
    }
}

impl<'a> Sum<&'a SignedDuration> for SignedDuration {
    ghost can_sum = { λ durations. IsDuration (fold (λ sum x. sum +ℤ x.now) (pos 0) durations) };

    ghost sum_gives = { λ durations sum.
        sum ≡ fold (λ sum x. sum +ℤ x.now) (pos 0) durations };

    fn sum<I: Iterator<Item = &'a SignedDuration>>(durations: I) -> SignedDuration {
        total_of_references(durations)
    }
}

// The sum of durations, each partial sum in range.
fn total<I: Iterator<Item = SignedDuration>>(mut durations: I) -> SignedDuration
    requires can { I.can_next durations }
    requires finite { IsFinite (I.remaining durations) }
    requires fits { HoldsAlong I.next_gives durations (λ xs.
        IsDuration (fold ◌+ℤ◌ (pos 0) xs)) }
    ensures { (xs : List _) × (⊤ → Drains I.next_gives durations xs)
        × (result ≡ fold ◌+ℤ◌ (pos 0) xs) }
{
    let mut sum = SignedDuration::ZERO;
    while let Some(duration) = durations.next() {
        sum = sum + duration;
    }
    sum
}

// The same of references to durations.
fn total_of_references<'a, I: Iterator<Item = &'a SignedDuration>>(
    mut durations: I,
) -> SignedDuration
    requires can { I.can_next durations }
    requires finite { IsFinite (I.remaining durations) }
    requires fits { HoldsAlong I.next_gives durations (λ xs.
        IsDuration (fold (λ sum x. sum +ℤ x.now) (pos 0) xs)) }
    ensures { (xs : List _) × (⊤ → Drains I.next_gives durations xs)
        × (result ≡ fold (λ sum x. sum +ℤ x.now) (pos 0) xs) }
{
    let mut sum = SignedDuration::ZERO;
    while let Some(duration) = durations.next() {
        sum = sum + *duration;
    }
    sum
}
