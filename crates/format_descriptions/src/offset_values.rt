//! The offset that the parts of a text name.
ghost use Rattle.std.specs.Prelude.{◌≡◌, ℤ, IfOk, IsTrue, Ok};
ghost use Rattle.calendar_values.specs.Offsets.{IsOffset};
ghost use Rattle.format_descriptions.specs.OffsetValues.{or_false, offset_at, offset_of_parts};
ghost use Rattle.format_descriptions.specs.OffsetValues.{tells_offset, HasOffsetParts};

use crate::clock_values::or_zero;
use crate::parts::signed;
use crate::{Field, Parts, ValueRefusal};
use calendar_values::UtcOffset;

impl Parts {
    /// The offset of these parts: its hours with their sign, which holds for `-00:30` too. Minutes
    /// or seconds that the text does not give are 0. Fails with `Missing` without the hours, and
    /// with `Wrong` for the first part out of range.
    ///
    /// ```
    /// use format_descriptions::{Component, Item, Padding, Sign};
    /// let items = [Item::Part(Component::OffsetHour(Sign::Mandatory, Padding::Zero))];
    /// let parts = format_descriptions::parse(&items, b"-05");
    /// assert_eq!(rt; parts.map(|parts| parts.offset()), Ok(Ok(UtcOffset::from_hms(-5, 0, 0)?)));
    /// ```
    pub fn offset(&self) -> Result<UtcOffset, ValueRefusal>
        ensures equation { result ≡ offset_of_parts self.now }
        ensures value { IfOk result (λ offset. HasOffsetParts self.now offset) }
        ensures only { (offset : ℤ) → IsOffset offset → IsTrue (tells_offset self.now) →
            HasOffsetParts self.now offset → result ≡ Ok offset }
    {
        named_offset(self)
    }
}

// The same.
#[tactic(auto, unfolding(crate::specs::OffsetValues::offset_of_parts))]
fn named_offset(parts: &Parts) -> Result<UtcOffset, ValueRefusal>
    ensures { result ≡ offset_of_parts parts.now }
{
    match parts.offset_hour {
        Some(hour) => offset_at(parts, hour),
        None => Err(ValueRefusal::Missing(Field::OffsetHour)),
    }
}

// The offset of this number of hours.
#[tactic(auto, unfolding(crate::specs::OffsetValues::offset_at))]
fn offset_at(parts: &Parts, hour: u32) -> Result<UtcOffset, ValueRefusal>
    ensures { result ≡ offset_at parts.now hour }
{
    let minute = or_zero(parts.offset_minute);
    let second = or_zero(parts.offset_second);
    if hour > 25 {
        return Err(ValueRefusal::Wrong(Field::OffsetHour));
    }
    if minute > 59 {
        return Err(ValueRefusal::Wrong(Field::OffsetMinute));
    }
    if second > 59 {
        return Err(ValueRefusal::Wrong(Field::OffsetSecond));
    }
    let seconds = signed(or_false(parts.is_west), hour * 3_600 + minute * 60 + second);
    match UtcOffset::from_whole_seconds(seconds) {
        Ok(offset) => Ok(offset),
        Err(_) => Err(ValueRefusal::Wrong(Field::OffsetHour)),
    }
}

// A choice that is false where it is not known.
fn or_false(known: Option<bool>) -> bool
    ensures { result ≡ or_false known }
{
    match known {
        Some(choice) => choice,
        None => false,
    }
}
