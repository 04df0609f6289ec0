//! The items that forms share.

use format_descriptions::{
    Component, Item, NameForm, Padding, ReadCase, Sign, SubsecondDigits, UnixPrecision, UtcWord,
    YearBase, YearRange,
};

pub(crate) const YEAR: Item = Item::Part(Component::Year(
    YearBase::Calendar,
    Sign::Automatic,
    Padding::Zero,
    YearRange::Standard,
));

pub(crate) const SHORT_YEAR: Item = Item::Part(Component::YearSince(1970));

pub(crate) const MONTH: Item = Item::Part(Component::Month(Padding::Zero));

pub(crate) const MONTH_NAME: Item = Item::Part(Component::MonthName(
    NameForm::Short,
    ReadCase::Any,
));

pub(crate) const DAY: Item = Item::Part(Component::Day(Padding::Zero));

pub(crate) const SPACED_DAY: Item = Item::Part(Component::Day(Padding::Space));

pub(crate) const BARE_DAY: Item = Item::Part(Component::Day(Padding::Bare));

pub(crate) const WEEKDAY: Item = Item::Part(Component::IgnoreWeekday(
    NameForm::Short,
    ReadCase::Same,
));

pub(crate) const HOUR: Item = Item::Part(Component::Hour(Padding::Zero));

pub(crate) const SPACED_HOUR: Item = Item::Part(Component::Hour(Padding::Space));

pub(crate) const BARE_HOUR: Item = Item::Part(Component::Hour(Padding::Bare));

pub(crate) const MINUTE: Item = Item::Part(Component::Minute(Padding::Zero));

pub(crate) const SECOND: Item = Item::Part(Component::Second(Padding::Zero));

pub(crate) const FRACTION: Item = Item::Part(Component::Subsecond(SubsecondDigits::OneOrMore));

pub(crate) const THREE_DIGITS: Item = Item::Part(Component::Subsecond(SubsecondDigits::Three));

pub(crate) const SIX_DIGITS: Item = Item::Part(Component::Subsecond(SubsecondDigits::Six));

pub(crate) const NINE_DIGITS: Item = Item::Part(Component::Subsecond(SubsecondDigits::Nine));

pub(crate) const OFFSET_HOUR: Item = Item::Part(Component::OffsetHour(
    Sign::Mandatory,
    Padding::Zero,
));

pub(crate) const OFFSET_MINUTE: Item = Item::Part(Component::OffsetMinute(Padding::Zero));

pub(crate) const UTC_WORD: Item = Item::Part(Component::OffsetWord(UtcWord::Utc, ReadCase::Same));

pub(crate) const GMT_WORD: Item = Item::Part(Component::OffsetWord(UtcWord::Gmt, ReadCase::Same));

pub(crate) const ZULU: Item = Item::Part(Component::OffsetWord(UtcWord::Zulu, ReadCase::Any));

pub(crate) const UNIX_SECOND: Item = Item::Part(Component::UnixTimestamp(
    UnixPrecision::Seconds,
    Sign::Automatic,
));

pub(crate) const UNIX_MILLISECOND: Item = Item::Part(Component::UnixTimestamp(
    UnixPrecision::Milliseconds,
    Sign::Automatic,
));

pub(crate) const UNIX_MICROSECOND: Item = Item::Part(Component::UnixTimestamp(
    UnixPrecision::Microseconds,
    Sign::Automatic,
));

pub(crate) const UNIX_NANOSECOND: Item = Item::Part(Component::UnixTimestamp(
    UnixPrecision::Nanoseconds,
    Sign::Automatic,
));
