//! Why a text is no description, why items have no text, and which part of a text is at fault.
ghost use Rattle.std.specs.Prelude.{◌≡◌};
ghost use Rattle.muxandu_c.specs.DescriptionReasons.{reason_of_fault, reason_of_item_fault, reason_of_field};

use format_descriptions::{DescriptionFault, Field, ItemFault};

/// The number of a reason, or 0 for none.
pub type MuxanduReason = u32;

/// The reason of an error of a description, or the part at fault of a text that it reads. Later
/// versions may add reasons.
#[derive(Clone, Copy, Drop)]
pub enum Reason {
    /// A `[` without its `]`.
    NoEnd = 1,
    /// A `[` that no name follows.
    NoName = 2,
    /// A `[` inside the brackets of a component.
    NestedBracket = 3,
    /// A name of no component.
    UnknownComponent = 4,
    /// A name that is no modifier of its component.
    UnknownModifier = 5,
    /// A value that the modifier does not have.
    WrongValue = 6,
    /// A component without a modifier that it needs, such as the count of `ignore`.
    MissingModifier = 7,
    /// A backslash before another byte than `[`, `]` and a backslash.
    WrongEscape = 8,
    /// An `optional` or `first` without a description in brackets.
    NoGroup = 9,
    /// Something else than a description in brackets after `optional` or `first`.
    WrongGroup = 10,
    /// More than 32 groups inside each other.
    TooDeep = 11,
    /// An item, or its text, for which the caller has no room.
    NoRoom = 12,
    /// A component that has no name in the language of descriptions.
    NoText = 13,
    /// The count 0 of `ignore`.
    NoCount = 14,
    /// A `]` in a group, for which version 1 has no text.
    NoEscape = 15,
    /// A group in place of another that is not there.
    NoFirst = 16,
    /// A group of more items than the description, or the group around it, has.
    PastEnd = 17,
    /// The year, -999999 to 999999.
    Year = 18,
    /// The year without its last two digits.
    YearCentury = 19,
    /// The last two digits of the year.
    YearLastTwo = 20,
    /// The year of the ISO week.
    IsoYear = 21,
    /// The year of the ISO week without its last two digits.
    IsoYearCentury = 22,
    /// The last two digits of the year of the ISO week.
    IsoYearLastTwo = 23,
    /// The month, 1 to 12.
    Month = 24,
    /// The day of the month, 1 to 31.
    Day = 25,
    /// The day of the year, 1 to 366.
    Ordinal = 26,
    /// The day of the week.
    Weekday = 27,
    /// The ISO week, 1 to 53.
    IsoWeek = 28,
    /// The week by the Sundays of the year, 0 to 53.
    SundayWeek = 29,
    /// The week by the Mondays of the year, 0 to 53.
    MondayWeek = 30,
    /// The hour of the day, 0 to 23.
    Hour = 31,
    /// The hour on a clock of 12 hours, 1 to 12.
    Hour12 = 32,
    /// The half of the day.
    Period = 33,
    /// The minute, 0 to 59.
    Minute = 34,
    /// The second, 0 to 59.
    Second = 35,
    /// The fraction of the second.
    Subsecond = 36,
    /// The hours of the offset, -25 to 25.
    OffsetHour = 37,
    /// The minutes of the offset, 0 to 59.
    OffsetMinute = 38,
    /// The seconds of the offset, 0 to 59.
    OffsetSecond = 39,
    /// The Unix time in seconds, -31619087596800 to 31494784780799.
    UnixSecond = 40,
    /// The Unix time in milliseconds, -31619087596800000 to 31494784780799999.
    UnixMillisecond = 41,
    /// The Unix time in microseconds, -31619087596800000000 to
    /// 31494784780799999999.
    UnixMicrosecond = 42,
    /// The Unix time in nanoseconds, -31619087596800000000000 to
    /// 31494784780799999999999.
    UnixNanosecond = 43,
    /// A file of a time zone that ends before the end of a header, of a block or of its rule.
    FileLength = 44,
    /// A header of a file of a time zone that does not begin with `TZif`.
    FileMagic = 45,
    /// A version of a file of a time zone that is none of 1 to 4, or another one in its second
    /// header.
    FileVersion = 46,
    /// A file of a time zone without a kind of local time, or without an abbreviation.
    FileCount = 47,
    /// An offset of a kind of local time that is out of range.
    FileOffset = 48,
    /// A mark of daylight saving time that is neither 0 nor 1.
    FileDaylight = 49,
    /// An abbreviation that begins past the end of their list.
    FileDesignation = 50,
    /// A list of abbreviations that does not end with a zero byte.
    FileNames = 51,
    /// A transition to a kind of local time that the file does not have.
    FileIndex = 52,
    /// A rule in a file that does not begin with a new line.
    FileFooter = 53,
    /// A text without a name where a rule has one.
    RuleName = 54,
    /// A text without a digit where a rule has a number.
    RuleDigit = 55,
    /// A number of a rule with too few digits or too many, or out of range.
    RuleRange = 56,
    /// Another byte than the one that must follow in a rule, or a byte after it.
    RuleByte = 57,
    /// A transition that is out of range, or does not follow the one before it.
    ZoneTransition = 58,
    /// A rule that overlaps itself in some year, or does not follow the last transition.
    ZoneRule = 59,
    /// More than 512 transitions of a time zone.
    ZoneSize = 60,
    /// A header of a file of a time zone that counts leap seconds, which Unix time has not.
    FileLeapSeconds = 61,
}

// The reason of a text that is no description.
pub(crate) fn reason_of_fault(fault: DescriptionFault) -> u32
    ensures { result ≡ reason_of_fault fault }
{
    match fault {
        DescriptionFault::NoEnd => Reason::NoEnd as u32,
        DescriptionFault::NoName => Reason::NoName as u32,
        DescriptionFault::NestedBracket => Reason::NestedBracket as u32,
        DescriptionFault::UnknownComponent => Reason::UnknownComponent as u32,
        DescriptionFault::UnknownModifier => Reason::UnknownModifier as u32,
        DescriptionFault::WrongValue => Reason::WrongValue as u32,
        DescriptionFault::MissingModifier => Reason::MissingModifier as u32,
        DescriptionFault::WrongEscape => Reason::WrongEscape as u32,
        DescriptionFault::NoGroup => Reason::NoGroup as u32,
        DescriptionFault::WrongGroup => Reason::WrongGroup as u32,
        DescriptionFault::TooDeep => Reason::TooDeep as u32,
        DescriptionFault::NoRoom => Reason::NoRoom as u32,
    }
}

// The reason of items that have no text.
pub(crate) fn reason_of_item_fault(fault: ItemFault) -> u32
    ensures { result ≡ reason_of_item_fault fault }
{
    match fault {
        ItemFault::NoName => Reason::NoText as u32,
        ItemFault::NoCount => Reason::NoCount as u32,
        ItemFault::NoEscape => Reason::NoEscape as u32,
        ItemFault::NoFirst => Reason::NoFirst as u32,
        ItemFault::PastEnd => Reason::PastEnd as u32,
        ItemFault::TooDeep => Reason::TooDeep as u32,
        ItemFault::NoRoom => Reason::NoRoom as u32,
    }
}

// The reason of a part of a value.
pub(crate) fn reason_of_field(field: Field) -> u32
    ensures { result ≡ reason_of_field field }
{
    match field {
        Field::Year => Reason::Year as u32,
        Field::YearCentury => Reason::YearCentury as u32,
        Field::YearLastTwo => Reason::YearLastTwo as u32,
        Field::IsoYear => Reason::IsoYear as u32,
        Field::IsoYearCentury => Reason::IsoYearCentury as u32,
        Field::IsoYearLastTwo => Reason::IsoYearLastTwo as u32,
        Field::Month => Reason::Month as u32,
        Field::Day => Reason::Day as u32,
        Field::Ordinal => Reason::Ordinal as u32,
        Field::Weekday => Reason::Weekday as u32,
        Field::IsoWeek => Reason::IsoWeek as u32,
        Field::SundayWeek => Reason::SundayWeek as u32,
        Field::MondayWeek => Reason::MondayWeek as u32,
        Field::Hour => Reason::Hour as u32,
        Field::Hour12 => Reason::Hour12 as u32,
        Field::Period => Reason::Period as u32,
        Field::Minute => Reason::Minute as u32,
        Field::Second => Reason::Second as u32,
        Field::Subsecond => Reason::Subsecond as u32,
        Field::OffsetHour => Reason::OffsetHour as u32,
        Field::OffsetMinute => Reason::OffsetMinute as u32,
        Field::OffsetSecond => Reason::OffsetSecond as u32,
        Field::UnixSecond => Reason::UnixSecond as u32,
        Field::UnixMillisecond => Reason::UnixMillisecond as u32,
        Field::UnixMicrosecond => Reason::UnixMicrosecond as u32,
        Field::UnixNanosecond => Reason::UnixNanosecond as u32,
    }
}
