//! Items of descriptions, as numbers that a caller keeps.
ghost use Rattle.std.specs.Prelude.{◌≡◌};
ghost use Rattle.muxandu_c.specs.DescriptionItems.{item_of, component_of, padded_component, other_component};
ghost use Rattle.muxandu_c.specs.DescriptionItems.{numbers_of_item, numbers_of_component, plain_numbers, padded_numbers};
ghost use Rattle.muxandu_c.specs.DescriptionItems.{two_numbers, four_numbers, byte_of, year_component};
ghost use Rattle.muxandu_c.specs.DescriptionItems.{year_century_component, year_last_two_component, month_name_component, weekday_name_component};
ghost use Rattle.muxandu_c.specs.DescriptionItems.{weekday_number_component, week_number_component, period_component, subsecond_component};
ghost use Rattle.muxandu_c.specs.DescriptionItems.{offset_hour_component, unix_timestamp_component, ignore_component, ignore_weekday_component};
ghost use Rattle.muxandu_c.specs.DescriptionItems.{offset_word_component, year_since_component, year_six_component};
ghost use Rattle.muxandu_c.specs.DescriptionItems.{hour_fraction_component, minute_fraction_component};

use crate::description_modifiers::{
    case_numbered, name_form_numbered, number_of_case, number_of_name_form, number_of_padding,
    number_of_read_case, number_of_sign, number_of_subsecond_digits, number_of_unix_precision,
    number_of_utc_word, number_of_week_rule, number_of_week_start, number_of_weekday_count,
    number_of_year_base, number_of_year_range, padding_numbered, read_case_numbered, sign_numbered,
    subsecond_digits_numbered, unix_precision_numbered, utc_word_numbered, week_rule_numbered,
    week_start_numbered, weekday_count_numbered, year_base_numbered, year_range_numbered,
};
use format_descriptions::{Component, Item, Padding};

/// An item of a compiled description, as muxandu_description_parse writes it. Keep it as it is: its
/// numbers can be others in a later version.
#[repr(C)]
#[derive(Clone, Copy)]
pub struct MuxanduItem {
    /// The kind of the item.
    pub kind: u8,
    /// The first modifier of a component.
    pub first: u8,
    /// The second modifier.
    pub second: u8,
    /// The third modifier.
    pub third: u8,
    /// The fourth modifier.
    pub fourth: u8,
    /// The byte, the size of a group, or the number of a component.
    pub number: usize,
}

// The item of these numbers.
pub(crate) fn item_of(item: MuxanduItem) -> Option<Item>
    ensures { result ≡ item_of item }
{
    match item.kind {
        1 => byte_of(item.number),
        2 => Some(Item::Optional(item.number)),
        3 => Some(Item::First(item.number)),
        4 => Some(Item::Or(item.number)),
        _ => match component_of(item) {
            Some(component) => Some(Item::Part(component)),
            None => None,
        },
    }
}

// A byte of this number.
fn byte_of(number: usize) -> Option<Item>
    ensures { result ≡ byte_of number }
{
    if number > 255 {
        return None;
    }
    Some(Item::Byte(number as u8))
}

// The component of these numbers.
fn component_of(item: MuxanduItem) -> Option<Component>
    ensures { result ≡ component_of item }
{
    if item.kind < 14 {
        padded_component(item.kind, padding_numbered(item.first)?)
    } else {
        other_component(item)
    }
}

// The component of this kind that has padding alone.
fn padded_component(kind: u8, padding: Padding) -> Option<Component>
    ensures { result ≡ padded_component kind padding }
{
    match kind {
        5 => Some(Component::Month(padding)),
        6 => Some(Component::Day(padding)),
        7 => Some(Component::Ordinal(padding)),
        8 => Some(Component::Hour(padding)),
        9 => Some(Component::Hour12(padding)),
        10 => Some(Component::Minute(padding)),
        11 => Some(Component::Second(padding)),
        12 => Some(Component::OffsetMinute(padding)),
        13 => Some(Component::OffsetSecond(padding)),
        _ => None,
    }
}

// The component of another kind.
fn other_component(item: MuxanduItem) -> Option<Component>
    ensures { result ≡ other_component item }
{
    match item.kind {
        14 => year_component(item),
        15 => year_century_component(item),
        16 => year_last_two_component(item),
        17 => month_name_component(item),
        18 => weekday_name_component(item),
        19 => weekday_number_component(item),
        20 => week_number_component(item),
        21 => period_component(item),
        22 => subsecond_component(item),
        23 => offset_hour_component(item),
        24 => unix_timestamp_component(item),
        25 => ignore_component(item.number),
        26 => Some(Component::End),
        27 => ignore_weekday_component(item),
        28 => Some(Component::IgnoreDigits),
        29 => offset_word_component(item),
        30 => year_since_component(item.number),
        31 => year_six_component(item),
        32 => hour_fraction_component(item),
        33 => minute_fraction_component(item),
        _ => None,
    }
}

// The component `Year` of these modifiers.
fn year_component(item: MuxanduItem) -> Option<Component>
    ensures { result ≡ year_component item }
{
    let year_base = year_base_numbered(item.first)?;
    let sign = sign_numbered(item.second)?;
    let padding = padding_numbered(item.third)?;
    let year_range = year_range_numbered(item.fourth)?;
    Some(Component::Year(year_base, sign, padding, year_range))
}

// The component `YearCentury` of these modifiers.
fn year_century_component(item: MuxanduItem) -> Option<Component>
    ensures { result ≡ year_century_component item }
{
    let year_base = year_base_numbered(item.first)?;
    let sign = sign_numbered(item.second)?;
    let padding = padding_numbered(item.third)?;
    let year_range = year_range_numbered(item.fourth)?;
    Some(Component::YearCentury(year_base, sign, padding, year_range))
}

// The component `YearLastTwo` of these modifiers.
fn year_last_two_component(item: MuxanduItem) -> Option<Component>
    ensures { result ≡ year_last_two_component item }
{
    let year_base = year_base_numbered(item.first)?;
    let padding = padding_numbered(item.second)?;
    Some(Component::YearLastTwo(year_base, padding))
}

// The component `MonthName` of these modifiers.
fn month_name_component(item: MuxanduItem) -> Option<Component>
    ensures { result ≡ month_name_component item }
{
    let name_form = name_form_numbered(item.first)?;
    let read_case = read_case_numbered(item.second)?;
    Some(Component::MonthName(name_form, read_case))
}

// The component `WeekdayName` of these modifiers.
fn weekday_name_component(item: MuxanduItem) -> Option<Component>
    ensures { result ≡ weekday_name_component item }
{
    let name_form = name_form_numbered(item.first)?;
    let read_case = read_case_numbered(item.second)?;
    Some(Component::WeekdayName(name_form, read_case))
}

// The component `WeekdayNumber` of these modifiers.
fn weekday_number_component(item: MuxanduItem) -> Option<Component>
    ensures { result ≡ weekday_number_component item }
{
    let week_start = week_start_numbered(item.first)?;
    let weekday_count = weekday_count_numbered(item.second)?;
    Some(Component::WeekdayNumber(week_start, weekday_count))
}

// The component `WeekNumber` of these modifiers.
fn week_number_component(item: MuxanduItem) -> Option<Component>
    ensures { result ≡ week_number_component item }
{
    let week_rule = week_rule_numbered(item.first)?;
    let padding = padding_numbered(item.second)?;
    Some(Component::WeekNumber(week_rule, padding))
}

// The component `Period` of these modifiers.
fn period_component(item: MuxanduItem) -> Option<Component>
    ensures { result ≡ period_component item }
{
    let case = case_numbered(item.first)?;
    let read_case = read_case_numbered(item.second)?;
    Some(Component::Period(case, read_case))
}

// The component `Subsecond` of these modifiers.
fn subsecond_component(item: MuxanduItem) -> Option<Component>
    ensures { result ≡ subsecond_component item }
{
    let subsecond_digits = subsecond_digits_numbered(item.first)?;
    Some(Component::Subsecond(subsecond_digits))
}

// The component `OffsetHour` of these modifiers.
fn offset_hour_component(item: MuxanduItem) -> Option<Component>
    ensures { result ≡ offset_hour_component item }
{
    let sign = sign_numbered(item.first)?;
    let padding = padding_numbered(item.second)?;
    Some(Component::OffsetHour(sign, padding))
}

// The component `UnixTimestamp` of these modifiers.
fn unix_timestamp_component(item: MuxanduItem) -> Option<Component>
    ensures { result ≡ unix_timestamp_component item }
{
    let unix_precision = unix_precision_numbered(item.first)?;
    let sign = sign_numbered(item.second)?;
    Some(Component::UnixTimestamp(unix_precision, sign))
}

// The component `Ignore` of this number.
fn ignore_component(number: usize) -> Option<Component>
    ensures { result ≡ ignore_component number }
{
    if number > 65_535 {
        return None;
    }
    Some(Component::Ignore(number as u16))
}

// The component `IgnoreWeekday` of these modifiers.
fn ignore_weekday_component(item: MuxanduItem) -> Option<Component>
    ensures { result ≡ ignore_weekday_component item }
{
    let name_form = name_form_numbered(item.first)?;
    let read_case = read_case_numbered(item.second)?;
    Some(Component::IgnoreWeekday(name_form, read_case))
}

// The component `OffsetWord` of these modifiers.
fn offset_word_component(item: MuxanduItem) -> Option<Component>
    ensures { result ≡ offset_word_component item }
{
    let utc_word = utc_word_numbered(item.first)?;
    let read_case = read_case_numbered(item.second)?;
    Some(Component::OffsetWord(utc_word, read_case))
}

// The component `YearSince` of this number.
fn year_since_component(number: usize) -> Option<Component>
    ensures { result ≡ year_since_component number }
{
    if number > 65_535 {
        return None;
    }
    Some(Component::YearSince(number as u16))
}

// The component `YearSix` of this modifier.
fn year_six_component(item: MuxanduItem) -> Option<Component>
    ensures { result ≡ year_six_component item }
{
    let year_base = year_base_numbered(item.first)?;
    Some(Component::YearSix(year_base))
}

// The component `HourFraction` of this modifier.
fn hour_fraction_component(item: MuxanduItem) -> Option<Component>
    ensures { result ≡ hour_fraction_component item }
{
    let subsecond_digits = subsecond_digits_numbered(item.first)?;
    Some(Component::HourFraction(subsecond_digits))
}

// The component `MinuteFraction` of this modifier.
fn minute_fraction_component(item: MuxanduItem) -> Option<Component>
    ensures { result ≡ minute_fraction_component item }
{
    let subsecond_digits = subsecond_digits_numbered(item.first)?;
    Some(Component::MinuteFraction(subsecond_digits))
}

// The numbers of an item.
pub(crate) fn numbers_of_item(item: Item) -> MuxanduItem
    ensures { result ≡ numbers_of_item item }
{
    match item {
        Item::Byte(byte) => plain_numbers(1, byte as usize),
        Item::Optional(size) => plain_numbers(2, size),
        Item::First(size) => plain_numbers(3, size),
        Item::Or(size) => plain_numbers(4, size),
        Item::Part(component) => numbers_of_component(component),
    }
}

// The numbers of an item without modifiers.
fn plain_numbers(kind: u8, number: usize) -> MuxanduItem
    ensures { result ≡ plain_numbers kind number }
{
    MuxanduItem {
        kind,
        first: 0,
        second: 0,
        third: 0,
        fourth: 0,
        number,
    }
}

// The numbers of a component with padding alone.
fn padded_numbers(kind: u8, padding: Padding) -> MuxanduItem
    ensures { result ≡ padded_numbers kind padding }
{
    two_numbers(kind, number_of_padding(padding), 0)
}

// The numbers of a component with two modifiers.
fn two_numbers(kind: u8, first: u8, second: u8) -> MuxanduItem
    ensures { result ≡ two_numbers kind first second }
{
    four_numbers(kind, first, second, 0, 0)
}

// The numbers of a component with four modifiers.
fn four_numbers(kind: u8, first: u8, second: u8, third: u8, fourth: u8) -> MuxanduItem
    ensures { result ≡ four_numbers kind first second third fourth }
{
    MuxanduItem {
        kind,
        first,
        second,
        third,
        fourth,
        number: 0,
    }
}

// The numbers of a component.
fn numbers_of_component(component: Component) -> MuxanduItem
    ensures { result ≡ numbers_of_component component }
{
    match component {
        Component::Month(padding) => padded_numbers(5, padding),
        Component::Day(padding) => padded_numbers(6, padding),
        Component::Ordinal(padding) => padded_numbers(7, padding),
        Component::Hour(padding) => padded_numbers(8, padding),
        Component::Hour12(padding) => padded_numbers(9, padding),
        Component::Minute(padding) => padded_numbers(10, padding),
        Component::Second(padding) => padded_numbers(11, padding),
        Component::OffsetMinute(padding) => padded_numbers(12, padding),
        Component::OffsetSecond(padding) => padded_numbers(13, padding),
        Component::Year(year_base, sign, padding, year_range) => four_numbers(
            14,
            number_of_year_base(year_base),
            number_of_sign(sign),
            number_of_padding(padding),
            number_of_year_range(year_range),
        ),
        Component::YearCentury(year_base, sign, padding, year_range) => four_numbers(
            15,
            number_of_year_base(year_base),
            number_of_sign(sign),
            number_of_padding(padding),
            number_of_year_range(year_range),
        ),
        Component::YearLastTwo(year_base, padding) => two_numbers(
            16,
            number_of_year_base(year_base),
            number_of_padding(padding),
        ),
        Component::MonthName(name_form, read_case) => two_numbers(
            17,
            number_of_name_form(name_form),
            number_of_read_case(read_case),
        ),
        Component::WeekdayName(name_form, read_case) => two_numbers(
            18,
            number_of_name_form(name_form),
            number_of_read_case(read_case),
        ),
        Component::WeekdayNumber(week_start, weekday_count) => two_numbers(
            19,
            number_of_week_start(week_start),
            number_of_weekday_count(weekday_count),
        ),
        Component::WeekNumber(week_rule, padding) => two_numbers(
            20,
            number_of_week_rule(week_rule),
            number_of_padding(padding),
        ),
        Component::Period(case, read_case) => two_numbers(
            21,
            number_of_case(case),
            number_of_read_case(read_case),
        ),
        Component::Subsecond(subsecond_digits) => two_numbers(
            22,
            number_of_subsecond_digits(subsecond_digits),
            0,
        ),
        Component::OffsetHour(sign, padding) => two_numbers(
            23,
            number_of_sign(sign),
            number_of_padding(padding),
        ),
        Component::UnixTimestamp(unix_precision, sign) => two_numbers(
            24,
            number_of_unix_precision(unix_precision),
            number_of_sign(sign),
        ),
        Component::Ignore(number) => plain_numbers(25, number as usize),
        Component::End => plain_numbers(26, 0),
        Component::IgnoreWeekday(name_form, read_case) => two_numbers(
            27,
            number_of_name_form(name_form),
            number_of_read_case(read_case),
        ),
        Component::IgnoreDigits => plain_numbers(28, 0),
        Component::OffsetWord(utc_word, read_case) => two_numbers(
            29,
            number_of_utc_word(utc_word),
            number_of_read_case(read_case),
        ),
        Component::YearSince(number) => plain_numbers(30, number as usize),
        Component::YearSix(year_base) => two_numbers(31, number_of_year_base(year_base), 0),
        Component::HourFraction(digits) => two_numbers(32, number_of_subsecond_digits(digits), 0),
        Component::MinuteFraction(digits) => {
            two_numbers(33, number_of_subsecond_digits(digits), 0)
        }
    }
}
