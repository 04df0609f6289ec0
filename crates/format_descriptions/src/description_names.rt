//! The names of components in descriptions.
ghost use Rattle.std.specs.Prelude.{◌≡◌};
ghost use Rattle.format_descriptions.specs.DescriptionNames.{name_at};
ghost use Rattle.format_descriptions.specs.DescriptionNames.{date_name_at, time_name_at, other_name_at};

use crate::description_words::is_word_at;

// The name of a component, in the words of descriptions.
#[derive(Clone, Copy, Debug, PartialEq, Eq)]
pub(crate) enum Name {
    Year,
    Month,
    Day,
    Ordinal,
    Weekday,
    WeekNumber,
    Hour,
    Minute,
    Period,
    Second,
    Subsecond,
    OffsetHour,
    OffsetMinute,
    OffsetSecond,
    UnixTimestamp,
    Ignore,
    End,
}

// The name at the front of a text.
#[tactic(auto, unfolding(crate::specs::DescriptionNames::name_at))]
pub(crate) fn name_at(text: &[u8]) -> Option<Name>
    ensures { result ≡ name_at text.now }
{
    if let Some(name) = date_name_at(text) {
        return Some(name);
    }
    if let Some(name) = time_name_at(text) {
        return Some(name);
    }
    other_name_at(text)
}

// The name of a component of a date.
#[tactic(auto, unfolding(crate::specs::DescriptionNames::date_name_at))]
fn date_name_at(text: &[u8]) -> Option<Name>
    ensures { result ≡ date_name_at text.now }
{
    if is_word_at(b"year", text) {
        Some(Name::Year)
    } else if is_word_at(b"month", text) {
        Some(Name::Month)
    } else if is_word_at(b"day", text) {
        Some(Name::Day)
    } else if is_word_at(b"ordinal", text) {
        Some(Name::Ordinal)
    } else if is_word_at(b"weekday", text) {
        Some(Name::Weekday)
    } else if is_word_at(b"week_number", text) {
        Some(Name::WeekNumber)
    } else {
        None
    }
}

// The name of a component of a time of day.
#[tactic(auto, unfolding(crate::specs::DescriptionNames::time_name_at))]
fn time_name_at(text: &[u8]) -> Option<Name>
    ensures { result ≡ time_name_at text.now }
{
    if is_word_at(b"hour", text) {
        Some(Name::Hour)
    } else if is_word_at(b"minute", text) {
        Some(Name::Minute)
    } else if is_word_at(b"period", text) {
        Some(Name::Period)
    } else if is_word_at(b"second", text) {
        Some(Name::Second)
    } else if is_word_at(b"subsecond", text) {
        Some(Name::Subsecond)
    } else {
        None
    }
}

// The name of a component of an offset, or of another one.
#[tactic(auto, unfolding(crate::specs::DescriptionNames::other_name_at))]
fn other_name_at(text: &[u8]) -> Option<Name>
    ensures { result ≡ other_name_at text.now }
{
    if is_word_at(b"offset_hour", text) {
        Some(Name::OffsetHour)
    } else if is_word_at(b"offset_minute", text) {
        Some(Name::OffsetMinute)
    } else if is_word_at(b"offset_second", text) {
        Some(Name::OffsetSecond)
    } else if is_word_at(b"unix_timestamp", text) {
        Some(Name::UnixTimestamp)
    } else if is_word_at(b"ignore", text) {
        Some(Name::Ignore)
    } else if is_word_at(b"end", text) {
        Some(Name::End)
    } else {
        None
    }
}
