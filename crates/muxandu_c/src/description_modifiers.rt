//! The modifiers of components, as numbers.
ghost use Rattle.std.specs.Prelude.{◌≡◌};
ghost use Rattle.muxandu_c.specs.DescriptionModifiers.{padding_numbered, number_of_padding, sign_numbered, number_of_sign};
ghost use Rattle.muxandu_c.specs.DescriptionModifiers.{name_form_numbered, number_of_name_form, case_numbered, number_of_case};
ghost use Rattle.muxandu_c.specs.DescriptionModifiers.{read_case_numbered, number_of_read_case, year_base_numbered, number_of_year_base};
ghost use Rattle.muxandu_c.specs.DescriptionModifiers.{year_range_numbered, number_of_year_range, week_rule_numbered, number_of_week_rule};
ghost use Rattle.muxandu_c.specs.DescriptionModifiers.{week_start_numbered, number_of_week_start, weekday_count_numbered, number_of_weekday_count};
ghost use Rattle.muxandu_c.specs.DescriptionModifiers.{unix_precision_numbered, number_of_unix_precision, utc_word_numbered, number_of_utc_word};
ghost use Rattle.muxandu_c.specs.DescriptionModifiers.{subsecond_digits_numbered, number_of_subsecond_digits};

use format_descriptions::{
    Case, NameForm, Padding, ReadCase, Sign, SubsecondDigits, UnixPrecision, UtcWord, WeekRule,
    WeekStart, WeekdayCount, YearBase, YearRange,
};

// The number of the filler of a number.
pub(crate) fn number_of_padding(padding: Padding) -> u8
    ensures { result ≡ number_of_padding padding }
{
    match padding {
        Padding::Zero => 0,
        Padding::Space => 1,
        Padding::Bare => 2,
    }
}

// The filler of a number, by its number.
pub(crate) fn padding_numbered(number: u8) -> Option<Padding>
    ensures { result ≡ padding_numbered number }
{
    match number {
        0 => Some(Padding::Zero),
        1 => Some(Padding::Space),
        2 => Some(Padding::Bare),
        _ => None,
    }
}

// The number of whether a number has a sign.
pub(crate) fn number_of_sign(sign: Sign) -> u8
    ensures { result ≡ number_of_sign sign }
{
    match sign {
        Sign::Automatic => 0,
        Sign::Mandatory => 1,
    }
}

// Whether a number has a sign, by its number.
pub(crate) fn sign_numbered(number: u8) -> Option<Sign>
    ensures { result ≡ sign_numbered number }
{
    match number {
        0 => Some(Sign::Automatic),
        1 => Some(Sign::Mandatory),
        _ => None,
    }
}

// The number of how much of a name is written.
pub(crate) fn number_of_name_form(name_form: NameForm) -> u8
    ensures { result ≡ number_of_name_form name_form }
{
    match name_form {
        NameForm::Long => 0,
        NameForm::Short => 1,
    }
}

// How much of a name is written, by its number.
pub(crate) fn name_form_numbered(number: u8) -> Option<NameForm>
    ensures { result ≡ name_form_numbered number }
{
    match number {
        0 => Some(NameForm::Long),
        1 => Some(NameForm::Short),
        _ => None,
    }
}

// The number of the case of the letters.
pub(crate) fn number_of_case(case: Case) -> u8
    ensures { result ≡ number_of_case case }
{
    match case {
        Case::Upper => 0,
        Case::Lower => 1,
    }
}

// The case of the letters, by its number.
pub(crate) fn case_numbered(number: u8) -> Option<Case>
    ensures { result ≡ case_numbered number }
{
    match number {
        0 => Some(Case::Upper),
        1 => Some(Case::Lower),
        _ => None,
    }
}

// The number of the case that is read.
pub(crate) fn number_of_read_case(read_case: ReadCase) -> u8
    ensures { result ≡ number_of_read_case read_case }
{
    match read_case {
        ReadCase::Same => 0,
        ReadCase::Any => 1,
    }
}

// The case that is read, by its number.
pub(crate) fn read_case_numbered(number: u8) -> Option<ReadCase>
    ensures { result ≡ read_case_numbered number }
{
    match number {
        0 => Some(ReadCase::Same),
        1 => Some(ReadCase::Any),
        _ => None,
    }
}

// The number of which year is meant.
pub(crate) fn number_of_year_base(year_base: YearBase) -> u8
    ensures { result ≡ number_of_year_base year_base }
{
    match year_base {
        YearBase::Calendar => 0,
        YearBase::IsoWeek => 1,
    }
}

// Which year is meant, by its number.
pub(crate) fn year_base_numbered(number: u8) -> Option<YearBase>
    ensures { result ≡ year_base_numbered number }
{
    match number {
        0 => Some(YearBase::Calendar),
        1 => Some(YearBase::IsoWeek),
        _ => None,
    }
}

// The number of how many digits of a year are read.
pub(crate) fn number_of_year_range(year_range: YearRange) -> u8
    ensures { result ≡ number_of_year_range year_range }
{
    match year_range {
        YearRange::Standard => 0,
        YearRange::Extended => 1,
    }
}

// How many digits of a year are read, by its number.
pub(crate) fn year_range_numbered(number: u8) -> Option<YearRange>
    ensures { result ≡ year_range_numbered number }
{
    match number {
        0 => Some(YearRange::Standard),
        1 => Some(YearRange::Extended),
        _ => None,
    }
}

// The number of how weeks are counted.
pub(crate) fn number_of_week_rule(week_rule: WeekRule) -> u8
    ensures { result ≡ number_of_week_rule week_rule }
{
    match week_rule {
        WeekRule::Iso => 0,
        WeekRule::Sunday => 1,
        WeekRule::Monday => 2,
    }
}

// How weeks are counted, by its number.
pub(crate) fn week_rule_numbered(number: u8) -> Option<WeekRule>
    ensures { result ≡ week_rule_numbered number }
{
    match number {
        0 => Some(WeekRule::Iso),
        1 => Some(WeekRule::Sunday),
        2 => Some(WeekRule::Monday),
        _ => None,
    }
}

// The number of the first day of a week.
pub(crate) fn number_of_week_start(week_start: WeekStart) -> u8
    ensures { result ≡ number_of_week_start week_start }
{
    match week_start {
        WeekStart::Sunday => 0,
        WeekStart::Monday => 1,
    }
}

// The first day of a week, by its number.
pub(crate) fn week_start_numbered(number: u8) -> Option<WeekStart>
    ensures { result ≡ week_start_numbered number }
{
    match number {
        0 => Some(WeekStart::Sunday),
        1 => Some(WeekStart::Monday),
        _ => None,
    }
}

// The number of the number of that day.
pub(crate) fn number_of_weekday_count(weekday_count: WeekdayCount) -> u8
    ensures { result ≡ number_of_weekday_count weekday_count }
{
    match weekday_count {
        WeekdayCount::FromZero => 0,
        WeekdayCount::FromOne => 1,
    }
}

// The number of that day, by its number.
pub(crate) fn weekday_count_numbered(number: u8) -> Option<WeekdayCount>
    ensures { result ≡ weekday_count_numbered number }
{
    match number {
        0 => Some(WeekdayCount::FromZero),
        1 => Some(WeekdayCount::FromOne),
        _ => None,
    }
}

// The number of the unit of a Unix timestamp.
pub(crate) fn number_of_unix_precision(unix_precision: UnixPrecision) -> u8
    ensures { result ≡ number_of_unix_precision unix_precision }
{
    match unix_precision {
        UnixPrecision::Seconds => 0,
        UnixPrecision::Milliseconds => 1,
        UnixPrecision::Microseconds => 2,
        UnixPrecision::Nanoseconds => 3,
    }
}

// The unit of a Unix timestamp, by its number.
pub(crate) fn unix_precision_numbered(number: u8) -> Option<UnixPrecision>
    ensures { result ≡ unix_precision_numbered number }
{
    match number {
        0 => Some(UnixPrecision::Seconds),
        1 => Some(UnixPrecision::Milliseconds),
        2 => Some(UnixPrecision::Microseconds),
        3 => Some(UnixPrecision::Nanoseconds),
        _ => None,
    }
}

// The number of a word for UTC.
pub(crate) fn number_of_utc_word(utc_word: UtcWord) -> u8
    ensures { result ≡ number_of_utc_word utc_word }
{
    match utc_word {
        UtcWord::Utc => 0,
        UtcWord::Gmt => 1,
        UtcWord::Zulu => 2,
    }
}

// A word for UTC, by its number.
pub(crate) fn utc_word_numbered(number: u8) -> Option<UtcWord>
    ensures { result ≡ utc_word_numbered number }
{
    match number {
        0 => Some(UtcWord::Utc),
        1 => Some(UtcWord::Gmt),
        2 => Some(UtcWord::Zulu),
        _ => None,
    }
}

// The number of how many digits of a fraction are written.
pub(crate) fn number_of_subsecond_digits(subsecond_digits: SubsecondDigits) -> u8
    ensures { result ≡ number_of_subsecond_digits subsecond_digits }
{
    match subsecond_digits {
        SubsecondDigits::OneOrMore => 0,
        SubsecondDigits::One => 1,
        SubsecondDigits::Two => 2,
        SubsecondDigits::Three => 3,
        SubsecondDigits::Four => 4,
        SubsecondDigits::Five => 5,
        SubsecondDigits::Six => 6,
        SubsecondDigits::Seven => 7,
        SubsecondDigits::Eight => 8,
        SubsecondDigits::Nine => 9,
    }
}

// How many digits of a fraction are written, by its number.
pub(crate) fn subsecond_digits_numbered(number: u8) -> Option<SubsecondDigits>
    ensures { result ≡ subsecond_digits_numbered number }
{
    match number {
        0 => Some(SubsecondDigits::OneOrMore),
        1 => Some(SubsecondDigits::One),
        2 => Some(SubsecondDigits::Two),
        3 => Some(SubsecondDigits::Three),
        4 => Some(SubsecondDigits::Four),
        5 => Some(SubsecondDigits::Five),
        6 => Some(SubsecondDigits::Six),
        7 => Some(SubsecondDigits::Seven),
        8 => Some(SubsecondDigits::Eight),
        9 => Some(SubsecondDigits::Nine),
        _ => None,
    }
}
