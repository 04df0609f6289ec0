//! The modifiers of descriptions. The default of a modifier has no text.
ghost use Rattle.std.specs.Prelude.{◌≡◌};
ghost use Rattle.format_descriptions.specs.ModifierTexts.{padding_modifier, sign_modifier, case_modifier};
ghost use Rattle.format_descriptions.specs.ModifierTexts.{read_case_modifier, count_modifier, base_modifier};
ghost use Rattle.format_descriptions.specs.ModifierTexts.{range_modifier, digits_modifier, precision_modifier};
ghost use Rattle.format_descriptions.specs.ModifierTexts.{start_modifier, rule_modifier, month_modifier};
ghost use Rattle.format_descriptions.specs.ModifierTexts.{weekday_modifier};

use crate::{
    Case, NameForm, Padding, ReadCase, Sign, SubsecondDigits, UnixPrecision, WeekRule, WeekStart,
    WeekdayCount, YearBase, YearRange,
};

impl Padding {
    // The modifier `padding`.
    pub(crate) fn modifier(self) -> &'static [u8]
        ensures { result.now ≡ padding_modifier self }
    {
        match self {
            Padding::Zero => b"",
            Padding::Space => b" padding:space",
            Padding::Bare => b" padding:none",
        }
    }
}

impl Sign {
    // The modifier `sign`.
    pub(crate) fn modifier(self) -> &'static [u8]
        ensures { result.now ≡ sign_modifier self }
    {
        match self {
            Sign::Automatic => b"",
            Sign::Mandatory => b" sign:mandatory",
        }
    }
}

impl Case {
    // The modifier `case`.
    pub(crate) fn modifier(self) -> &'static [u8]
        ensures { result.now ≡ case_modifier self }
    {
        match self {
            Case::Upper => b"",
            Case::Lower => b" case:lower",
        }
    }
}

impl ReadCase {
    // The modifier `case_sensitive`.
    pub(crate) fn modifier(self) -> &'static [u8]
        ensures { result.now ≡ read_case_modifier self }
    {
        match self {
            ReadCase::Same => b"",
            ReadCase::Any => b" case_sensitive:false",
        }
    }
}

impl WeekdayCount {
    // The modifier `one_indexed`.
    pub(crate) fn modifier(self) -> &'static [u8]
        ensures { result.now ≡ count_modifier self }
    {
        match self {
            WeekdayCount::FromOne => b"",
            WeekdayCount::FromZero => b" one_indexed:false",
        }
    }
}

impl YearBase {
    // The modifier `base`.
    pub(crate) fn modifier(self) -> &'static [u8]
        ensures { result.now ≡ base_modifier self }
    {
        match self {
            YearBase::Calendar => b"",
            YearBase::IsoWeek => b" base:iso_week",
        }
    }
}

impl YearRange {
    // The modifier `range`.
    pub(crate) fn modifier(self) -> &'static [u8]
        ensures { result.now ≡ range_modifier self }
    {
        match self {
            YearRange::Extended => b"",
            YearRange::Standard => b" range:standard",
        }
    }
}

impl SubsecondDigits {
    // The modifier `digits`.
    pub(crate) fn modifier(self) -> &'static [u8]
        ensures { result.now ≡ digits_modifier self }
    {
        match self {
            SubsecondDigits::OneOrMore => b"",
            SubsecondDigits::One => b" digits:1",
            SubsecondDigits::Two => b" digits:2",
            SubsecondDigits::Three => b" digits:3",
            SubsecondDigits::Four => b" digits:4",
            SubsecondDigits::Five => b" digits:5",
            SubsecondDigits::Six => b" digits:6",
            SubsecondDigits::Seven => b" digits:7",
            SubsecondDigits::Eight => b" digits:8",
            SubsecondDigits::Nine => b" digits:9",
        }
    }
}

impl UnixPrecision {
    // The modifier `precision`.
    pub(crate) fn modifier(self) -> &'static [u8]
        ensures { result.now ≡ precision_modifier self }
    {
        match self {
            UnixPrecision::Seconds => b"",
            UnixPrecision::Milliseconds => b" precision:millisecond",
            UnixPrecision::Microseconds => b" precision:microsecond",
            UnixPrecision::Nanoseconds => b" precision:nanosecond",
        }
    }
}

impl WeekStart {
    // The modifier `repr`.
    pub(crate) fn modifier(self) -> &'static [u8]
        ensures { result.now ≡ start_modifier self }
    {
        match self {
            WeekStart::Sunday => b" repr:sunday",
            WeekStart::Monday => b" repr:monday",
        }
    }
}

impl WeekRule {
    // The modifier `repr`.
    pub(crate) fn modifier(self) -> &'static [u8]
        ensures { result.now ≡ rule_modifier self }
    {
        match self {
            WeekRule::Iso => b"",
            WeekRule::Sunday => b" repr:sunday",
            WeekRule::Monday => b" repr:monday",
        }
    }
}

impl NameForm {
    // The modifier `repr` of the name of a month.
    pub(crate) fn month_modifier(self) -> &'static [u8]
        ensures { result.now ≡ month_modifier self }
    {
        match self {
            NameForm::Long => b" repr:long",
            NameForm::Short => b" repr:short",
        }
    }

    // The modifier `repr` of the name of a day of the week.
    pub(crate) fn weekday_modifier(self) -> &'static [u8]
        ensures { result.now ≡ weekday_modifier self }
    {
        match self {
            NameForm::Long => b"",
            NameForm::Short => b" repr:short",
        }
    }
}
