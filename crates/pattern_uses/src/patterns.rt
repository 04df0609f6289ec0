//! Texts by a pattern of the program's own.
ghost use Rattle.std.specs.Prelude.{◌≡◌, ◌==◌, ◌-◌, ◌∷◌, [], ℕ, List, Ok, Err, Some, IfSome, IfNone, length, true, false, unsigned_abs};
ghost use Rattle.std.specs.List.{HoldsAt};
ghost use Rattle.std.specs.Result.{result_map_both};
ghost use Rattle.calendar_values.specs.Texts.{date_text};
ghost use Rattle.offset_times.specs.Local.{instant_of};
ghost use Rattle.format_descriptions.specs.ClockValues.{HasTimeParts};
ghost use Rattle.format_descriptions.specs.DateTimeValues.{IsLeapStandIn};
ghost use Rattle.format_descriptions.specs.Descriptions.{items_of_description};
ghost use Rattle.format_descriptions.specs.InstantValues.{HasInstantParts};
ghost use Rattle.format_descriptions.specs.Iso8601.{iso8601_form, iso8601_date_items, iso8601_time_items};
ghost use Rattle.format_descriptions.specs.Known.{date_items};
ghost use Rattle.format_descriptions.specs.Read.{items_at, no_parts};
ghost use Rattle.format_descriptions.specs.Rfc2822.{mail_parts};
ghost use Rattle.format_descriptions.specs.Values.{HasDateParts};
ghost use Rattle.format_descriptions.specs.WellKnown.{rfc2822_items};
ghost use Rattle.format_descriptions.specs.Written.{described_text};
ghost use Rattle.format_descriptions.specs.declared.component.Component.TheVariants.{Day, Month, YearSince};
ghost use Rattle.format_descriptions.specs.declared.item.Item.TheVariants.{Byte, Part};
ghost use Rattle.format_descriptions.specs.declared.modifiers.Padding.TheVariants.{Zero};
ghost use Rattle.format_descriptions.specs.declared.description_steps.DescriptionVersion.TheVariants.{Two};
ghost use Rattle.format_descriptions.specs.declared.item.Item.{Item};
ghost use Rattle.format_descriptions.specs.declared.parts.Parts.{Parts};

use calendar_values::{Date, Text, Time, UtcOffset};
use format_descriptions::laws::displays_are_descriptions;
use format_descriptions::{
    Component, DescriptionFault, DescriptionVersion, Iso8601, Item, Padding, Parts, Sign, YearBase,
    YearRange, format, format_iso8601, format_rfc2822, parse, parse_description,
    parse_iso8601_date, parse_iso8601_time, parse_rfc2822,
};
use offset_times::OffsetDateTime;
use stamp_times::Timestamp;

/// The heading of a day in a diary: what `Display` writes.
pub fn heading(day: Date) -> Option<Text>
    ensures { IfSome result (λ text. text ≡ date_text day) }
{
    displays_are_descriptions();
    let items = [
        Item::Part(Component::Year(
            YearBase::Calendar,
            Sign::Automatic,
            Padding::Zero,
            YearRange::Extended,
        )),
        Item::Byte(b'-'),
        Item::Part(Component::Month(Padding::Zero)),
        Item::Byte(b'-'),
        Item::Part(Component::Day(Padding::Zero)),
    ];
    format(&items, day, Time::MIDNIGHT, UtcOffset::UTC)
}

/// The parts of such a heading, or the place of its fault.
pub fn parts_of_heading(heading: &[u8]) -> Result<Parts, usize>
    ensures { result ≡ result_map_both (λ p. p) (λ left. length heading.now - left)
        (items_at date_items heading.now no_parts) }
{
    let items = [
        Item::Part(Component::Year(
            YearBase::Calendar,
            Sign::Automatic,
            Padding::Zero,
            YearRange::Extended,
        )),
        Item::Byte(b'-'),
        Item::Part(Component::Month(Padding::Zero)),
        Item::Byte(b'-'),
        Item::Part(Component::Day(Padding::Zero)),
    ];
    parse(&items, heading)
}

/// The date of a mail's header, by the offset of the mail. None of a year before 1900 or after
/// 9999.
pub fn mail_date(at: OffsetDateTime) -> Option<Text>
    ensures { IfSome result (λ text. text ≡ described_text rfc2822_items at) }
{
    format_rfc2822(at)
}

/// The parts of the date of a mail's header. None if the text is not written so.
pub fn parts_of_mail_date(text: &[u8]) -> Option<Parts>
    ensures { IfSome result (λ parts. mail_parts text.now ≡ Ok parts) }
{
    parse_rfc2822(text).ok()
}

/// The parts of a day such as `17/06/09`, of a year from 1969 to 2068. None if the text is not
/// written so.
pub fn parts_of_short_day(text: &[u8]) -> Option<Parts>
    ensures read { IfSome result (λ parts. items_at (Part (YearSince 1969) ∷ Byte 47 ∷
        Part (Month Zero) ∷ Byte 47 ∷ Part (Day Zero) ∷ []) text.now no_parts ≡ Ok parts) }
{
    let items = [
        Item::Part(Component::YearSince(1969)),
        Item::Byte(b'/'),
        Item::Part(Component::Month(Padding::Zero)),
        Item::Byte(b'/'),
        Item::Part(Component::Day(Padding::Zero)),
    ];
    parse(&items, text).ok()
}

/// Why a pattern that a user wrote is none, in a room for 64 items. None if it is one.
pub fn fault_of_pattern(pattern: &str) -> Option<DescriptionFault>
    ensures fault { IfSome result (λ fault.
        (left : ℕ) × (items_of_description Two 64 pattern.now ≡ Err (fault, left))) }
    ensures none { IfNone result
        ((items : List Item) × (items_of_description Two 64 pattern.now ≡ Ok items)) }
{
    let mut room = [Item::Byte(0); 64];
    match parse_description(DescriptionVersion::Two, pattern.as_bytes(), &mut room) {
        Ok(_) => None,
        Err(refusal) => Some(refusal.fault),
    }
}

/// The first item of a pattern that a user wrote, in a room for 64 items. None if it has none, or
/// if it is no pattern.
pub fn first_of_pattern(pattern: &str) -> Option<Item>
    ensures { IfSome result (λ first. (items : List Item) ×
        (items_of_description Two 64 pattern.now ≡ Ok items) ×
        HoldsAt (λ item. item ≡ first) items 0) }
{
    let mut room = [Item::Byte(0); 64];
    match parse_description(DescriptionVersion::Two, pattern.as_bytes(), &mut room) {
        Ok(count) => room[..count].first().copied(),
        Err(_) => None,
    }
}

/// The timestamp of a text that has counts of Unix time by a pattern. None if the text is not
/// written so, or if its counts are not those of one instant.
pub fn timestamp_by(items: &[Item], text: &[u8]) -> Option<Timestamp>
    ensures { IfSome result (λ at. (parts : Parts) ×
        (items_at items.now text.now no_parts ≡ Ok parts) × HasInstantParts parts at) }
{
    let Ok(parts) = parse(items, text) else {
        return None;
    };
    parts.timestamp().ok()
}

/// The instant of the date of a mail's header, and whether it is a leap second. None if the text is
/// not written so, or if it is no date-time.
pub fn instant_of_mail(text: &[u8]) -> Option<(OffsetDateTime, bool)>
    ensures { IfSome result (λ read. read.1 ≡ true → IsLeapStandIn (instant_of read.0)) }
{
    let Ok(parts) = parse_rfc2822(text) else {
        return None;
    };
    match parts.leap_date_time() {
        Ok(read) => Some(read),
        Err(_) => None,
    }
}

/// The text of a date-time in a form of ISO 8601. None if the form has none for it.
pub fn text_in_form(form: Iso8601, at: OffsetDateTime) -> Option<Text>
    ensures { IfSome result (λ text.
        text ≡ described_text (iso8601_form form (unsigned_abs at.offset == 0)) at) }
{
    format_iso8601(form, at)
}

/// The parts of a text that is written in this form of ISO 8601 alone, with an offset that is not
/// `Z`.
pub fn parts_in_form(form: Iso8601, text: &[u8]) -> Option<Parts>
    ensures { IfSome result (λ parts.
        items_at (iso8601_form form false) text.now no_parts ≡ Ok parts) }
{
    let description = form.description(false);
    parse(description.items(), text).ok()
}

/// The date of a text of ISO 8601, and its time of day: each text is one of them alone.
pub fn date_and_time(date: &[u8], time: &[u8]) -> Option<(Date, Time)>
    ensures date { IfSome result (λ read. (parts : Parts) ×
        (items_at iso8601_date_items date.now no_parts ≡ Ok parts) × HasDateParts parts read.0) }
    ensures time { IfSome result (λ read. (parts : Parts) ×
        (items_at iso8601_time_items time.now no_parts ≡ Ok parts) × HasTimeParts parts read.1) }
{
    let Ok(date) = parse_iso8601_date(date) else {
        return None;
    };
    let Ok(time) = parse_iso8601_time(time) else {
        return None;
    };
    let Ok(date) = date.date() else {
        return None;
    };
    let Ok(time) = time.time() else {
        return None;
    };
    Some((date, time))
}
