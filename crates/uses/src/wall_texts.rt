//! Wall clocks and times of day of forms, timetables and logs, as texts without an offset.
#![tactic(auto, using(local_texts::specs::Callers::callers))]

ghost use Rattle.std.specs.Prelude.{◌≡◌, ◌↔◌, ◌⊎◌, ◌++◌, ℕ, List, IfSome, IsTrue, OkIff, is_ok, IsSome, SomeIff};
ghost use Rattle.local_texts.specs.Words.{IsDateTime, IsFullTime, IsLocalDateTime, IsLocalTime, AreInRange, offset_of, value_of, value_at};
ghost use Rattle.local_texts.specs.Words.{date_time_in_utc, time_in_utc, reading_as, wall_of_parts, time_of_parts, wall_day, wall_time};
ghost use Rattle.rfc3339.specs.declared.parts.Parts.{Parts};

use calendar_values::{Date, Time, UtcOffset};
use local_texts::{
    date_time_fault, parse_date_time, parse_date_time_at, parse_time, parse_time_with_offset,
    time_fault,
};
use offset_times::OffsetDateTime;
use plain_times::PlainDateTime;
use rfc3339::{TextRefusal, parse_rfc3339};

/// The wall clock of a form's field, exactly if its parts are in their ranges.
pub fn wall_clock_of_field(field: &[u8]) -> Result<PlainDateTime, TextRefusal>
    ensures { (p : Parts) → IsLocalDateTime field.now p →
        OkIff result (AreInRange p) (wall_of_parts p) }
{
    parse_date_time(field)
}

/// The wall clock that someone chose in a form. None if the field has none.
pub fn chosen_wall_clock(field: &[u8]) -> Option<PlainDateTime>
    ensures value { (p : Parts) → IsLocalDateTime field.now p →
        SomeIff result (AreInRange p) (wall_of_parts p) }
    ensures form { IfSome result (λ chosen.
        (p : Parts) × IsLocalDateTime field.now p × (chosen ≡ wall_of_parts p)) }
{
    let Ok(chosen) = parse_date_time(field) else {
        return None;
    };
    Some(chosen)
}

/// The departure on a day, at a time of day of a timetable. None if the text has no time of day.
pub fn departure(day: Date, time: &[u8]) -> Option<PlainDateTime>
    ensures some { IsSome result ↔
        IsTrue (is_ok (reading_as (λ at. wall_time at.wall) (time_in_utc time.now))) }
    ensures day { IfSome result (λ at. wall_day at ≡ day) }
    ensures time { IfSome result (λ at.
        (p : Parts) × IsLocalTime time.now p × (wall_time at ≡ time_of_parts p)) }
{
    let Ok(time) = parse_time(time) else {
        return None;
    };
    Some(PlainDateTime::new(day, time))
}

/// The time of day at which a shop opens, and the offset of its clocks. None if the text has none.
pub fn opening(text: &[u8]) -> Option<(Time, UtcOffset)>
    ensures value { (p : Parts) → IsFullTime text.now p → SomeIff result (AreInRange p)
        (time_of_parts p, offset_of p.is_west p.offset_hour p.offset_minute) }
    ensures form { IfSome result (λ read. (p : Parts) × IsFullTime text.now p × AreInRange p ×
        (read ≡ (time_of_parts p, offset_of p.is_west p.offset_hour p.offset_minute))) }
{
    let Ok(read) = parse_time_with_offset(text) else {
        return None;
    };
    Some(read)
}

/// The date-time of a stamp in the log of a place: at the offset of the stamp, or at that of the
/// place if the stamp has none. None if it is no stamp.
pub fn noted_at_place(stamp: &[u8], place: UtcOffset) -> Option<OffsetDateTime>
    ensures own { (p : Parts) → IsDateTime stamp.now p →
        SomeIff result (AreInRange p) (value_of p) }
    ensures assumed { (p : Parts) → IsLocalDateTime stamp.now p →
        SomeIff result (AreInRange p) (value_at place p) }
    ensures form { IfSome result (λ at.
        ((p : Parts) × IsDateTime stamp.now p × AreInRange p × (at ≡ value_of p)) ⊎
        ((p : Parts) × IsLocalDateTime stamp.now p × AreInRange p × (at ≡ value_at place p))) }
{
    let Ok(at) = parse_date_time_at(stamp, place) else {
        return None;
    };
    Some(at)
}

/// The part of a form's field that may begin a wall clock: a message marks the rest.
pub fn before_the_fault_of_field(field: &[u8]) -> &[u8]
    ensures { (rest : List ℕ) × (p : Parts) × IsLocalDateTime (result.now ++ rest) p }
{
    &field[..date_time_fault(field)]
}

/// The same of the field for a time of day.
pub fn before_the_fault_of_time(field: &[u8]) -> &[u8]
    ensures { (rest : List ℕ) × (p : Parts) × IsLocalTime (result.now ++ rest) p }
{
    &field[..time_fault(field)]
}

/// Whether a stamp of a log of the whole world is valid: it has an offset, and each part is in its
/// range.
pub fn is_valid_with_offset(stamp: &[u8]) -> bool
    ensures { IsTrue result ↔ ((p : Parts) × IsDateTime stamp.now p × AreInRange p) }
{
    parse_rfc3339(stamp).is_ok()
}

/// Whether a stamp of the form has all parts in their ranges.
pub fn is_in_range(stamp: &[u8]) -> bool
    ensures { (p : Parts) → IsDateTime stamp.now p → IsTrue result ↔ AreInRange p }
{
    parse_rfc3339(stamp).is_ok()
}

/// Whether a field has a wall clock.
pub fn is_wall_clock(field: &[u8]) -> bool
    ensures { result ≡ is_ok (reading_as (λ at. at.wall) (date_time_in_utc field.now)) }
{
    parse_date_time(field).is_ok()
}
