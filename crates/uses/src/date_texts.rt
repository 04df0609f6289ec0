//! Days that are exchanged as texts of RFC 3339, and records of a fixed size.
ghost use Rattle.std.specs.Prelude.{◌≡◌, ◌≤◌, ℕ, SomeIff, IfSome, IsTrue, length};
ghost use Rattle.std.specs.Result.{is_ok};
ghost use Rattle.offset_times.specs.Local.{local_in_utc};
ghost use Rattle.rfc3339.specs.FullDates.{IsFullDate, HasFullDate, full_date_meaning, full_date_reading_of};
ghost use Rattle.rfc3339.specs.Texts.{HasText, rfc3339_text};

use calendar_values::{Date, Text};
use rfc3339::length_laws::texts_in_utc_have_thirty_bytes;
use rfc3339::{Rfc3339, TextRefusal, date_from_rfc3339, date_to_rfc3339};
use utc_times::UtcDateTime;

/// The day that the receiver reads of one that is sent: it.
pub fn received_day(sent: Date) -> Option<Date>
    ensures { SomeIff result (HasFullDate sent) sent }
{
    date_from_rfc3339(date_to_rfc3339(sent)?.as_bytes()).ok()
}

/// The day of a form's field.
pub fn day_of_field(field: &[u8]) -> Result<Date, TextRefusal>
    ensures { (year month day : ℕ) → IsFullDate field.now year month day →
        result ≡ full_date_meaning year month day }
{
    date_from_rfc3339(field)
}

/// Whether a form's field is read as a day.
pub fn is_day(field: &[u8]) -> bool
    ensures { result ≡ is_ok (full_date_reading_of field.now) }
{
    date_from_rfc3339(field).is_ok()
}

/// The same by the numbers of the field.
pub fn has_day(field: &[u8]) -> bool
    ensures numbers { (year month day : ℕ) → IsFullDate field.now year month day →
        result ≡ is_ok (full_date_meaning year month day) }
    ensures form { IsTrue result →
        (year : ℕ) × (month : ℕ) × (day : ℕ) × IsFullDate field.now year month day }
{
    is_day(field)
}

/// The text of an instant for a column of 30 bytes.
pub fn column(at: UtcDateTime) -> Option<Text>
    ensures value { let shown = local_in_utc at in
        SomeIff result (HasText shown) (rfc3339_text shown) }
    ensures length { IfSome result (λ text. length text ≤ 30) }
{
    texts_in_utc_have_thirty_bytes();
    at.to_rfc3339()
}
