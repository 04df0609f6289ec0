//! Callers that name the constants.
ghost use Rattle.std.specs.Prelude.{◌≡◌, ◌↔◌, ◌<ℤ◌, pos, IsTrue, IfNone, IfSome};
ghost use Rattle.calendar_values.specs.Range.{first_day};
ghost use Rattle.calendar_values.specs.WallClock.{first_wall_clock, last_wall_clock};
ghost use Rattle.offset_times.specs.Local.{wall_at};

use calendar_values::Date;
use offset_times::OffsetDateTime;
use plain_times::PlainDateTime;
use stamp_times::Timestamp;
use utc_times::UtcDateTime;

/// When the first entry was written, or the epoch where there is none.
pub fn started_at(first: Option<UtcDateTime>) -> UtcDateTime
    ensures some { IfSome first (λ at. result ≡ at) }
    ensures none { IfNone first (result ≡ pos 0) }
{
    first.unwrap_or(UtcDateTime::UNIX_EPOCH)
}

/// The expiry of something: the last instant of the range means never.
pub fn expires_or_never(expires: Option<UtcDateTime>) -> UtcDateTime
    ensures some { IfSome expires (λ at. result ≡ at) }
    ensures none { IfNone expires (result ≡ last_wall_clock) }
{
    match expires {
        Some(at) => at,
        None => UtcDateTime::MAX,
    }
}

/// Whether it ever expires.
pub fn ever_expires(expires: UtcDateTime) -> bool
    ensures { IsTrue result ↔ (expires <ℤ last_wall_clock) }
{
    expires < UtcDateTime::MAX
}

/// Whether the instant lies after the epoch.
pub fn is_after_epoch(at: UtcDateTime) -> bool
    ensures { IsTrue result ↔ (pos 0 <ℤ at) }
{
    at > UtcDateTime::UNIX_EPOCH
}

/// The date, or the first of all.
pub fn date_or_first(date: Option<Date>) -> Date
    ensures none { IfNone date (result ≡ first_day) }
{
    date.unwrap_or(Date::MIN)
}

/// The first wall clock.
pub fn first_plain() -> PlainDateTime
    ensures { result ≡ first_wall_clock }
{
    PlainDateTime::MIN
}

/// When something was seen at an offset, or the epoch in UTC where it was not.
pub fn seen_or_epoch(seen: Option<OffsetDateTime>) -> OffsetDateTime
    ensures none { IfNone seen (result ≡ wall_at (pos 0) (pos 0)) }
{
    seen.unwrap_or(OffsetDateTime::UNIX_EPOCH)
}

/// The timestamp of the last change, or the first of all where there was none.
pub fn changed_or_first(changed: Option<Timestamp>) -> Timestamp
    ensures some { IfSome changed (λ at. result ≡ at) }
    ensures none { IfNone changed (result ≡ first_wall_clock) }
{
    changed.unwrap_or(Timestamp::MIN)
}

/// Whether the timestamp lies after the epoch.
pub fn is_stamp_after_epoch(at: Timestamp) -> bool
    ensures { IsTrue result ↔ (pos 0 <ℤ at) }
{
    at > Timestamp::UNIX_EPOCH
}

/// Whether the timestamp is the last, which means never.
pub fn is_never(at: Timestamp) -> bool
    ensures { IsTrue result ↔ (at ≡ last_wall_clock) }
{
    at == Timestamp::MAX
}
