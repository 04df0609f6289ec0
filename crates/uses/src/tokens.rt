//! Tokens, each valid from its first instant up to one at which it no longer is.
ghost use Rattle.std.specs.Prelude.{◌≡◌, ◌-ℤ◌, ◌≤ℤ◌, ◌<ℤ◌, pos, IfSome, IsNone};

use calendar_values::SignedDuration;
use utc_times::UtcDateTime;

/// A token.
#[derive(Clone, Copy)]
pub struct Token {
    pub issued: UtcDateTime,
    pub expires: UtcDateTime,
}

/// The later of two instants.
pub fn later(one: UtcDateTime, other: UtcDateTime) -> UtcDateTime
    ensures one { one ≤ℤ result }
    ensures other { other ≤ℤ result }
{
    one.max(other)
}

/// The earlier of two instants.
pub fn earlier(one: UtcDateTime, other: UtcDateTime) -> UtcDateTime
    ensures one { result ≤ℤ one }
    ensures other { result ≤ℤ other }
{
    one.min(other)
}

/// How long two tokens are both valid, no longer than one of them. None if they never are.
#[tactic(auto, using(crate::specs::DifferenceLemmas::differences))]
pub fn both_valid(one: Token, other: Token) -> Option<SignedDuration>
    ensures some { IfSome result (λ both. pos 0 <ℤ both) }
    ensures within_one { IfSome result (λ both. both ≤ℤ (one.expires -ℤ one.issued)) }
    ensures within_other { IfSome result (λ both. both ≤ℤ (other.expires -ℤ other.issued)) }
{
    let from = later(one.issued, other.issued);
    let until = earlier(one.expires, other.expires);
    if from < until {
        Some(until - from)
    } else {
        None
    }
}

/// How long a token is still valid: no longer than it was at first.
pub fn time_left(token: Token, now: UtcDateTime) -> Option<SignedDuration>
    requires { token.issued ≤ℤ now }
    ensures value { IfSome result (λ left. left ≡ token.expires -ℤ now) }
    ensures at_most { IfSome result (λ left. left ≤ℤ (token.expires -ℤ token.issued)) }
{
    if now < token.expires {
        Some(token.expires - now)
    } else {
        None
    }
}
