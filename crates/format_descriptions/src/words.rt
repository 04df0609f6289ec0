//! Names, read from the front of a text.
ghost use Rattle.std.specs.Prelude.{◌≡◌, ◌≤◌, ◌<◌, length, option_map, IfSome};
ghost use Rattle.format_descriptions.specs.Reading.{month_at, weekday_at, weekday_number_at, period_at};

use crate::names::{month_word, period_word, weekday_word};
use crate::reading::{after_word, digit};
use crate::{Case, NameForm, ReadCase, WeekStart, WeekdayCount};

// The name of a month. Its second and its third letter tell which name alone it can be.
#[tactic(auto, using(crate::proofs::LikelyNameLemmas::likely_month))]
#[inline(always)]
pub(crate) fn month(form: NameForm, case: ReadCase, text: &[u8]) -> Option<(u32, &[u8])>
    ensures value { option_map (λ read. (read.0, read.1.now)) result
        ≡ month_at form case 12 text.now }
    ensures below { IfSome result (λ read. read.0 ≤ 12) }
    ensures shorter { IfSome result (λ read. length read.1.now ≤ length text.now) }
{
    let likely = likely_month(text);
    match after_word(case, month_word(form, likely), text) {
        Some(rest) => Some((likely as u32, rest)),
        None => month_up_to(form, case, 12, text),
    }
}

// The only month whose name can begin so. Each name has a sum of its own, whatever the case of the letters is.
fn likely_month(text: &[u8]) -> u8
    ensures { (1 ≤ result) × (result ≤ 12) }
{
    let [_, second, third, ..] = text else {
        return 1;
    };
    match (*second as u32 + *third as u32) % 32 {
        15 => 1,
        7 => 2,
        19 => 3,
        2 => 4,
        26 => 5,
        3 => 6,
        1 => 7,
        28 => 8,
        21 => 9,
        23 => 10,
        5 => 11,
        _ => 12,
    }
}

// The name of a month up to this one.
#[tactic(auto, using(crate::proofs::NameLemmas::month_next))]
#[inline(never)]
fn month_up_to(form: NameForm, case: ReadCase, last: u8, text: &[u8]) -> Option<(u32, &[u8])>
    requires { last ≤ 12 }
    ensures value { option_map (λ read. (read.0, read.1.now)) result
        ≡ month_at form case last text.now }
    ensures below { IfSome result (λ read. read.0 ≤ 12) }
    ensures shorter { IfSome result (λ read. length read.1.now ≤ length text.now) }
{
    if last == 0 {
        return None;
    }
    match after_word(case, month_word(form, last), text) {
        Some(rest) => Some((last as u32, rest)),
        None => month_up_to(form, case, last - 1, text),
    }
}

// The name of a day of the week. Its second and its third letter tell which name alone it can be.
#[tactic(auto, using(crate::proofs::LikelyNameLemmas::likely_weekday))]
#[inline(always)]
pub(crate) fn weekday(form: NameForm, case: ReadCase, text: &[u8]) -> Option<(u32, &[u8])>
    ensures value { option_map (λ read. (read.0, read.1.now)) result
        ≡ weekday_at form case 7 text.now }
    ensures below { IfSome result (λ read. read.0 ≤ 7) }
    ensures shorter { IfSome result (λ read. length read.1.now ≤ length text.now) }
{
    let likely = likely_weekday(text);
    match after_word(case, weekday_word(form, likely), text) {
        Some(rest) => Some((likely as u32, rest)),
        None => weekday_before(form, case, 7, text),
    }
}

// The only day of the week whose name can begin so. Each name has a sum of its own, whatever the case of the letters is.
fn likely_weekday(text: &[u8]) -> u8
    ensures { result < 7 }
{
    let [_, second, third, ..] = text else {
        return 0;
    };
    match (*second as u32 + *third as u32 * 2) % 16 {
        11 => 0,
        15 => 1,
        13 => 2,
        2 => 3,
        4 => 4,
        9 => 5,
        _ => 6,
    }
}

// The name of a day of the week before this one.
#[tactic(auto, using(crate::proofs::NameLemmas::weekday_next))]
#[inline(never)]
fn weekday_before(form: NameForm, case: ReadCase, end: u8, text: &[u8]) -> Option<(u32, &[u8])>
    requires { end ≤ 7 }
    ensures value { option_map (λ read. (read.0, read.1.now)) result
        ≡ weekday_at form case end text.now }
    ensures below { IfSome result (λ read. read.0 ≤ 7) }
    ensures shorter { IfSome result (λ read. length read.1.now ≤ length text.now) }
{
    if end == 0 {
        return None;
    }
    match after_word(case, weekday_word(form, end - 1), text) {
        Some(rest) => Some(((end - 1) as u32, rest)),
        None => weekday_before(form, case, end - 1, text),
    }
}

// The number of a day of the week, which gives 0 for Monday.
#[tactic(auto, unfolding(crate::specs::Reading::weekday_number_at))]
pub(crate) fn weekday_number(
    start: WeekStart,
    count: WeekdayCount,
    text: &[u8],
) -> Option<(u32, &[u8])>
    ensures value { option_map (λ read. (read.0, read.1.now)) result
        ≡ weekday_number_at start count text.now }
    ensures below { IfSome result (λ read. read.0 ≤ 7) }
    ensures shorter { IfSome result (λ read. length read.1.now ≤ length text.now) }
{
    let (number, rest) = digit(text)?;
    let first = count.first() as u32;
    if number < first {
        return None;
    }
    if number - first > 6 {
        return None;
    }
    Some(((number - first + start.weekday() as u32) % 7, rest))
}

// The half of the day: true for the second.
#[tactic(auto, unfolding(crate::specs::Reading::period_at))]
pub(crate) fn period(case: Case, read: ReadCase, text: &[u8]) -> Option<((bool, u32), &[u8])>
    ensures value { option_map (λ read. (read.0, read.1.now)) result
        ≡ period_at case read text.now }
    ensures below { IfSome result (λ read. read.0.1 ≤ 1_000_000_000) }
    ensures shorter { IfSome result (λ read. length read.1.now ≤ length text.now) }
{
    if let Some(rest) = after_word(read, period_word(case, 0), text) {
        return Some(((false, 0), rest));
    }
    match after_word(read, period_word(case, 12), text) {
        Some(rest) => Some(((true, 0), rest)),
        None => None,
    }
}
