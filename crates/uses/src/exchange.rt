//! Date-times that are exchanged as texts of RFC 3339.
ghost use Rattle.std.specs.Prelude.{◌≡◌, ℤ, is_ok, map, IfOk, IfSome, OnErr, OnOk, OkIff, SomeIff, Err, IfErr};
ghost use Rattle.std.specs.Prelude.{IsPermutation, IsSorted};
ghost use Rattle.std.specs.Cmp.Lexicographic.{slice_cmp};
ghost use Rattle.std.specs.Ordering.{nat_cmp, int_cmp};
ghost use Rattle.calendar_values.specs.WallClock.{IsWallClock};
ghost use Rattle.offset_times.specs.Local.{instant_of, local_at};
ghost use Rattle.rfc3339.specs.Form.{IsDateTime};
ghost use Rattle.rfc3339.specs.Meaning.{value_of, AreInRange};
ghost use Rattle.rfc3339.specs.Reading.{reading_of};
ghost use Rattle.rfc3339.specs.Texts.{HasText, rfc3339_text, HasFixedText, fixed_text};
ghost use Rattle.rfc3339.specs.declared.parts.Parts.{Parts};
ghost use Rattle.uses.specs.Stamps.{are_one_instant, instant_named, answer_to};

use calendar_values::{Text, UtcOffset};
use offset_times::OffsetDateTime;
use rfc3339::laws::fixed_texts_keep_the_order;
use rfc3339::{Rfc3339, TextRefusal, parse_rfc3339};
use stamp_times::Timestamp;
use std::alloc::{AllocError, Global};
use std::cmp::Ordering;
use utc_times::UtcDateTime;

/// The stamp of a log line as clocks at another offset show it. None where it is no date-time, or
/// where clocks there show a year that has not four digits.
pub fn stamp_at(stamp: &[u8], offset: UtcOffset) -> Option<Text>
    ensures value { (p : Parts) → IsDateTime stamp.now p →
        (let there = local_at (instant_of (value_of p)) offset in
        SomeIff result (AreInRange p × IsWallClock there.wall × HasText there)
        (rfc3339_text there)) }
    ensures form { IfSome result (λ text. (p : Parts) × IsDateTime stamp.now p ×
        (text ≡ rfc3339_text (local_at (instant_of (value_of p)) offset))) }
{
    let Ok(read) = parse_rfc3339(stamp) else {
        return None;
    };
    read.checked_to_offset(offset)?.to_rfc3339()
}

/// The instant of a stamp.
pub fn instant(stamp: &[u8]) -> Result<UtcDateTime, TextRefusal>
    ensures { (p : Parts) → IsDateTime stamp.now p →
        OkIff result (AreInRange p) (instant_of (value_of p)) }
{
    UtcDateTime::from_rfc3339(stamp)
}

/// Whether a stamp is read: it has the form, and each part is in its range.
pub fn is_valid(stamp: &[u8]) -> bool
    ensures { result ≡ is_ok (reading_of stamp.now) }
{
    parse_rfc3339(stamp).is_ok()
}

/// Whether two stamps, at whatever offsets, name one instant. False where one of them is refused.
pub fn name_one_instant(first: &[u8], second: &[u8]) -> bool
    ensures { result ≡ are_one_instant (instant_named first.now) (instant_named second.now) }
{
    let (Ok(first), Ok(second)) = (
        Timestamp::from_rfc3339(first),
        Timestamp::from_rfc3339(second),
    ) else {
        return false;
    };
    first == second
}

/// The answer to a line that is a stamp: Unix seconds, or why it is refused.
pub fn answer(stamp: &[u8]) -> Text
    ensures { result ≡ answer_to stamp.now }
{
    match Timestamp::from_rfc3339(stamp) {
        Ok(at) => at.text(),
        Err(refusal) => refusal.text(),
    }
}

/// The answers to lines, in their order.
pub fn answers(alloc: Global, lines: &[&[u8]]) -> Result<Vec<Text>, AllocError>
    ensures { IfOk result (λ answers. answers.items ≡ map (λ line. answer_to line.now) lines.now) }
{
    lines.iter().map(|line| answer(line)).collect(alloc)
}

/// The shortest text of what a text of another program says.
pub fn rewritten(stamp: &[u8]) -> Result<Text, TextRefusal>
    ensures refused { IfErr result (λ refusal. reading_of stamp.now ≡ Err refusal) }
    ensures form { IfOk result (λ text.
        (p : Parts) × IsDateTime stamp.now p × AreInRange p ×
        (text ≡ rfc3339_text (value_of p))) }
{
    Ok(parse_rfc3339(stamp)?.to_rfc3339().unwrap())
}

/// The date-time that the receiver reads: the one that was sent, offset included.
pub fn receive(sent: OffsetDateTime) -> Option<OffsetDateTime>
    ensures { SomeIff result (HasText sent) sent }
{
    parse_rfc3339(sent.to_rfc3339()?.as_bytes()).ok()
}

/// Puts texts of fixed width into order by their bytes: none is read.
pub fn sort(texts: &mut Vec<&[u8]>) -> Result<(), AllocError>
    ensures same_texts { IsPermutation texts.old.items texts.new.items }
    ensures sorted { OnOk result (IsSorted (λ a b. slice_cmp nat_cmp a.now b.now) texts.new.items) }
    ensures unchanged { OnErr result (texts.new.items ≡ texts.old.items) }
{
    texts.sort()
}

/// The order of the instants of two texts of fixed width: only bytes are compared.
pub fn compare_texts(first: &[u8], second: &[u8]) -> Ordering
    ensures { (i j : ℤ) → HasFixedText i → HasFixedText j →
        first.now ≡ fixed_text i → second.now ≡ fixed_text j → result ≡ int_cmp i j }
{
    fixed_texts_keep_the_order();
    first.cmp(second)
}
