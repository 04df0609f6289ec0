//! Texts that are read into one set of parts, one after another.
ghost use Rattle.std.specs.Prelude.{◌≡◌, ◌↔◌, ◌++◌, List, ℕ, Ok, Some, IfSome, IsSome, IsTrue};
ghost use Rattle.std.specs.Prelude.{is_ok, false};
ghost use Rattle.format_descriptions.specs.Choices.{IsChoice};
ghost use Rattle.format_descriptions.specs.Read.{front_of, no_parts};
ghost use Rattle.format_descriptions.specs.Spelled.{Spells};
ghost use Rattle.format_descriptions.specs.Values.{date_of_parts};
ghost use Rattle.format_descriptions.specs.declared.item.Item.{Item};
ghost use Rattle.format_descriptions.specs.declared.parts.Parts.{Parts};
ghost use Rattle.pattern_uses.specs.Dates.{date_in};

use calendar_values::Date;
use format_descriptions::laws::fronts_spell_choices;
use format_descriptions::{Item, Parts, parse_front_into, parse_into};

/// The date of a text by a pattern, read into the parts of the text before. None if the text is not
/// written so, or if its parts are no date.
pub fn next_date(pattern: &[Item], text: &[u8], parts: &mut Parts) -> Option<Date>
    ensures { result ≡ date_in pattern.now text.now }
{
    *parts = Parts::none();
    parse_into(pattern, text, parts).ok()?;
    parts.date().ok()
}

/// The dates of the first and the last day of a period, both read into one set of parts. None if
/// one of them is no date that is written by the pattern.
pub fn period(pattern: &[Item], first: &[u8], last: &[u8]) -> Option<(Date, Date)>
    ensures first { IfSome result (λ both. date_in pattern.now first.now ≡ Some both.0) }
    ensures last { IfSome result (λ both. date_in pattern.now last.now ≡ Some both.1) }
    ensures some { IsSome result ↔
        (IsSome (date_in pattern.now first.now) × IsSome (date_in pattern.now last.now)) }
{
    let mut parts = Parts::none();
    let first = next_date(pattern, first, &mut parts)?;
    let last = next_date(pattern, last, &mut parts)?;
    Some((first, last))
}

/// The date that a line begins with by a pattern, and the part of the line after it. None if the
/// line does not begin so, or if its parts are no date.
pub fn date_and_words<'a>(pattern: &[Item], line: &'a [u8]) -> Option<(Date, &'a [u8])>
    ensures { IfSome result (λ both. (parts : Parts) ×
        (front_of pattern.now line.now no_parts ≡ Ok (parts, both.1.now)) ×
        (date_of_parts parts ≡ Ok both.0)) }
{
    let mut parts = Parts::none();
    let words = parse_front_into(pattern, line, &mut parts).ok()?;
    Some((parts.date().ok()?, words))
}

/// The part of a line after what a pattern reads at its front. None if the line does not begin so.
pub fn words_after<'a>(pattern: &[Item], line: &'a [u8]) -> Option<&'a [u8]>
    ensures some { IsSome result ↔ IsTrue (is_ok (front_of pattern.now line.now no_parts)) }
    ensures words { IfSome result (λ words.
        (chosen : List Item) × (front : List ℕ) × (parts : Parts) ×
        IsChoice false pattern.now chosen × Spells chosen front no_parts parts ×
        (line.now ≡ front ++ words.now)) }
{
    fronts_spell_choices();
    parse_front_into(pattern, line, &mut Parts::none()).ok()
}
