//! The names of a rule's text.
ghost use Rattle.std.specs.Prelude.{◌≡◌};
ghost use Rattle.std.specs.Result.{result_map_both};
ghost use Rattle.zone_files.specs.Reading.{letters_at, name_at, quoted_at};

use crate::faults::{RuleFault, Stop, stop_at};
use crate::numbers::after_byte;
use crate::pieces::{Kind, split};

// A name of letters.
#[tactic(auto, unfolding(crate::specs::Reading::letters_at))]
fn letters(text: &[u8]) -> Result<(&[u8], &[u8]), Stop>
    ensures { result_map_both (λ read. (read.0.now, read.1.now)) (λ stop. stop) result
        ≡ letters_at text.now }
{
    let (name, rest) = split(Kind::Letter, text);
    if name.len() < 3 {
        return Err(stop_at(RuleFault::Name, text));
    }
    Ok((name, rest))
}

// A name before >.
#[tactic(auto, unfolding(crate::specs::Reading::quoted_at))]
fn quoted_name(text: &[u8]) -> Result<(&[u8], &[u8]), Stop>
    ensures { result_map_both (λ read. (read.0.now, read.1.now)) (λ stop. stop) result
        ≡ quoted_at text.now }
{
    let (name, rest) = split(Kind::Quoted, text);
    if name.len() < 3 {
        return Err(stop_at(RuleFault::Name, text));
    }
    let rest = after_byte(b'>', rest)?;
    Ok((name, rest))
}

// A name: letters, or letters, digits and signs between < and >.
pub(crate) fn name(text: &[u8]) -> Result<(&[u8], &[u8]), Stop>
    ensures { result_map_both (λ read. (read.0.now, read.1.now)) (λ stop. stop) result
        ≡ name_at text.now }
{
    match text.split_first() {
        Some((b'<', rest)) => quoted_name(rest),
        _ => letters(text),
    }
}
