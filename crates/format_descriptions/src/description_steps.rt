//! Descriptions, read byte by byte.
ghost use Rattle.std.specs.Prelude.{◌≡◌, ◌≤◌, length};
ghost use Rattle.format_descriptions.specs.DescriptionSteps.{is_closed, step, outside, escaped, open_bracket};
ghost use Rattle.format_descriptions.specs.DescriptionSteps.{begin_name, in_word, between_words, finish_component};
ghost use Rattle.format_descriptions.specs.DescriptionSteps.{fault_at_end};

use crate::description_components::component_of;
use crate::description_modifiers::{Modifiers, modifier_at};
use crate::description_names::{Name, name_at};
use crate::description_words::is_white_space;
use crate::{DescriptionFault, Item};

/// A version of the language of descriptions.
#[derive(Clone, Copy, Debug, PartialEq, Eq)]
pub enum DescriptionVersion {
    /// `[[` is a `[`, and a backslash is itself.
    One,
    /// A backslash before `[`, `]` or a backslash is that byte.
    Two,
}

// The place of the next byte of a description. The number is that of the bytes left from a `[` on.
#[derive(Clone, Copy)]
pub(crate) enum Place {
    // Outside of brackets.
    Outside,
    // Directly after a backslash of version 2.
    Escaped,
    // Directly after a `[`.
    Opened(usize),
    // Behind white space that follows a `[`.
    Unnamed(usize),
    // In a word of a component, or directly after one.
    InWord(usize, Name, Modifiers),
    // Behind white space that follows a word.
    BetweenWords(usize, Name, Modifiers),
}

// The place of the next byte, and the item that ends with this one, or a fault and how many bytes are left from it on.
pub(crate) type Step = Result<(Place, Option<Item>), (DescriptionFault, usize)>;

// The step of a byte, the first of a text.
#[tactic(auto, unfolding(crate::specs::DescriptionSteps::step))]
pub(crate) fn step(version: DescriptionVersion, place: Place, first: u8, text: &[u8]) -> Step
    ensures { result ≡ step version place first text.now }
{
    match place {
        Place::Outside => outside(version, first, text),
        Place::Escaped => escaped(first, text),
        Place::Opened(bracket) => open_bracket(version, bracket, first, text),
        Place::Unnamed(bracket) => begin_name(bracket, first, text),
        Place::InWord(bracket, name, modifiers) => in_word(bracket, name, modifiers, first, text),
        Place::BetweenWords(bracket, name, modifiers) => between_words(
            bracket, name, modifiers, first, text,
        ),
    }
}

// A byte outside of brackets.
#[tactic(auto, unfolding(crate::specs::DescriptionSteps::outside))]
fn outside(version: DescriptionVersion, first: u8, text: &[u8]) -> Step
    ensures { result ≡ outside version first text.now }
{
    if first == b'[' {
        return Ok((Place::Opened(text.len()), None));
    }
    match version {
        DescriptionVersion::Two if first == b'\\' => Ok((Place::Escaped, None)),
        _ => Ok((Place::Outside, Some(Item::Byte(first)))),
    }
}

// A byte after a backslash.
#[tactic(auto, unfolding(crate::specs::DescriptionSteps::escaped))]
fn escaped(first: u8, text: &[u8]) -> Step
    ensures { result ≡ escaped first text.now }
{
    if first == b'[' || first == b']' || first == b'\\' {
        Ok((Place::Outside, Some(Item::Byte(first))))
    } else {
        Err((DescriptionFault::WrongEscape, text.len()))
    }
}

// A byte after a `[`.
#[tactic(auto, unfolding(crate::specs::DescriptionSteps::open_bracket))]
fn open_bracket(version: DescriptionVersion, bracket: usize, first: u8, text: &[u8]) -> Step
    ensures { result ≡ open_bracket version bracket first text.now }
{
    match version {
        DescriptionVersion::One if first == b'[' => Ok((Place::Outside, Some(Item::Byte(b'[')))),
        _ => {
            if is_closed(text) {
                begin_name(bracket, first, text)
            } else {
                Err((DescriptionFault::NoEnd, bracket))
            }
        }
    }
}

// A byte of brackets that have no name yet.
#[tactic(auto, unfolding(crate::specs::DescriptionSteps::begin_name))]
fn begin_name(bracket: usize, first: u8, text: &[u8]) -> Step
    ensures { result ≡ begin_name bracket first text.now }
{
    if is_white_space(first) {
        return Ok((Place::Unnamed(bracket), None));
    }
    if first == b'[' || first == b']' {
        return Err((DescriptionFault::NoName, bracket));
    }
    match name_at(text) {
        Some(name) => Ok((Place::InWord(bracket, name, Modifiers::none()), None)),
        None => Err((DescriptionFault::UnknownComponent, text.len())),
    }
}

// A byte of a word, or the one after it.
#[tactic(auto, unfolding(crate::specs::DescriptionSteps::in_word))]
fn in_word(bracket: usize, name: Name, modifiers: Modifiers, first: u8, text: &[u8]) -> Step
    ensures { result ≡ in_word bracket name modifiers first text.now }
{
    if first == b']' {
        return finish_component(bracket, name, modifiers);
    }
    if first == b'[' {
        return Err((DescriptionFault::NestedBracket, text.len()));
    }
    if is_white_space(first) {
        Ok((Place::BetweenWords(bracket, name, modifiers), None))
    } else {
        Ok((Place::InWord(bracket, name, modifiers), None))
    }
}

// A byte after white space that follows a word.
#[tactic(auto, unfolding(crate::specs::DescriptionSteps::between_words))]
fn between_words(bracket: usize, name: Name, modifiers: Modifiers, first: u8, text: &[u8]) -> Step
    ensures { result ≡ between_words bracket name modifiers first text.now }
{
    if first == b']' {
        return finish_component(bracket, name, modifiers);
    }
    if first == b'[' {
        return Err((DescriptionFault::NestedBracket, text.len()));
    }
    if is_white_space(first) {
        return Ok((Place::BetweenWords(bracket, name, modifiers), None));
    }
    match modifier_at(name, text, modifiers) {
        Ok(more) => Ok((Place::InWord(bracket, name, more), None)),
        Err(fault) => Err(fault),
    }
}

// The `]` of a component.
#[tactic(auto, unfolding(crate::specs::DescriptionSteps::finish_component))]
fn finish_component(bracket: usize, name: Name, modifiers: Modifiers) -> Step
    ensures { result ≡ finish_component bracket name modifiers }
{
    match component_of(name, modifiers) {
        Some(component) => Ok((Place::Outside, Some(Item::Part(component)))),
        None => Err((DescriptionFault::MissingModifier, bracket)),
    }
}

// The fault of a description that ends here, and how many bytes are left from it on.
#[tactic(auto, unfolding(crate::specs::DescriptionSteps::fault_at_end))]
pub(crate) fn fault_at_end(place: Place) -> Option<(DescriptionFault, usize)>
    ensures { result ≡ fault_at_end place }
{
    match place {
        Place::Outside => None,
        Place::Escaped => Some((DescriptionFault::WrongEscape, 0)),
        Place::Opened(bracket)
        | Place::Unnamed(bracket)
        | Place::InWord(bracket, _, _)
        | Place::BetweenWords(bracket, _, _) => Some((DescriptionFault::NoEnd, bracket)),
    }
}

// Whether a text has a `]`.
#[tactic(auto, unfolding(crate::specs::DescriptionSteps::is_closed))]
fn is_closed(text: &[u8]) -> bool
    ensures { result ≡ is_closed text.now }
{
    let mut rest = text;
    while let Some((first, more)) = rest.split_first() {
        if *first == b']' {
            return true;
        }
        rest = more;
    }
    false
}
