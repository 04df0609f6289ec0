//! Groups of descriptions, read byte by byte: `[optional [..]]` and `[first [..] [..]]`.
ghost use Rattle.std.specs.Prelude.{◌≡◌, ◌≤◌, length};
ghost use Rattle.format_descriptions.specs.DescriptionGroups.{at_front, is_in_group, is_in_first};
ghost use Rattle.format_descriptions.specs.DescriptionGroups.{at_spot, in_groups, group_at, began};
ghost use Rattle.format_descriptions.specs.DescriptionGroups.{inside, in_group_word, head_of};
ghost use Rattle.format_descriptions.specs.DescriptionGroups.{between_groups, unsized_step};
ghost use Rattle.format_descriptions.specs.DescriptionGroups.{ends_group, item_count, group_size, item_of_size};
ghost use Rattle.format_descriptions.specs.DescriptionGroups.{group_step, group_fault_at_end};

use crate::description_steps::{DescriptionVersion, Place, Step, fault_at_end, step};
use crate::description_words::{is_white_space, is_word_at};
use crate::{DescriptionFault, Item};

// The place of the next byte: in a description, or between those of a group.
#[derive(Clone, Copy)]
pub(crate) enum Spot {
    // In a description.
    Inside(Place),
    // In the word of a group, or directly after it.
    GroupWord,
    // After white space that follows the word of a group, or after one of its descriptions, if it had one.
    BetweenGroups(bool),
}

// The place of the next byte of a description, and the groups that are open there.
#[derive(Clone, Copy)]
pub(crate) struct State {
    // The groups that are open, in binary: 1, and then 0 for each that is optional and 1 for each of several.
    pub(crate) groups: u64,
    // How many bytes are left from the `[` of the outermost of them on.
    pub(crate) outer: usize,
    // The place of the byte.
    pub(crate) spot: Spot,
}

// The state after a byte, and the item that ends with it, or a fault and how many bytes are left from it on.
pub(crate) type GroupStep = Result<(State, Option<Item>), (DescriptionFault, usize)>;

// The front of a text.
pub(crate) fn at_front() -> State
    ensures { result ≡ at_front }
{
    State {
        groups: 1,
        outer: 0,
        spot: Spot::Inside(Place::Outside),
    }
}

// Whether a group is open.
fn is_in_group(state: State) -> bool
    ensures { result ≡ is_in_group state }
{
    state.groups > 1
}

// Whether the innermost group that is open is the first of several.
fn is_in_first(state: State) -> bool
    ensures { result ≡ is_in_first state }
{
    state.groups % 2 == 1
}

// The state of another spot in the same groups.
fn at_spot(state: State, spot: Spot) -> State
    ensures { result ≡ at_spot state spot }
{
    State { spot, ..state }
}

// A step in the same groups.
fn in_groups(state: State, step: Step) -> GroupStep
    ensures { result ≡ in_groups state step }
{
    match step {
        Ok((place, item)) => Ok((at_spot(state, Spot::Inside(place)), item)),
        Err(fault) => Err(fault),
    }
}

// The word of a group at the front of a text: true of `first`, and false of `optional`.
#[tactic(auto, unfolding(crate::specs::DescriptionGroups::group_at))]
fn group_at(text: &[u8]) -> Option<bool>
    ensures { result ≡ group_at text.now }
{
    if is_word_at(b"optional", text) {
        Some(false)
    } else if is_word_at(b"first", text) {
        Some(true)
    } else {
        None
    }
}

// A group begins.
#[tactic(auto, unfolding(crate::specs::DescriptionGroups::began))]
fn begin(state: State, bracket: usize, is_first: bool) -> GroupStep
    ensures { result ≡ began state bracket is_first }
{
    if state.groups > 4_294_967_295 {
        return Err((DescriptionFault::TooDeep, bracket));
    }
    let groups = if is_first {
        state.groups * 2 + 1
    } else {
        state.groups * 2
    };
    let outer = if is_in_group(state) {
        state.outer
    } else {
        bracket
    };
    let begun = State {
        groups,
        outer,
        spot: Spot::GroupWord,
    };
    Ok((begun, None))
}

// A byte of a description, perhaps of a group.
#[tactic(auto, unfolding(crate::specs::DescriptionGroups::inside))]
fn inside(
    version: DescriptionVersion,
    state: State,
    place: Place,
    first: u8,
    text: &[u8],
) -> GroupStep
    ensures { result ≡ inside version state place first text.now }
{
    match place {
        Place::Outside => {
            if is_in_group(state) && first == b']' {
                Ok((at_spot(state, Spot::BetweenGroups(true)), None))
            } else {
                in_groups(state, step(version, Place::Outside, first, text))
            }
        }
        Place::Opened(bracket) => match group_at(text) {
            Some(is_first) => begin(state, bracket, is_first),
            None => in_groups(state, step(version, Place::Opened(bracket), first, text)),
        },
        Place::Unnamed(bracket) => match group_at(text) {
            Some(is_first) => begin(state, bracket, is_first),
            None => in_groups(state, step(version, Place::Unnamed(bracket), first, text)),
        },
        Place::Escaped => in_groups(state, step(version, Place::Escaped, first, text)),
        Place::InWord(bracket, name, modifiers) => {
            let place = Place::InWord(bracket, name, modifiers);
            in_groups(state, step(version, place, first, text))
        }
        Place::BetweenWords(bracket, name, modifiers) => {
            let place = Place::BetweenWords(bracket, name, modifiers);
            in_groups(state, step(version, place, first, text))
        }
    }
}

// A byte of the word of a group, or the one after it.
#[tactic(auto, unfolding(crate::specs::DescriptionGroups::in_group_word))]
fn in_group_word(state: State, first: u8, text: &[u8]) -> GroupStep
    ensures { result ≡ in_group_word state first text.now }
{
    if is_white_space(first) {
        return Ok((at_spot(state, Spot::BetweenGroups(false)), None));
    }
    match first {
        b']' => Err((DescriptionFault::NoGroup, text.len())),
        b'[' => Err((DescriptionFault::WrongGroup, text.len())),
        _ => Ok((at_spot(state, Spot::GroupWord), None)),
    }
}

// The head of a group, or that of the next one of several, whose size is not known yet.
fn head_of(is_first: bool, has_group: bool) -> Item
    ensures { result ≡ head_of is_first has_group }
{
    match (is_first, has_group) {
        (false, _) => Item::Optional(0),
        (true, false) => Item::First(0),
        (true, true) => Item::Or(0),
    }
}

// A byte after the word of a group, or after one of its descriptions.
#[tactic(auto, unfolding(crate::specs::DescriptionGroups::between_groups))]
fn between_groups(state: State, has_group: bool, first: u8, text: &[u8]) -> GroupStep
    ensures { result ≡ between_groups state has_group first text.now }
{
    if is_white_space(first) {
        return Ok((at_spot(state, Spot::BetweenGroups(has_group)), None));
    }
    if first == b']' {
        if !has_group {
            return Err((DescriptionFault::NoGroup, text.len()));
        }
        let end_of_items = State {
            groups: state.groups / 2,
            spot: Spot::Inside(Place::Outside),
            ..state
        };
        return Ok((end_of_items, None));
    }
    let is_first = is_in_first(state);
    if first == b'[' && (is_first || !has_group) {
        let head = head_of(is_first, has_group);
        Ok((at_spot(state, Spot::Inside(Place::Outside)), Some(head)))
    } else {
        Err((DescriptionFault::WrongGroup, text.len()))
    }
}

// The step of a byte, the first of a text. The heads of groups have no size yet.
#[tactic(auto, unfolding(crate::specs::DescriptionGroups::unsized_step))]
fn unsized_step(version: DescriptionVersion, state: State, first: u8, text: &[u8]) -> GroupStep
    ensures { result ≡ unsized_step version state state.spot first text.now }
{
    match state.spot {
        Spot::Inside(place) => inside(version, state, place, first, text),
        Spot::GroupWord => in_group_word(state, first, text),
        Spot::BetweenGroups(has_group) => between_groups(state, has_group, first, text),
    }
}

// Whether the byte is the `]` of the description in the innermost of these groups.
fn ends_group(groups: u64, state: State, first: u8) -> bool
    ensures { result ≡ ends_group groups state first }
{
    if state.groups != groups {
        return false;
    }
    match state.spot {
        Spot::Inside(Place::Outside) => first == b']',
        _ => false,
    }
}

// How many items a step has.
fn item_count(item: Option<Item>) -> usize
    ensures value { result ≡ item_count item }
    ensures at_most { result ≤ 1 }
{
    match item {
        Some(_) => 1,
        None => 0,
    }
}

// How many items a text has up to the end of these groups.
fn group_size(version: DescriptionVersion, groups: u64, state: State, text: &[u8]) -> usize
    ensures { result ≡ group_size version groups state text.now }
{
    let mut state = state;
    let mut rest = text;
    let mut size = 0;
    while let Some((first, more)) = rest.split_first() {
        if ends_group(groups, state, *first) {
            return size;
        }
        let (next, item) = match unsized_step(version, state, *first, rest) {
            Ok(read) => read,
            Err(_) => return size,
        };
        size += item_count(item);
        state = next;
        rest = more;
    }
    size
}

// An item before a state: the head of a group has the size of what follows.
fn set_size(version: DescriptionVersion, item: Item, next: State, rest: &[u8]) -> Item
    ensures { result ≡ item_of_size item (group_size version next.groups next rest.now) }
{
    match item {
        Item::Byte(byte) => Item::Byte(byte),
        Item::Part(component) => Item::Part(component),
        Item::Optional(_) => Item::Optional(group_size(version, next.groups, next, rest)),
        Item::First(_) => Item::First(group_size(version, next.groups, next, rest)),
        Item::Or(_) => Item::Or(group_size(version, next.groups, next, rest)),
    }
}

// The step of a byte, the first of a text, and what follows it.
#[tactic(auto, unfolding(crate::specs::DescriptionGroups::group_step))]
pub(crate) fn group_step(
    version: DescriptionVersion,
    state: State,
    first: u8,
    text: &[u8],
    rest: &[u8],
) -> GroupStep
    ensures { result ≡ group_step version state first text.now rest.now }
{
    match unsized_step(version, state, first, text) {
        Ok((next, Some(item))) => Ok((next, Some(set_size(version, item, next, rest)))),
        Ok((next, None)) => Ok((next, None)),
        Err(fault) => Err(fault),
    }
}

// The fault of a description that ends here, and how many bytes are left from it on.
#[tactic(auto, unfolding(crate::specs::DescriptionGroups::group_fault_at_end))]
pub(crate) fn group_fault_at_end(state: State) -> Option<(DescriptionFault, usize)>
    ensures { result ≡ group_fault_at_end state }
{
    if is_in_group(state) {
        return Some((DescriptionFault::NoEnd, state.outer));
    }
    match state.spot {
        Spot::Inside(place) => fault_at_end(place),
        Spot::GroupWord | Spot::BetweenGroups(_) => Some((DescriptionFault::NoEnd, state.outer)),
    }
}
