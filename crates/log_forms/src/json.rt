//! Members of an object of JSON in a line.
ghost use Rattle.std.specs.Prelude.{◌≡◌, ◌<◌, ◌≤◌, ◌+◌, ◌^◌, drop, length, option_map, IfSome};
ghost use Rattle.log_forms.specs.Json.{before_point, depth_after, is_white, member_at, member_of};
ghost use Rattle.log_forms.specs.Json.{past_white, path_of, state_inside, value_of, value_text};
ghost use Rattle.log_forms.specs.declared.json.JsonState.TheVariants.{Outside};

use crate::places::{after_bytes, after_mark};

/// How a byte of JSON is read.
#[derive(Clone, Copy, Debug, PartialEq, Eq)]
pub enum JsonState {
    /// It is in no text.
    Outside,
    /// It is in a text.
    Inside,
    /// It is in a text, after a backslash.
    Escaped,
}

// The most members that a path goes through before its last one.
const MOST_LEVELS: usize = 7;

// The value of the member of a name in the outermost object. If there is none, the points of the name separate the names of members, each
// in the object that the one before it has.
pub(crate) fn member_of<'a>(name: &[u8], line: &'a [u8]) -> Option<&'a [u8]>
    ensures value { option_map (λ rest. rest.now) result ≡ member_of name.now line.now }
    ensures shorter { IfSome result (λ rest. length rest.now ≤ length line.now) }
{
    path_of(MOST_LEVELS, false, name, line)
}

// The value at a path of names, through at most so many members, in an object that begins a text, or in the outermost one.
#[tactic(auto, using(crate::proofs::PathLemmas::path_next))]
fn path_of<'a>(levels: usize, is_inner: bool, path: &[u8], text: &'a [u8]) -> Option<&'a [u8]>
    ensures value { option_map (λ rest. rest.now) result
        ≡ path_of levels is_inner path.now text.now }
    ensures shorter { IfSome result (λ rest. length rest.now ≤ length text.now) }
{
    if let Some(found) = value_of(is_inner, path, text) {
        return Some(found);
    }
    if levels == 0 {
        return None;
    }
    let Some(count) = before_point(path) else {
        return None;
    };
    match value_of(is_inner, &path[..count], text) {
        Some(object) => path_of(levels - 1, true, behind(count + 1, path), object),
        None => None,
    }
}

// A path without this many bytes in front.
fn behind(count: usize, path: &[u8]) -> &[u8]
    requires { count ≤ length path.now }
    ensures { result.now ≡ drop count path.now }
{
    &path[count..]
}

// The number of bytes before the first point of a path.
#[tactic(auto, unfolding(crate::specs::Json::before_point))]
fn before_point(path: &[u8]) -> Option<usize>
    ensures value { result ≡ before_point path.now }
    ensures within { IfSome result (λ count. count < length path.now) }
{
    let Some((first, rest)) = path.split_first() else {
        return None;
    };
    if *first == b'.' {
        return Some(0);
    }
    match before_point(rest) {
        Some(count) => Some(count + 1),
        None => None,
    }
}

// The value of the first member of a name, in the outermost object, or in the object that begins a text: what follows the `"` of a text,
// or the number.
#[tactic(auto, unfolding(crate::specs::Json::value_of))]
pub(crate) fn value_of<'a>(is_inner: bool, name: &[u8], text: &'a [u8]) -> Option<&'a [u8]>
    ensures value { option_map (λ rest. rest.now) result
        ≡ value_of is_inner name.now Outside 0 text.now }
    ensures shorter { IfSome result (λ rest. length rest.now ≤ length text.now) }
{
    let mut rest = text;
    let mut state = JsonState::Outside;
    let mut depth = 0;
    while let Some((first, more)) = rest.split_first() {
        match state {
            JsonState::Escaped => state = JsonState::Inside,
            JsonState::Inside => state = state_inside(*first),
            JsonState::Outside => {
                if *first == b'"' {
                    if let Some(value) = member_at(name, depth, rest) {
                        return Some(value);
                    }
                    state = JsonState::Inside;
                } else {
                    depth = depth_after(*first, depth);
                    if is_inner && depth == 0 {
                        return None;
                    }
                }
            }
        }
        rest = more;
    }
    None
}

// The state after a byte in a text.
fn state_inside(byte: u8) -> JsonState
    ensures { result ≡ state_inside byte }
{
    match byte {
        b'\\' => JsonState::Escaped,
        b'"' => JsonState::Outside,
        _ => JsonState::Inside,
    }
}

// The number of objects and arrays that are open after a byte outside of texts.
fn depth_after(byte: u8, depth: usize) -> usize
    requires { depth + 1 < 2 ^ 64 }
    ensures value { result ≡ depth_after byte depth }
    ensures at_most { result ≤ depth + 1 }
{
    match byte {
        b'{' | b'[' => depth + 1,
        b'}' | b']' => depth.saturating_sub(1),
        _ => depth,
    }
}

// The value of a member of this name at the front of a text, in the outermost object.
#[tactic(auto, unfolding(crate::specs::Json::member_at))]
fn member_at<'a>(name: &[u8], depth: usize, text: &'a [u8]) -> Option<&'a [u8]>
    ensures value { option_map (λ rest. rest.now) result ≡ member_at name.now depth text.now }
    ensures shorter { IfSome result (λ rest. length rest.now ≤ length text.now) }
{
    if depth != 1 {
        return None;
    }
    let rest = after_mark(b'"', text)?;
    let rest = after_bytes(name, rest)?;
    let rest = after_mark(b'"', rest)?;
    let rest = after_mark(b':', past_white(rest))?;
    Some(value_text(past_white(rest)))
}

// What follows the white space at the front of a text.
#[tactic(auto, unfolding(crate::specs::Json::past_white))]
fn past_white(text: &[u8]) -> &[u8]
    ensures value { result.now ≡ past_white text.now }
    ensures shorter { length result.now ≤ length text.now }
{
    let mut rest = text;
    while let Some((first, more)) = rest.split_first() {
        if !is_white(*first) {
            return rest;
        }
        rest = more;
    }
    rest
}

// Whether a byte is a space, a tab, a line feed or a carriage return.
fn is_white(byte: u8) -> bool
    ensures { result ≡ is_white byte }
{
    byte == b' ' || byte == b'\t' || byte == b'\n' || byte == b'\r'
}

// A value without the `"` before it.
fn value_text(text: &[u8]) -> &[u8]
    ensures value { result.now ≡ value_text text.now }
    ensures shorter { length result.now ≤ length text.now }
{
    match after_mark(b'"', text) {
        Some(rest) => rest,
        None => text,
    }
}
