//! The years that the values of `--year` give.
ghost use Rattle.std.specs.Prelude.{◌≡◌, ◌<◌, drop, length, map, option_map, take, IfSome};
ghost use Rattle.stamps.specs.Readers.{line_stamp};
ghost use Rattle.stamps.specs.Years.{first_unnamed, is_until, is_year, last_sign, name_in, named, names, names_same, year_for};
ghost use Rattle.stamps.specs.Years.{year_in};

use crate::arguments::is;
use crate::readers::{Reader, line_stamp};
use crate::reading::year_of;
use utc_times::UtcDateTime;

/// The year of a file by the values of `--year`: that of the first value which names the file, or
/// else of the first one which names none.
pub fn year_for<'a>(values: &[&'a [u8]], name: &[u8]) -> Option<&'a [u8]>
    ensures { option_map (λ year. year.now) result
        ≡ year_for name.now (map (λ value. value.now) values.now) }
{
    match named(values, name) {
        Some(year) => Some(year),
        None => first_unnamed(values),
    }
}

// The year of the first value that names a file.
#[tactic(auto, unfolding(crate::specs::Years::named))]
fn named<'a>(values: &[&'a [u8]], name: &[u8]) -> Option<&'a [u8]>
    ensures { option_map (λ year. year.now) result
        ≡ named name.now (map (λ value. value.now) values.now) }
{
    let Some((value, rest)) = values.split_first() else {
        return None;
    };
    if names(value, name) {
        Some(year_in(value))
    } else {
        named(rest, name)
    }
}

// The year of the first value that names no file.
#[tactic(auto, unfolding(crate::specs::Years::first_unnamed))]
fn first_unnamed<'a>(values: &[&'a [u8]]) -> Option<&'a [u8]>
    ensures { option_map (λ year. year.now) result
        ≡ first_unnamed (map (λ value. value.now) values.now) }
{
    let Some((value, rest)) = values.split_first() else {
        return None;
    };
    match last_sign(value) {
        None => Some(value),
        Some(_) => first_unnamed(rest),
    }
}

// Whether a value names a file.
fn names(value: &[u8], name: &[u8]) -> bool
    ensures { result ≡ names name.now value.now }
{
    match name_in(value) {
        Some(own) => own == name,
        None => false,
    }
}

/// Whether two values name one file, or both none.
pub fn names_same(first: &[u8], second: &[u8]) -> bool
    ensures { result ≡ names_same first.now second.now }
{
    match name_in(first) {
        Some(name) => names(second, name),
        None => last_sign(second).is_none(),
    }
}

/// The name of the file in a value: what is before its last `=`, if it has one.
pub fn name_in(value: &[u8]) -> Option<&[u8]>
    ensures { option_map (λ name. name.now) result ≡ name_in value.now }
{
    match last_sign(value) {
        Some(place) => Some(&value[..place]),
        None => None,
    }
}

/// The year in a value: what follows its last `=`, or all of it.
pub fn year_in(value: &[u8]) -> &[u8]
    ensures { result.now ≡ year_in value.now }
{
    match last_sign(value) {
        Some(place) => &value[place + 1..],
        None => value,
    }
}

// The place of the last `=`.
#[tactic(auto, unfolding(crate::specs::Years::last_sign))]
fn last_sign(value: &[u8]) -> Option<usize>
    ensures value { result ≡ last_sign value.now }
    ensures within { IfSome result (λ place. place < length value.now) }
{
    let Some((first, rest)) = value.split_first() else {
        return None;
    };
    match last_sign(rest) {
        Some(place) => Some(place + 1),
        None => { if *first == b'=' { Some(0) } else { None } }
    }
}

/// Whether a text is a year, or the word `mtime`.
pub fn is_year(text: &[u8]) -> bool
    ensures { result ≡ is_year text.now }
{
    is(text, "mtime") || year_of(text).is_some()
}

/// Whether the stamp of a line, as the first one of its log, is at or before an instant.
pub fn is_until(reader: &Reader, is_first: bool, line: &[u8], bound: UtcDateTime) -> bool
    ensures { result ≡ is_until reader.now is_first line.now bound }
{
    match line_stamp(reader, None, is_first, line) {
        Ok(stamp) => !(bound < stamp.instant),
        Err(_) => false,
    }
}
