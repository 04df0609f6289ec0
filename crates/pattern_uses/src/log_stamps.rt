//! The stamps of a log.
ghost use Rattle.std.specs.Prelude.{◌≡◌, ◌≤◌, ◌<◌, ◌+◌, [], ℕ, Ok, Some, IfOk, IfSome, IsTrue, length};
ghost use Rattle.std.specs.Prelude.{drop, false, is_ok, not, option_map, take, true};
ghost use Rattle.std.specs.List.{count_by};
ghost use Rattle.log_forms.specs.Choices.{reader_form, reader_key, reader_place};
ghost use Rattle.log_forms.specs.Ends.{runs_on};
ghost use Rattle.log_forms.specs.Forms.{form_named, form_of};
ghost use Rattle.log_forms.specs.ReadLaws.{ReadsLine};
ghost use Rattle.log_forms.specs.Stamps.{longest_front, stamp_at};
ghost use Rattle.log_forms.specs.declared.choice.TheConstants.{READERS};
ghost use Rattle.log_forms.specs.declared.names.FormName.TheVariants.{Syslog};
ghost use Rattle.log_forms.specs.declared.places.Place.TheVariants.{Front, Json};

use format_descriptions::Item;
use log_forms::laws::{lines_are_read, stamps_end_apart};
use log_forms::{
    Assumed, Form, FormName, Place, Stamp, StampRefusal, is_read_by_any, named_form, own_form,
    reader_form, reader_key, reader_place, stamp_at,
};

/// The stamp of a line of `syslog`, in the year and at the offset that are assumed.
pub fn syslog_stamp(assumed: &Assumed, line: &[u8]) -> Result<Stamp, StampRefusal>
    ensures { result ≡ stamp_at (form_named Syslog) Front [] assumed.now line.now }
{
    stamp_at(
        &named_form(FormName::Syslog),
        Place::Front,
        b"",
        assumed,
        line,
    )
}

/// The stamp of an object of JSON, in the member of this name, by a pattern of the program's own.
/// None if it has none, or if the pattern has more than 64 items.
pub fn member_stamp(pattern: &[Item], name: &[u8], assumed: &Assumed, line: &[u8]) -> Option<Stamp>
    ensures value { IfSome result (λ stamp.
        stamp_at (form_of pattern.now) Json name.now assumed.now line.now ≡ Ok stamp) }
    ensures within { IfSome result (λ stamp. stamp.start + stamp.length ≤ length line.now) }
{
    if pattern.len() > 64 {
        return None;
    }
    stamp_at(&own_form(pattern), Place::Json, name, assumed, line).ok()
}

/// Whether a line begins with a stamp of a form.
pub fn has_stamp(form: &Form, assumed: &Assumed, line: &[u8]) -> bool
    ensures { result ≡ is_ok (stamp_at form.now Front [] assumed.now line.now) }
{
    stamp_at(form, Place::Front, b"", assumed, line).is_ok()
}

/// How many lines begin with no stamp of a form.
pub fn refused_lines(form: &Form, assumed: &Assumed, lines: &[&[u8]]) -> usize
    ensures { result ≡ count_by
        (λ line. not (is_ok (stamp_at form.now Front [] assumed.now line.now))) lines.now }
{
    lines
        .iter()
        .filter(|line| !has_stamp(form, assumed, line))
        .count()
}

/// The bytes of the stamp at the place of a reader, which `choose` returns by its number.
pub fn text_of_stamp<'a>(reader: usize, assumed: &Assumed, line: &'a [u8]) -> Option<&'a [u8]>
    ensures { IfOk (stamp_at (form_named (reader_form reader)) (reader_place reader)
        (reader_key reader) assumed.now line.now) (λ stamp. option_map (λ text. text.now) result
        ≡ Some (take stamp.length (drop stamp.start line.now))) }
{
    let (form, key) = (named_form(reader_form(reader)), reader_key(reader));
    match stamp_at(&form, reader_place(reader), key.as_bytes(), assumed, line) {
        Ok(stamp) => Some(&line[stamp.start..][..stamp.length]),
        Err(_) => None,
    }
}

/// Where the stamp of a line ends: where its last word ends.
pub fn end_of_stamp(form: &Form, assumed: &Assumed, line: &[u8]) -> Option<usize>
    ensures apart { IfSome result (λ end.
        runs_on true (drop end (take longest_front line.now)) ≡ false) }
    ensures within { IfSome result (λ end. end ≤ length line.now) }
{
    stamps_end_apart();
    match stamp_at(form, Place::Front, b"", assumed, line) {
        Ok(stamp) => Some(stamp.start + stamp.length),
        Err(_) => None,
    }
}

/// Whether some reader finds a stamp in a line that is no bare count of other years than 2000 to
/// 2039.
pub fn has_any_stamp(line: &[u8]) -> bool
    ensures { IsTrue result → (reader : ℕ) × (reader < READERS) × ReadsLine reader line.now }
{
    lines_are_read();
    is_read_by_any(line)
}
