//! The reader that the first lines of a log choose.
ghost use Rattle.std.specs.Prelude.{◌≡◌, ◌+◌, ◌≤◌, IfOk, length, option_map};
ghost use Rattle.log_forms.specs.Choices.{reader_form, reader_place};
ghost use Rattle.stamps.specs.Choosing.{both_read, chosen_by_two, chosen_reader, chosen_with, is_plain, named_reader, reads, stamp_by};

use crate::readers::{PlaceText, Reader};
use crate::reading::{
    ReadingMisuse, offset_asked, place_text, plain_reader, whole_reader, year_asked,
};
use calendar_values::UtcOffset;
use log_forms::{
    Assumed, FormName, Place, Stamp, StampRefusal, choose, named_form, reader_form, reader_key,
    reader_place, stamp_at,
};

/// Whether the reader that two lines choose reads a stamp in both.
pub fn both_read(first: &[u8], second: &[u8]) -> bool
    ensures { result ≡ both_read first.now second.now }
{
    chosen_by_two(first, second).is_some()
}

/// The number of the reader that two lines choose, if it reads a stamp in both.
pub fn chosen_by_two(first: &[u8], second: &[u8]) -> Option<usize>
    ensures { result ≡ chosen_by_two first.now second.now }
{
    match choose(&[first, second]) {
        Some(number) if reads(number, first) && reads(number, second) => Some(number),
        _ => None,
    }
}

// Whether the reader of this number reads a stamp in a line.
fn reads(number: usize, line: &[u8]) -> bool
    ensures { result ≡ reads number line.now }
{
    stamp_by(number, line).is_ok()
}

/// The stamp that the reader of this number reads in a line.
pub fn stamp_by(number: usize, line: &[u8]) -> Result<Stamp, StampRefusal>
    ensures stamp { result ≡ stamp_by number line.now }
    ensures within { IfOk result (λ stamp. stamp.start + stamp.length ≤ length line.now) }
{
    let assumed = Assumed {
        offset: Some(UtcOffset::UTC),
        year: Some(2_000),
        month: 0,
    };
    let form = named_form(reader_form(number));
    let key = reader_key(number).as_bytes();
    stamp_at(&form, reader_place(number), key, &assumed, line)
}

/// Whether the reader of this number is that of RFC 3339 at the front.
pub fn is_plain(number: usize) -> bool
    ensures { result ≡ is_plain (reader_form number) (reader_place number) }
{
    matches!(
        (reader_form(number), reader_place(number)),
        (FormName::Rfc3339, Place::Front)
    )
}

/// The reader of the form and the place of this number, with the values of `--offset` and `--year`,
/// as far as they are given.
pub fn chosen_reader(
    number: usize,
    offset: Option<&[u8]>,
    year: Option<&[u8]>,
) -> Result<Reader, ReadingMisuse>
    ensures { result ≡ chosen_reader number (option_map (λ word. word.now) offset.entry)
        (option_map (λ word. word.now) year.entry) }
{
    let offset = offset_asked(offset)?;
    chosen_with(number, offset, year_asked(year)?)
}

/// The reader of the form and the place of this number, with an offset and a year, as far as they
/// are given.
pub fn chosen_with(
    number: usize,
    offset: Option<UtcOffset>,
    year: Option<i32>,
) -> Result<Reader, ReadingMisuse>
    ensures { result ≡ chosen_with number offset year }
{
    let (place, text) = place_text(reader_place(number), reader_key(number).as_bytes())?;
    named_reader(reader_form(number), place, text, offset, year)
}

// The reader of a form of this name at a place.
fn named_reader(
    name: FormName,
    place: Place,
    text: PlaceText,
    offset: Option<UtcOffset>,
    year: Option<i32>,
) -> Result<Reader, ReadingMisuse>
    ensures { result ≡ named_reader name place text offset year }
{
    match name {
        FormName::Rfc3339 => plain_reader(place, text, offset, year),
        name => whole_reader(named_form(name), place, text, offset, year),
    }
}
