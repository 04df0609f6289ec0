//! The reader that the words of the command line ask for.
ghost use Rattle.std.specs.Prelude.{◌≡◌, ◌≤◌, drop, length, option_map};
ghost use Rattle.stamps.specs.Reading.{is_valued, needs_lines_before};
ghost use Rattle.stamps.specs.Reading.{form_asked, is_front, kind_of, offset_asked, place_asked, place_text, plain_reader};
ghost use Rattle.stamps.specs.Reading.{reader_of, reader_with, reading_text};
ghost use Rattle.stamps.specs.Reading.{step_after, style_asked, twice_of, whole_reader, without_time, year_asked, year_of};

use crate::arguments::is;
use crate::files::is_dashes;
use crate::readers::{FormReader, MOST_TEXT, PlaceText, Reader};
use crate::task::Style;
use calendar_values::UtcOffset;
use log_forms::{
    Assumed, Form, FormName, Place, described_form, lacks_offset, lacks_year, name_of, named_form,
    place_of,
};
use rfc3339::{TextRefusal, parse_rfc3339_offset};

/// The kind of a word of the command line.
#[derive(Clone, Copy, Debug, PartialEq, Eq)]
pub enum Step {
    /// A word of another kind.
    Word,
    /// `--form`.
    Form,
    /// `--place`, or `--at`.
    Place,
    /// `--offset`.
    Offset,
    /// `--year`.
    Year,
    /// `--to`.
    To,
    /// `--zone`.
    Zone,
    /// `--until`.
    Until,
    /// `--quiet`.
    Quiet,
    /// `--verbose`.
    Verbose,
    /// `--list-forms`.
    List,
    /// The value of the option before it.
    Value,
    /// `--`, or a word after it.
    File,
}

/// The kind of a word, by that of the word before it. The first word is one after `Word`.
pub fn step_after(before: Step, word: &[u8]) -> Step
    ensures { result ≡ step_after before word.now }
{
    match before {
        Step::File => Step::File,
        _ if is_valued(before) => Step::Value,
        _ => kind_of(word),
    }
}

/// Whether the next word is the value of a word of this kind.
pub fn is_valued(step: Step) -> bool
    ensures { result ≡ is_valued step }
{
    match step {
        Step::Form
        | Step::Place
        | Step::Offset
        | Step::Year
        | Step::To
        | Step::Zone
        | Step::Until => true,
        Step::Word | Step::Quiet | Step::Verbose | Step::List | Step::Value | Step::File => false,
    }
}

/// The kind of a word that is no value.
pub fn kind_of(word: &[u8]) -> Step
    ensures { result ≡ kind_of word.now }
{
    if is_dashes(word) {
        Step::File
    } else if is(word, "--form") {
        Step::Form
    } else if is(word, "--place") || is(word, "--at") {
        Step::Place
    } else if is(word, "--offset") {
        Step::Offset
    } else if is(word, "--year") {
        Step::Year
    } else if is(word, "--to") {
        Step::To
    } else if is(word, "--zone") {
        Step::Zone
    } else if is(word, "--until") {
        Step::Until
    } else if is(word, "--quiet") {
        Step::Quiet
    } else if is(word, "--verbose") {
        Step::Verbose
    } else if is(word, "--list-forms") {
        Step::List
    } else {
        Step::Word
    }
}

/// The misuse of the words for how stamps are read.
#[derive(Clone, Copy, Debug, PartialEq, Eq)]
pub enum ReadingMisuse {
    /// The form has no such name, and is no description.
    UnknownForm,
    /// The description of the form is at fault.
    Description,
    /// The place is unknown.
    Place,
    /// The text of the place is too long.
    LongPlace,
    /// The offset is invalid.
    Offset(TextRefusal),
    /// The year is invalid.
    Year,
    /// The year is that of a file which is not named.
    YearFile,
    /// The time of the last change of a file gives the year, and the input has none.
    YearTime,
    /// The form has no offset, and none is given.
    LacksOffset,
    /// The form has no year, and none is given.
    LacksYear,
    /// The form has neither, and none is given.
    LacksBoth,
    /// `--form` is given twice.
    FormTwice,
    /// `--place` is given twice.
    PlaceTwice,
    /// `--offset` is given twice.
    OffsetTwice,
    /// `--year` is given twice.
    YearTwice,
    /// The style of a merge is invalid.
    To(TextRefusal),
    /// A style is given for another word than `merge`.
    ToAlone,
    /// `--to` is given twice.
    ToTwice,
    /// `--zone` is given twice.
    ZoneTwice,
    /// `--until` is given twice.
    UntilTwice,
    /// `--zone` and `--offset` are given.
    ZoneAndOffset,
}

/// The misuse of an option that is given twice.
pub fn twice_of(option: Step) -> ReadingMisuse
    ensures { result ≡ twice_of option }
{
    match option {
        Step::Form => ReadingMisuse::FormTwice,
        Step::Place => ReadingMisuse::PlaceTwice,
        Step::Offset => ReadingMisuse::OffsetTwice,
        Step::To => ReadingMisuse::ToTwice,
        Step::Zone => ReadingMisuse::ZoneTwice,
        Step::Until => ReadingMisuse::UntilTwice,
        _ => ReadingMisuse::YearTwice,
    }
}

/// The reader of the values of `--form`, `--place`, `--offset` and `--year`, as far as they are
/// given.
#[tactic(auto, unfolding(crate::specs::Reading::reader_of))]
pub fn reader_of(
    form: Option<&[u8]>,
    at: Option<&[u8]>,
    offset: Option<&[u8]>,
    year: Option<&[u8]>,
) -> Result<Reader, ReadingMisuse>
    ensures { result ≡ reader_of (option_map (λ word. word.now) form.entry)
        (option_map (λ word. word.now) at.entry) (option_map (λ word. word.now) offset.entry)
        (option_map (λ word. word.now) year.entry) }
{
    let (place, text) = place_asked(at)?;
    let offset = offset_asked(offset)?;
    let year = year_asked(year)?;
    reader_with(form, place, text, offset, year)
}

// The place and its text, or the front of the line.
fn place_asked(at: Option<&[u8]>) -> Result<(Place, PlaceText), ReadingMisuse>
    ensures { result ≡ place_asked (option_map (λ word. word.now) at.entry) }
{
    let Some(word) = at else {
        return Ok((Place::Front, text_of(b"")));
    };
    let Some((place, count)) = place_of(word) else {
        return Err(ReadingMisuse::Place);
    };
    place_text(place, behind(word, count))
}

/// A place and its text of at most 255 bytes.
pub(crate) fn place_text(place: Place, text: &[u8]) -> Result<(Place, PlaceText), ReadingMisuse>
    ensures { result ≡ place_text place text.now }
{
    if text.len() > MOST_TEXT {
        return Err(ReadingMisuse::LongPlace);
    }
    Ok((place, text_of(text)))
}

// A word without this many bytes in front.
#[tactic(auto, using(crate::proofs::ReadingLemmas::behinds))]
#[inline(always)]
pub(crate) fn behind(word: &[u8], count: usize) -> &[u8]
    ensures { result.now ≡ drop count word.now }
{
    if count < word.len() {
        &word[count..]
    } else {
        &[]
    }
}

// A table of the bytes of a text.
fn text_of(bytes: &[u8]) -> PlaceText
    requires { length bytes.now ≤ 255 }
    ensures { result ≡ bytes.now }
{
    let mut table = PlaceText::new(0);
    table.push_all(bytes);
    table
}

// The offset, if it is given.
pub(crate) fn offset_asked(offset: Option<&[u8]>) -> Result<Option<UtcOffset>, ReadingMisuse>
    ensures { result ≡ offset_asked (option_map (λ word. word.now) offset.entry) }
{
    let Some(word) = offset else {
        return Ok(None);
    };
    match parse_rfc3339_offset(word) {
        Ok(offset) => Ok(Some(offset)),
        Err(refusal) => Err(ReadingMisuse::Offset(refusal)),
    }
}

// The year, if it is given.
pub(crate) fn year_asked(year: Option<&[u8]>) -> Result<Option<i32>, ReadingMisuse>
    ensures { result ≡ year_asked (option_map (λ word. word.now) year.entry) }
{
    let Some(word) = year else {
        return Ok(None);
    };
    match year_of(word) {
        Some(year) => Ok(Some(year)),
        None => Err(ReadingMisuse::Year),
    }
}

// The year of four digits.
pub(crate) fn year_of(word: &[u8]) -> Option<i32>
    ensures { result ≡ year_of word.now }
{
    let [a, b, c, d] = word else {
        return None;
    };
    if a.is_ascii_digit() && b.is_ascii_digit() && c.is_ascii_digit() && d.is_ascii_digit() {
        let hundreds = (*a - b'0') as i32 * 10 + (*b - b'0') as i32;
        let rest = (*c - b'0') as i32 * 10 + (*d - b'0') as i32;
        Some(hundreds * 100 + rest)
    } else {
        None
    }
}

// The reader of a form at a place.
fn reader_with(
    form: Option<&[u8]>,
    place: Place,
    text: PlaceText,
    offset: Option<UtcOffset>,
    year: Option<i32>,
) -> Result<Reader, ReadingMisuse>
    ensures { result
        ≡ reader_with (option_map (λ word. word.now) form.entry) place text offset year }
{
    match form {
        Some(word) if !is(word, "rfc3339") => {
            whole_reader(form_asked(word)?, place, text, offset, year)
        }
        _ => plain_reader(place, text, offset, year),
    }
}

// The reader of RFC 3339 at a place.
pub(crate) fn plain_reader(
    place: Place,
    text: PlaceText,
    offset: Option<UtcOffset>,
    year: Option<i32>,
) -> Result<Reader, ReadingMisuse>
    ensures { result ≡ plain_reader place text offset year }
{
    if is_front(place) {
        return Ok(Reader::Plain);
    }
    whole_reader(named_form(FormName::Rfc3339), place, text, offset, year)
}

// Whether a place is the front of the line.
fn is_front(place: Place) -> bool
    ensures { result ≡ is_front place }
{
    match place {
        Place::Front => true,
        Place::Field(_) | Place::After | Place::Json | Place::Access | Place::Coloured => false,
    }
}

// The form of a name or of a description.
fn form_asked(word: &[u8]) -> Result<Form, ReadingMisuse>
    ensures { result ≡ form_asked word.now }
{
    if let Some(name) = name_of(word) {
        return Ok(named_form(name));
    }
    if !word.contains(&b'[') {
        return Err(ReadingMisuse::UnknownForm);
    }
    match described_form(word) {
        Ok(form) => Ok(form),
        Err(_) => Err(ReadingMisuse::Description),
    }
}

// The reader of a form that has an offset and a year, or for which they are given.
pub(crate) fn whole_reader(
    form: Form,
    place: Place,
    text: PlaceText,
    offset: Option<UtcOffset>,
    year: Option<i32>,
) -> Result<Reader, ReadingMisuse>
    ensures { result ≡ whole_reader form place text offset year }
{
    let needs_offset = lacks_offset(&form) && offset.is_none();
    let needs_year = lacks_year(&form) && year.is_none();
    if needs_offset && needs_year {
        return Err(ReadingMisuse::LacksBoth);
    }
    if needs_offset {
        return Err(ReadingMisuse::LacksOffset);
    }
    if needs_year {
        return Err(ReadingMisuse::LacksYear);
    }
    let year = if lacks_year(&form) { year } else { None };
    Ok(Reader::Formed(FormReader {
        form,
        place,
        text,
        assumed: Assumed {
            offset,
            year,
            month: 0,
        },
        zone: None,
    }))
}

/// The style that a word names: `utc`, `unix`, or an offset.
pub fn style_asked(word: &[u8]) -> Result<Style, ReadingMisuse>
    ensures { result ≡ style_asked word.now }
{
    if is(word, "utc") {
        return Ok(Style::Utc);
    }
    if is(word, "unix") {
        return Ok(Style::Unix);
    }
    match parse_rfc3339_offset(word) {
        Ok(offset) => Ok(Style::At(offset)),
        Err(refusal) => Err(ReadingMisuse::To(refusal)),
    }
}

/// Whether the stamps that a reader finds depend on the lines before.
pub fn needs_lines_before(reader: &Reader) -> bool
    ensures { result ≡ needs_lines_before reader.now }
{
    match reader {
        Reader::Plain => false,
        Reader::Formed(reader) => reader.assumed.year.is_some(),
    }
}

/// The misuse of a form whose year the last change of the input gives, where the input has none.
/// Its remedy takes the place of a word that is given: the year that of `mtime`, once there is an
/// offset.
pub fn without_time(misuse: ReadingMisuse) -> ReadingMisuse
    ensures { result ≡ without_time misuse }
{
    match misuse {
        ReadingMisuse::LacksYear => ReadingMisuse::YearTime,
        ReadingMisuse::LacksBoth => ReadingMisuse::LacksOffset,
        misuse => misuse,
    }
}

/// The text of a misuse: the error and its remedy.
pub fn reading_line(misuse: ReadingMisuse) -> &'static str
    ensures { result.now ≡ reading_text misuse }
{
    match misuse {
        ReadingMisuse::UnknownForm =>
            "the form '' is unknown: write a name of --list-forms, or a description, as [day]/[month]/[year]",
        ReadingMisuse::Description =>
            "the description '' is at fault: write it as [day]/[month repr:short]/[year]",
        ReadingMisuse::Place =>
            "the place '' is unknown: write front, access, coloured, field:N, after:TEXT or json:NAME",
        ReadingMisuse::LongPlace =>
            "the text of the place has more than 255 bytes: write a shorter one",
        ReadingMisuse::Offset(TextRefusal::Syntax) =>
            "the offset '' has another form: write it as +05:30 or Z",
        ReadingMisuse::Offset(TextRefusal::OutOfRange(_)) =>
            "the offset '' is out of range: write one from -23:59 to +23:59",
        ReadingMisuse::Year =>
            "the year '' has another form: write its four digits, as 2024, FILE=2024 or mtime",
        ReadingMisuse::YearFile =>
            "--year names the file '', which the command does not read: write the name as there",
        ReadingMisuse::YearTime =>
            "the input has no time of a last change: write the first year in place of mtime, as --year 2024",
        ReadingMisuse::LacksOffset => "the form has no offset: add one, as --offset +05:30",
        ReadingMisuse::LacksYear => "the form has no year: add the first one, as --year 2024",
        ReadingMisuse::LacksBoth =>
            "the form has no offset and no year: add them, as --offset +05:30 --year 2024",
        ReadingMisuse::FormTwice => "--form is given twice: leave one out",
        ReadingMisuse::PlaceTwice => "--place is given twice: leave one out",
        ReadingMisuse::OffsetTwice => "--offset is given twice: leave one out",
        ReadingMisuse::YearTwice => "--year is given twice: leave one out",
        ReadingMisuse::To(TextRefusal::Syntax) =>
            "the style '' is unknown: write utc, unix, or an offset, as +05:30",
        ReadingMisuse::To(TextRefusal::OutOfRange(_)) =>
            "the offset '' is out of range: write one from -23:59 to +23:59",
        ReadingMisuse::ToAlone =>
            "--to goes with merge alone: write utc, unix, or at OFFSET, in place of it",
        ReadingMisuse::ToTwice => "--to is given twice: leave one out",
        ReadingMisuse::ZoneTwice => "--zone is given twice: leave one out",
        ReadingMisuse::UntilTwice => "--until is given twice: leave one out",
        ReadingMisuse::ZoneAndOffset => "--zone and --offset are given: leave one out",
    }
}
