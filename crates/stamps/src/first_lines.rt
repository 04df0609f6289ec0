//! The reader of stamps that the first lines of an input choose.
ghost use Rattle.std.specs.Prelude.{◌≡◌, ◌<◌, ◌⊎◌, ℕ, Ok, OnOk, IfOk, false, length, take, true};
ghost use Rattle.std.specs.Io.KnownBytes.{IsAtEnd, Keeps};
ghost use Rattle.line_devices.specs.LineParts.{HasNone};
ghost use Rattle.stamps.specs.Ahead.{has_fault, head_of, inner_of, left_of};
ghost use Rattle.stamps.specs.Leading.{LooksAt, Stands};
ghost use Rattle.stamps.specs.LineStamps.{has_mark, mark_length};

use crate::ahead::{Ahead, MOST_AHEAD};
use crate::arguments::is;
use crate::changes::{Anew, Change, Choice};
use crate::choosing::{chosen_reader, is_plain};
use crate::files::{LONGEST_SIGN, packing_of};
use crate::first_years::{first_year, set_year};
use crate::instants::Chosen;
use crate::leading::{Leading, Look};
use crate::nearest::say_bare;
use crate::readers::{Reader, mark_length};
use crate::reading::{
    ReadingMisuse, needs_lines_before, offset_asked, reader_of, reading_line, without_time,
    year_asked,
};
use crate::sources::{FAILED, say, say_packed, time_of_change};
use crate::years::year_for;
use crate::zoned::with_zone;
use log_forms::{Place, form_name, reader_form, reader_key, reader_place};
use std::alloc::AllocError;
use std::io::Read;
use zones::OwnedZone;

/// How stamps are read, as far as words say it, where the first lines of a log choose their form.
#[derive(Clone, Copy)]
pub struct Given<'a> {
    /// Whether they do.
    pub chooses: bool,
    /// The value of `--form`.
    pub form: Option<&'a [u8]>,
    /// The value of `--place`.
    pub place: Option<&'a [u8]>,
    /// The value of `--offset`, or UTC where a zone is given.
    pub offset: Option<&'a [u8]>,
    /// The zone of `--zone`.
    pub zone: Option<&'static OwnedZone>,
    /// The name of the zone.
    pub zone_name: Option<&'a str>,
    /// The values of `--year`.
    pub years: &'a [&'a [u8]],
    /// Whether notes are left out.
    pub is_quiet: bool,
    /// The words before the files.
    pub words: &'a [String],
    /// The options with their values, as they are given.
    pub options: &'a [String],
}

/// The reader that the first lines of an input choose, if no word names one, or the one of the
/// words, if they give the input a year. Prints the chosen form and place, or that no line has a
/// stamp, with the name of the input. Fails with the exit status if the input is no text, or if the
/// form needs an option that is not given.
pub fn reader_chosen<R: Read>(
    rt: &HostRuntime,
    given: Given<'_>,
    reader: &Reader,
    said: &str,
    input: &mut Ahead<R>,
) -> Result<Chosen, u8> {
    let Ok(is_whole) = read_sign(input) else {
        return Err(fail_in_memory(rt, said));
    };
    if let Some(packing) = packing_of(input.head()) {
        say_packed(rt, given.words, given.options, said, packing);
        return Err(FAILED);
    }
    let Ok(look) = look_at(given.chooses, reader, input, is_whole) else {
        return Err(fail_in_memory(rt, said));
    };
    let choice = match look {
        Look::Chosen(number) => {
            if !is_plain(number) && !given.is_quiet {
                say_choice(rt, said, number);
            }
            Some(number)
        }
        Look::Readable => None,
        Look::Bare => {
            if !given.is_quiet {
                say_bare(rt, said, given.chooses, first_block(input.head()));
            }
            None
        }
    };
    let anew = anew_from(rt, given, choice, said);
    if choice.is_none() && (given.chooses || given.years.is_empty()) {
        return Ok(Chosen { reader: None, anew });
    }
    let made = match reader_in_year(rt, given, choice, said, first_block(input.head())) {
        Ok(reader) => reader,
        Err(misuse) => {
            say(rt, said, reading_line(misuse));
            return Err(FAILED);
        }
    };
    Ok(Chosen {
        reader: Some(made),
        anew,
    })
}

// How the form of an input is chosen anew, after the reader with a number or that of RFC 3339 in front, unless words name it.
fn anew_from(
    rt: &HostRuntime,
    given: Given<'_>,
    choice: Option<usize>,
    said: &str,
) -> Option<Anew> {
    if !given.chooses {
        return None;
    }
    let name = input_name(said);
    let year = match year_for(given.years, name.as_bytes()) {
        Some(text) if is(text, "mtime") => match time_of_change(rt, name) {
            Some(changed) => Some(changed.year()),
            None => None,
        },
        year => match year_asked(year) {
            Ok(year) => year,
            Err(_) => None,
        },
    };
    Some(Anew {
        number: choice.unwrap_or(0),
        offset: match offset_asked(given.offset) {
            Ok(offset) => offset,
            Err(_) => None,
        },
        year,
        zone: given.zone,
    })
}

// Says that no memory is left, and returns the exit status.
fn fail_in_memory(rt: &HostRuntime, said: &str) -> u8 {
    say(rt, said, "no memory is left");
    FAILED
}

// The reader of the form and the place with a number, or of the words, in the year of the input.
fn reader_in_year(
    rt: &HostRuntime,
    given: Given<'_>,
    choice: Option<usize>,
    said: &str,
    head: &[u8],
) -> Result<Reader, ReadingMisuse> {
    let name = input_name(said);
    let year = year_for(given.years, name.as_bytes());
    if !matches!(year, Some(text) if is(text, "mtime")) {
        return reader_by(given, choice, year);
    }
    let Some(changed) = time_of_change(rt, name) else {
        return reader_by(given, choice, None).map_err(without_time);
    };
    let mut reader = reader_by(given, choice, Some(b"2000"))?;
    if needs_lines_before(&reader) {
        let year = first_year(&mut reader, head, changed);
        set_year(&mut reader, year);
        if !given.is_quiet {
            say_year(rt, said, year);
        }
    }
    Ok(reader)
}

/// The reader of an input, or that of the words if the input has none of its own.
pub fn reader_or(own: Option<Reader>, given: Given<'_>) -> Result<Reader, ReadingMisuse> {
    match own {
        Some(own) => Ok(own),
        None => reader_by(given, None, None),
    }
}

// The reader of the form and the place with a number, or of the words, in a year.
fn reader_by(
    given: Given<'_>,
    choice: Option<usize>,
    year: Option<&[u8]>,
) -> Result<Reader, ReadingMisuse> {
    let reader = match choice {
        Some(number) => chosen_reader(number, given.offset, year)?,
        None => reader_of(given.form, given.place, given.offset, year)?,
    };
    Ok(with_zone(reader, given.zone))
}

// Says which year the last change of a file gives.
fn say_year(rt: &HostRuntime, said: &str, year: i32) {
    let line = format!(in rt.alloc();
        "the first stamp is of {year}, by the last change of the file"
    );
    if let Ok(line) = line {
        say(rt, said, line.as_str());
    }
}

// Reads as many bytes as tell that an input is no text. Returns whether it has no more.
fn read_sign<R: Read>(input: &mut Ahead<R>) -> Result<bool, AllocError> {
    for _ in 0..LONGEST_SIGN {
        if input.head().len() >= LONGEST_SIGN {
            return Ok(false);
        }
        if input.read_on()? == 0 {
            return Ok(true);
        }
    }
    Ok(false)
}

// Looks at the first lines of an input, and reads on until they tell its reader.
fn look_at<R: Read>(
    chooses: bool,
    reader: &Reader,
    input: &mut Ahead<R>,
    is_whole: bool,
) -> Result<Look, AllocError>
    ensures left { OnOk result
        (Keeps (left_of R.remaining input.old) (left_of R.remaining input.new)) }
    ensures look { IfOk result (λ look. LooksAt chooses reader.now
        (mark_length (has_mark true (head_of input.old))) (head_of input.new)
        ((is_whole ≡ true) ⊎ IsAtEnd (R.remaining (inner_of input.new))) (has_fault input.new)
        look) }
{
    let mut lines = Leading::new(chooses, mark_length(true, input.head()));
    let is_at_end = look_further(&mut lines, reader, input, is_whole)?;
    let head = first_block(input.head());
    lines.end(reader, head, is_at_end);
    Ok(lines.look(head))
}

// Reads on until the lines tell the reader of an input. Returns whether it has no more bytes.
fn look_further<R: Read>(
    lines: &mut Leading,
    reader: &Reader,
    input: &mut Ahead<R>,
    is_whole: bool,
) -> Result<bool, AllocError>
    ensures left { OnOk result
        (Keeps (left_of R.remaining input.old) (left_of R.remaining input.new)) }
    ensures chooses { lines.new.chooses ≡ lines.old.chooses }
    ensures stands { OnOk result ((first : ℕ)
        → Stands reader.now first (take 65536 (head_of input.old)) lines.old
        → Stands reader.now first (take 65536 (head_of input.new)) lines.new) }
    ensures all { OnOk result (lines.new.is_told ≡ false
        → HasNone 10 (take 65536 (head_of input.new)) lines.new.from
        (length (take 65536 (head_of input.new)))) }
    ensures at_end { result ≡ Ok true
        → (is_whole ≡ true) ⊎ IsAtEnd (R.remaining (inner_of input.new)) }
    ensures settled { result ≡ Ok false → has_fault input.new ≡ false
        → length (head_of input.new) < 65536 → lines.new.is_told ≡ true }
{
    let mut is_at_end = is_whole;
    let mut is_told = lines.look_on(reader, first_block(input.head()));
    'reads: while !is_told && !is_at_end && input.head().len() < MOST_AHEAD {
        is_at_end = input.read_on()? == 0;
        is_told = lines.look_on(reader, first_block(input.head()));
    }
    Ok(is_at_end && !input.has_fault())
}

// The first bytes of a head, which are looked at.
#[tactic(auto, using(crate::proofs::LeadingLemmas::blocks))]
fn first_block(head: &[u8]) -> &[u8]
    ensures { result.now ≡ take 65536 head.now }
{
    if head.len() <= MOST_AHEAD {
        return head;
    }
    &head[..MOST_AHEAD]
}

/// Says which forms an input changes to, and which it may have that lack an option.
pub fn say_changes(rt: &HostRuntime, said: &str, given: Given<'_>, choice: &Choice) {
    for change in choice.changes.items() {
        if let Ok(text) = change_text(rt, change, is_by_time(given, said)) {
            say(rt, said, text.as_str());
        }
    }
    if choice.more > 0 {
        let more = choice.more;
        if let Ok(text) = format!(in rt.alloc(); "{more} more changes of form") {
            say(rt, said, text.as_str());
        }
    }
}

// Whether the last change of an input is to give its year.
fn is_by_time(given: Given<'_>, said: &str) -> bool {
    matches!(year_for(given.years, input_name(said).as_bytes()), Some(year) if is(year, "mtime"))
}

// The name of an input in the words. Standard input has no name where no file is given.
fn input_name(said: &str) -> &str {
    if said.is_empty() { "-" } else { said }
}

// The text of a change: the first line that is read by the new form, and the forms before and after it. Where it lacks something, the
// remedy goes with the words.
fn change_text(rt: &HostRuntime, change: &Change, is_by_time: bool) -> Result<String, AllocError> {
    let (line, to) = (change.line, choice_text(rt, change.to)?);
    match change.lacks {
        Some(misuse) => {
            let lack = reading_line(if is_by_time {
                without_time(misuse)
            } else {
                misuse
            });
            format!(in rt.alloc(); "line {line}: {to} fits: {lack}")
        }
        None => {
            let (next, from) = (line.saturating_add(1), choice_text(rt, change.from)?);
            format!(in rt.alloc(); "line {next}: the form changes from {from} to {to}")
        }
    }
}

// Says which form and place were chosen.
fn say_choice(rt: &HostRuntime, said: &str, number: usize) {
    if let Ok(line) = choice_text(rt, number) {
        say(rt, said, line.as_str());
    }
}

// The form and the place of a number.
fn choice_text(rt: &HostRuntime, number: usize) -> Result<String, AllocError> {
    let form = form_name(reader_form(number));
    let key = reader_key(number);
    match reader_place(number) {
        Place::Front => format!(in rt.alloc(); "{form} at front"),
        Place::Field(field) => format!(in rt.alloc(); "{form} at field:{field}"),
        Place::After => format!(in rt.alloc(); "{form} at after:{key}"),
        Place::Json => format!(in rt.alloc(); "{form} at json:{key}"),
        Place::Access => format!(in rt.alloc(); "{form} at access"),
        Place::Coloured => format!(in rt.alloc(); "{form} at coloured"),
    }
}
