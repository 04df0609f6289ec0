//! The choice of a form and a place by the first lines of a log.
ghost use Rattle.std.specs.Prelude.{◌≡◌, ◌≤◌, ◌<◌, ◌*◌, ◌+◌, ◌||◌, pos, ◌+ℤ◌, IsTrue, Some, drop, length, map, option_map, take};
ghost use Rattle.log_forms.specs.Forms.{items_of, lead_of};
ghost use Rattle.log_forms.specs.Stamps.{fits, front_reading};
ghost use Rattle.std.specs.Result.{is_ok};
ghost use Rattle.log_forms.specs.Choices.{any_reads, best_of, better_of, choice_of, count_in, count_read, is_read_by_any, most};
ghost use Rattle.std.specs.Char.{is_ascii_digit};
ghost use Rattle.std.specs.List.{list_all};
ghost use Rattle.log_forms.specs.Choices.{digits_behind_comma, even_by, even_in, first_known, is_even, text_of};
ghost use Rattle.log_forms.specs.Choices.{found_by, is_bare, is_bare_at, is_count, is_near, is_next, is_sure, names_counts, no_bare_in};
ghost use Rattle.log_forms.specs.Choices.{reader_form, reader_key, reader_place, reads, some_year, span_with, steady_by, steady_in};
ghost use Rattle.log_forms.specs.Places.{text_at};

use crate::form::{Form, named_form};
use crate::instants::Assumed;
use crate::names::{CHOSEN, FORMS, FormName, items_of, lead_of};
use crate::places::{Place, text_at};
use crate::stamps::{Stamp, front_of, stamp_at};
use calendar_values::UtcOffset;
use format_descriptions::{Item, parse_front};

/// The number of the readers among which one is chosen: 42 forms at 44 places.
pub const READERS: usize = 1848;

// The number of their places.
const PLACES: usize = 44;

/// The form of a reader, by its number: all forms that are chosen at the front, then at the next
/// place.
#[tactic(auto, unfolding(crate::specs::Choices::reader_form))]
pub fn reader_form(reader: usize) -> FormName
    ensures { result ≡ reader_form reader }
{
    FORMS[reader % CHOSEN]
}

/// The place of a reader, by its number.
pub fn reader_place(reader: usize) -> Place
    ensures { result ≡ reader_place reader }
{
    match reader / CHOSEN {
        0 => Place::Front,
        1 => Place::Coloured,
        2 => Place::Access,
        4..=14 => Place::Json,
        29 => Place::Field(2),
        30 => Place::Field(3),
        31 => Place::Field(1),
        _ => Place::After,
    }
}

/// The text or the name of the place of a reader, by its number. It is empty where the place has
/// none.
pub fn reader_key(reader: usize) -> &'static str
    ensures { result.now ≡ reader_key reader }
{
    match reader / CHOSEN {
        3 => "[",
        4 => "time",
        5 => "timestamp",
        6 => "@timestamp",
        7 => "ts",
        8 => "eventTime",
        9 => "@t",
        10 => "time_iso8601",
        11 => "time_local",
        12 => "msec",
        13 => "requestReceivedTimestamp",
        14 => "__REALTIME_TIMESTAMP",
        15 => "\"$date\":\"",
        16 => "time=\"",
        17 => "time=",
        18 => "time='",
        19 => "ts=",
        20 => " t=",
        21 => "t=",
        22 => "audit(",
        23 => "__REALTIME_TIMESTAMP=",
        24 => "eventtime=",
        25 => "\"eventTime\":\"",
        26 => ": [",
        27 => "] ",
        28 => " at ",
        32 => ",",
        33 => "\"",
        34 => "#",
        35 => ": ",
        36 => "ime\":\"",
        37 => "ime\": \"",
        38 => "tamp\":\"",
        39 => "tamp\": \"",
        40 => "='",
        41 => ">",
        42 => ",\"",
        43 => "=",
        _ => "",
    }
}

// Whether the place of a reader says that a count there is a Unix timestamp: it has a name, or a bracket.
fn names_counts(reader: usize) -> bool
    ensures { result ≡ names_counts reader }
{
    let number = reader / CHOSEN;
    2 <= number && number <= 26
}

/// The number of the reader for a log, by the first of its lines that a reader reads. It is the
/// first one that finds a stamp in both of the first two lines, if there is one. Otherwise it is
/// the one that finds a stamp in the most lines, and the first of these. None if no reader finds a
/// stamp. A reader of counts without a fraction, to which no name leads, needs two of them that
/// grow by less than 366 days. Stamps that end with digits after a comma choose a reader if each
/// has as many.
pub fn choose(lines: &[&[u8]]) -> Option<usize>
    ensures choice { result ≡ choice_of (map (λ line. line.now) lines.now) }
{
    match lines {
        [first, second, ..] => {
            let (count, reader) = best_of(READERS, &[*first, *second]);
            if count == 2 {
                Some(reader)
            } else {
                most(best_of(READERS, lines))
            }
        }
        _ => most(best_of(READERS, lines)),
    }
}

/// Whether one of the readers finds a stamp in a line. A bare count, such as `1709188200` at the
/// front, is a stamp if its year is one of 2000 to 2039.
pub fn is_read_by_any(line: &[u8]) -> bool
    ensures { result ≡ is_read_by_any line.now }
{
    any_at_places(PLACES, line)
}

// Whether a reader at one of the first places finds a stamp in a line.
fn any_at_places(places: usize, line: &[u8]) -> bool
    requires { places ≤ 44 }
    ensures { result ≡ any_reads (places * 42) line.now }
{
    if places == 0 {
        return false;
    }
    any_at_places(places - 1, line) || any_at_place(places - 1, line)
}

// Whether one of the forms finds a stamp in a line at a place, by its number. Where the line lacks the place, no form is tried there.
fn any_at_place(place: usize, line: &[u8]) -> bool
    requires { place < 44 }
    ensures { any_reads (place * 42 + 42) line.now ≡ (any_reads (place * 42) line.now || result) }
{
    match text_behind(place * CHOSEN, line) {
        Some(rest) => any_at(place, CHOSEN, line, rest),
        None => false,
    }
}

// What follows the place of a reader in a line, if the line has the place.
fn text_behind(reader: usize, line: &[u8]) -> Option<&[u8]>
    ensures { option_map (λ rest. rest.now) result
        ≡ text_at (reader_place reader) (reader_key reader) (take 65533 line.now) }
{
    text_at(
        reader_place(reader),
        reader_key(reader).as_bytes(),
        front_of(line),
    )
}

// Whether one of the first forms finds a stamp in a line at a place, by its number. What follows the place is given, so that most forms
// are passed over by their first item.
fn any_at(place: usize, forms: usize, line: &[u8], rest: &[u8]) -> bool
    requires place { place < 44 }
    requires forms { forms ≤ 42 }
    requires rest { text_at (reader_place (place * 42)) (reader_key (place * 42))
        (take 65533 line.now) ≡ Some rest.now }
    ensures { any_reads (place * 42 + forms) line.now
        ≡ (any_reads (place * 42) line.now || result) }
{
    if forms == 0 {
        return false;
    }
    any_at(place, forms - 1, line, rest) || reads_behind(place, forms - 1, line, rest)
}

// Whether a form finds a stamp in a line at a place, by what follows the place.
fn reads_behind(place: usize, form: usize, line: &[u8], rest: &[u8]) -> bool
    requires place { place < 44 }
    requires form { form < 42 }
    requires rest { text_at (reader_place (place * 42)) (reader_key (place * 42))
        (take 65533 line.now) ≡ Some rest.now }
    ensures { result ≡ reads (place * 42 + form) line.now }
{
    let reader = place * CHOSEN + form;
    fits(reader_form(reader), rest) && reads(reader, line)
}

// Whether the items of a form fit the front of a text.
fn fits(name: FormName, text: &[u8]) -> bool
    ensures { result ≡ fits (lead_of name) (items_of name) text.now }
{
    match parse_front(lead_of(name), text) {
        Ok((_, count)) => items_fit(items_of(name), behind(text, count)),
        Err(_) => false,
    }
}

// Whether items fit the front of a text.
fn items_fit(items: &[Item], text: &[u8]) -> bool
    ensures { result ≡ is_ok (front_reading items.now text.now) }
{
    match parse_front(items, text) {
        Ok(_) => true,
        Err(_) => false,
    }
}

// A text without this many bytes in front.
fn behind(text: &[u8], count: usize) -> &[u8]
    ensures { result.now ≡ drop count text.now }
{
    text.get(count..).unwrap_or(&[])
}

// Whether a reader finds a stamp in a line, which is no count that is far from now.
fn reads(reader: usize, line: &[u8]) -> bool
    ensures { result ≡ reads reader line.now }
{
    found_by(reader, &[line]) > 0 && (is_sure(reader, &[line]) || steady_by(reader, &[line]))
}

// The best reader, if it finds a stamp at all.
fn most(best: (usize, usize)) -> Option<usize>
    ensures { result ≡ most best }
{
    let (count, reader) = best;
    if count == 0 { None } else { Some(reader) }
}

// In how many lines the best of the first readers finds a stamp, and its number.
#[tactic(auto, using(crate::proofs::ChoiceLemmas::best_next))]
fn best_of(readers: usize, lines: &[&[u8]]) -> (usize, usize)
    ensures { result ≡ best_of readers (map (λ line. line.now) lines.now) }
{
    if readers == 0 {
        return (0, 0);
    }
    let before = best_of(readers - 1, lines);
    better_of(before, readers - 1, count_read(readers - 1, lines))
}

// The better of the best reader before and the next one.
fn better_of(before: (usize, usize), reader: usize, count: usize) -> (usize, usize)
    ensures { result ≡ better_of before reader count }
{
    if before.0 < count {
        (count, reader)
    } else {
        before
    }
}

// How many lines choose a reader: those in which it finds a stamp. Bare counts choose it if they are two, and grow slowly.
// Digits behind a comma choose it if each line has as many.
fn count_read(reader: usize, lines: &[&[u8]]) -> usize
    ensures { result ≡ count_read reader (map (λ line. line.now) lines.now) }
{
    let count = found_by(reader, lines);
    if count == 0
        || ((is_sure(reader, lines) || (count >= 2 && steady_by(reader, lines)))
            && even_by(reader, lines))
    {
        count
    } else {
        0
    }
}

// Whether the stamps of a reader that end with digits behind a comma have as many.
#[tactic(auto, unfolding(crate::specs::Choices::even_by))]
fn even_by(reader: usize, lines: &[&[u8]]) -> bool
    ensures { result ≡ even_by reader (map (λ line. line.now) lines.now) }
{
    let form = named_form(reader_form(reader));
    let key = reader_key(reader).as_bytes();
    even_in(&form, reader_place(reader), key, &some_year(), None, lines)
}

// Whether the stamps of a form that end with digits behind a comma have as many as those before, if there are such.
#[tactic(auto, unfolding(crate::specs::Choices::even_in))]
fn even_in(
    form: &Form,
    place: Place,
    key: &[u8],
    assumed: &Assumed,
    digits: Option<usize>,
    lines: &[&[u8]],
) -> bool
    ensures { result ≡ even_in form.now place key.now assumed.now digits
        (map (λ line. line.now) lines.now) }
{
    let Some((line, rest)) = lines.split_first() else {
        return true;
    };
    match stamp_at(form, place, key, assumed, line) {
        Ok(stamp) => {
            let own = digits_behind_comma(text_of(&stamp, line));
            is_even(digits, own)
                && even_in(form, place, key, assumed, first_known(digits, own), rest)
        }
        Err(_) => even_in(form, place, key, assumed, digits, rest),
    }
}

// The text of a stamp in its line.
fn text_of<'a>(stamp: &Stamp, line: &'a [u8]) -> &'a [u8]
    requires { stamp.now.start + stamp.now.length ≤ length line.now }
    ensures { result.now ≡ text_of stamp.now line.now }
{
    &line[stamp.start..][..stamp.length]
}

// The number of digits behind a comma at the end of a text, if it ends so.
#[tactic(auto, unfolding(crate::specs::Choices::digits_behind_comma))]
fn digits_behind_comma(text: &[u8]) -> Option<usize>
    ensures { result ≡ digits_behind_comma text.now }
{
    let mut rest = text;
    while let Some((first, more)) = rest.split_first() {
        if *first == b',' && are_digits(more) {
            return Some(more.len());
        }
        rest = more;
    }
    None
}

// Whether each byte of a text is a digit.
fn are_digits(text: &[u8]) -> bool
    ensures { result ≡ list_all is_ascii_digit text.now }
{
    text.iter().all(|byte| byte.is_ascii_digit())
}

// Whether two numbers of digits are the same, if there are two.
fn is_even(digits: Option<usize>, own: Option<usize>) -> bool
    ensures { result ≡ is_even digits own }
{
    match (digits, own) {
        (Some(digits), Some(own)) => digits == own,
        _ => true,
    }
}

// The first of two numbers that there is.
fn first_known(digits: Option<usize>, own: Option<usize>) -> Option<usize>
    ensures { result ≡ first_known digits own }
{
    match digits {
        Some(digits) => Some(digits),
        None => own,
    }
}

// What is assumed while a reader is chosen.
fn some_year() -> Assumed
    ensures { result ≡ some_year }
{
    Assumed {
        offset: Some(UtcOffset::UTC),
        year: Some(2_000),
        month: 0,
    }
}

// In how many lines a reader finds a stamp.
#[tactic(auto, unfolding(crate::specs::Choices::found_by))]
fn found_by(reader: usize, lines: &[&[u8]]) -> usize
    ensures { result ≡ found_by reader (map (λ line. line.now) lines.now) }
{
    let form = named_form(reader_form(reader));
    let key = reader_key(reader).as_bytes();
    count_in(&form, reader_place(reader), key, &some_year(), lines)
}

// Whether no stamp of a reader is a bare count.
#[tactic(auto, unfolding(crate::specs::Choices::is_sure))]
fn is_sure(reader: usize, lines: &[&[u8]]) -> bool
    ensures { result ≡ is_sure reader (map (λ line. line.now) lines.now) }
{
    let name = reader_form(reader);
    if names_counts(reader) || !is_count(name) {
        return true;
    }
    let form = named_form(name);
    let key = reader_key(reader).as_bytes();
    no_bare_in(&form, reader_place(reader), key, &some_year(), lines)
}

// Whether the stamps of a form are counts.
fn is_count(name: FormName) -> bool
    ensures { result ≡ is_count name }
{
    matches!(
        name,
        FormName::Unix | FormName::UnixMs | FormName::UnixUs | FormName::UnixNs
    )
}

// Whether each stamp of a form has more than the digits that it counts.
#[tactic(auto, unfolding(crate::specs::Choices::no_bare_in))]
fn no_bare_in(form: &Form, place: Place, key: &[u8], assumed: &Assumed, lines: &[&[u8]]) -> bool
    ensures { result ≡ no_bare_in form.now place key.now assumed.now
        (map (λ line. line.now) lines.now) }
{
    let Some((line, rest)) = lines.split_first() else {
        return true;
    };
    !is_bare_at(form, place, key, assumed, line) && no_bare_in(form, place, key, assumed, rest)
}

// Whether the stamp of a line, if it has one, has no more than the digits that its form counts.
fn is_bare_at(form: &Form, place: Place, key: &[u8], assumed: &Assumed, line: &[u8]) -> bool
    ensures { result ≡ is_bare_at form.now place key.now assumed.now line.now }
{
    match stamp_at(form, place, key, assumed, line) {
        Ok(stamp) => is_bare(form.digits, stamp.length),
        Err(_) => false,
    }
}

// Whether a stamp of this length has no more than the digits that are counted.
fn is_bare(digits: Option<usize>, length: usize) -> bool
    ensures { result ≡ is_bare digits length }
{
    match digits {
        Some(digits) => length <= digits,
        None => false,
    }
}

// Whether the stamps of a reader grow slowly, near now.
#[tactic(auto, unfolding(crate::specs::Choices::steady_by))]
fn steady_by(reader: usize, lines: &[&[u8]]) -> bool
    ensures { result ≡ steady_by reader (map (λ line. line.now) lines.now) }
{
    let form = named_form(reader_form(reader));
    let key = reader_key(reader).as_bytes();
    steady_in(&form, reader_place(reader), key, &some_year(), None, lines)
}

// Whether the stamps of a form grow slowly, near now, after those from the first to the last instant, if there are any.
#[tactic(auto, unfolding(crate::specs::Choices::steady_in))]
fn steady_in(
    form: &Form,
    place: Place,
    key: &[u8],
    assumed: &Assumed,
    span: Option<(i128, i128)>,
    lines: &[&[u8]],
) -> bool
    ensures { result ≡ steady_in form.now place key.now assumed.now span
        (map (λ line. line.now) lines.now) }
{
    let Some((line, rest)) = lines.split_first() else {
        return true;
    };
    match stamp_at(form, place, key, assumed, line) {
        Ok(stamp) => {
            let at = stamp.instant.unix_timestamp_nanos();
            is_next(span, at) && steady_in(form, place, key, assumed, span_with(span, at), rest)
        }
        Err(_) => steady_in(form, place, key, assumed, span, rest),
    }
}

// Whether an instant is near now, no earlier than the last one, and less than a year after the first.
fn is_next(span: Option<(i128, i128)>, at: i128) -> bool
    ensures { result ≡ is_next span at }
{
    match span {
        Some((first, last)) => {
            is_near(first) && is_near(at) && last <= at && at < year_after(first)
        }
        None => is_near(at),
    }
}

// Whether an instant is of one of the years 2000 to 2039.
fn is_near(at: i128) -> bool
    ensures { result ≡ is_near at }
{
    946_684_800_000_000_000 <= at && at < 2_208_988_800_000_000_000
}

// The instant 366 days later.
fn year_after(first: i128) -> i128
    requires { IsTrue (is_near first) }
    ensures { result ≡ first +ℤ pos 31_622_400_000_000_000 }
{
    first + 31_622_400_000_000_000
}

// The first and the last instant with one more.
fn span_with(span: Option<(i128, i128)>, at: i128) -> Option<(i128, i128)>
    ensures { result ≡ span_with span at }
{
    match span {
        Some((first, _)) => Some((first, at)),
        None => Some((at, at)),
    }
}

// In how many lines a form has a stamp at a place.
#[tactic(auto, unfolding(crate::specs::Choices::count_in))]
fn count_in(form: &Form, place: Place, key: &[u8], assumed: &Assumed, lines: &[&[u8]]) -> usize
    ensures value { result ≡ count_in form.now place key.now assumed.now
        (map (λ line. line.now) lines.now) }
    ensures at_most { result ≤ length lines.now }
{
    let Some((line, rest)) = lines.split_first() else {
        return 0;
    };
    let count = count_in(form, place, key, assumed, rest);
    match stamp_at(form, place, key, assumed, line) {
        Ok(_) => count + 1,
        Err(_) => count,
    }
}
