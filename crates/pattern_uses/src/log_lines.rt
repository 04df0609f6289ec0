//! The lines of a log, one after another.
ghost use Rattle.std.specs.Prelude.{◌≡◌, ◌+◌, [], drop, false, IfOk, Ok, Some, None, IfSome, map, option_map};
ghost use Rattle.line_counts.specs.Counting.{empty_count, most};
ghost use Rattle.line_counts.specs.Steps.{step_of};
ghost use Rattle.line_devices.specs.StampTallies.{kind_of, tally_after};
ghost use Rattle.log_forms.specs.Choices.{choice_of, reader_form, reader_place};
ghost use Rattle.log_forms.specs.Stamps.{stamp_at};
ghost use Rattle.log_forms.specs.Years.{assumed_after};
ghost use Rattle.log_forms.specs.declared.places.Place.TheVariants.{Front};

use line_counts::buckets::steps_between;
use line_devices::stamp_tallies::{StampTally, kind_of};
use log_forms::{
    Assumed, Form, FormName, Place, Stamp, assumed_after, choose, reader_form, reader_place,
    stamp_at,
};
use utc_times::UtcDateTime;

/// The form and the place of the stamps of a log, by its first lines.
pub fn reading_of(lines: &[&[u8]]) -> Option<(FormName, Place)>
    ensures { result ≡ option_map (λ reader. (reader_form reader, reader_place reader))
        (choice_of (map (λ line. line.now) lines.now)) }
{
    match choose(lines) {
        Some(reader) => Some((reader_form(reader), reader_place(reader))),
        None => None,
    }
}

/// The stamp at the front of the next line, in the year in which its month is nearest to that of
/// the last stamp.
pub fn next_stamp(
    form: &Form,
    assumed: &Assumed,
    last: Option<UtcDateTime>,
    line: &[u8],
) -> Option<Stamp>
    ensures { IfSome result (λ stamp.
        stamp_at form.now Front [] (assumed_after assumed.now last) line.now ≡ Ok stamp) }
{
    stamp_at(form, Place::Front, b"", &assumed_after(assumed, last), line).ok()
}

/// The message of a line: the bytes after the stamp at its front, if it has one.
pub fn message_of<'a>(form: &Form, assumed: &Assumed, line: &'a [u8]) -> Option<&'a [u8]>
    ensures { IfOk (stamp_at form.now Front [] assumed.now line.now) (λ stamp.
        option_map (λ message. message.now) result
        ≡ Some (drop (stamp.start + stamp.length) line.now)) }
{
    match stamp_at(form, Place::Front, b"", assumed, line) {
        Ok(stamp) => Some(&line[stamp.start + stamp.length..]),
        Err(_) => None,
    }
}

/// The tally of a log with one more line, which has this number and no stamp.
pub fn with_line(tally: StampTally, number: u64, line: &[u8]) -> StampTally
    ensures { result ≡ tally_after tally number (kind_of line.now false) }
{
    tally.after(number, kind_of(line, false))
}

/// The number of hours that begin from an instant on and before another.
pub fn hours_between(from: UtcDateTime, to: UtcDateTime) -> u64
    ensures { result ≡ empty_count (step_of 3_600_000_000_000) most from to }
{
    steps_between(from, to, 3_600_000_000_000)
}
