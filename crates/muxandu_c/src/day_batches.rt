//! Dates of day numbers, four at a time in vector lanes.
ghost use Rattle.std.specs.Prelude.{◌≡◌, ◌≤◌, ◌+◌, ◌++◌, length, take, drop, true, false};
ghost use Rattle.calendar_values.specs.Range.{IsDay};
ghost use Rattle.muxandu_c.specs.Batches.{values_of, status_of_items};
ghost use Rattle.muxandu_c.specs.DayBatches.{date_of_lane};
ghost use Rattle.muxandu_c.specs.SecondBatches.{with_four};
ghost use Rattle.muxandu_c.specs.Values.{date_from_day, date_parts};

use crate::batches::{ToDate, fill};
use crate::values::{MuxanduBatch, MuxanduDate};
use lanes::dates::{Date, are_days, dates};

// The date of each day number, up to the first that is refused: groups of four first, and the rest one by one.
#[inline(always)]
pub(crate) fn fill_from_days(days: &[i32], out: &mut [MuxanduDate]) -> MuxanduBatch
    requires room { length days.now ≤ length out.old }
    ensures count { result.count ≡ length (values_of date_from_day days.now) }
    ensures status { result.status ≡ status_of_items date_from_day days.now }
    ensures written { out.new ≡ values_of date_from_day days.now ++ drop result.count out.old }
{
    let place = fill_date_groups(days, out);
    let rest = fill(ToDate, &days[place..], &mut out[place..]);
    MuxanduBatch {
        count: place + rest.count,
        status: rest.status,
    }
}

// Writes groups of four, up to the first that is not whole or has a day outside the range, and returns how many dates
// these are.
#[inline(always)]
fn fill_date_groups(days: &[i32], out: &mut [MuxanduDate]) -> usize
    requires room { length days.now ≤ length out.old }
    ensures values { take result out.new ++ values_of date_from_day (drop result days.now)
        ≡ values_of date_from_day days.now }
    ensures status { status_of_items date_from_day (drop result days.now)
        ≡ status_of_items date_from_day days.now }
    ensures behind { drop result out.new ≡ drop result out.old }
    ensures len { length out.new ≡ length out.old }
    ensures bound { result ≤ length days.now }
{
    let mut place = 0;
    'groups: while 4 <= days.len() - place {
        if !put_date_group(days, out, place) {
            return place;
        }
        place += 4;
    }
    place
}

// Writes the dates of the four days from a place on, if the range has all four, and else nothing; returns whether it
// wrote.
#[inline(always)]
fn put_date_group(days: &[i32], out: &mut [MuxanduDate], place: usize) -> bool
    requires items { place + 4 ≤ length days.now }
    requires room { place + 4 ≤ length out.old }
    ensures values { result ≡ true →
        take (place + 4) out.new ++ values_of date_from_day (drop (place + 4) days.now)
        ≡ take place out.old ++ values_of date_from_day (drop place days.now) }
    ensures status { result ≡ true →
        status_of_items date_from_day (drop (place + 4) days.now)
        ≡ status_of_items date_from_day (drop place days.now) }
    ensures behind { drop (place + 4) out.new ≡ drop (place + 4) out.old }
    ensures unchanged { result ≡ false → out.new ≡ out.old }
    ensures len { length out.new ≡ length out.old }
{
    let a = days[place];
    let b = days[place + 1];
    let c = days[place + 2];
    let d = days[place + 3];
    if are_days(a, b, c, d) {
        put_dates(a, b, c, d, out, place);
        return true;
    }
    false
}

// Writes the dates of four days of the range.
#[inline(always)]
fn put_dates(a: i32, b: i32, c: i32, d: i32, out: &mut [MuxanduDate], place: usize)
    requires a { IsDay a }
    requires b { IsDay b }
    requires c { IsDay c }
    requires d { IsDay d }
    requires room { place + 4 ≤ length out.old }
    ensures { out.new ≡ with_four out.old place
        (date_parts a) (date_parts b) (date_parts c) (date_parts d) }
{
    let values = dates(a, b, c, d);
    out[place] = date_of_lane(values[0]);
    out[place + 1] = date_of_lane(values[1]);
    out[place + 2] = date_of_lane(values[2]);
    out[place + 3] = date_of_lane(values[3]);
}

// A date of the lanes as one that crosses.
#[inline(always)]
fn date_of_lane(date: Date) -> MuxanduDate
    ensures { result ≡ date_of_lane date }
{
    MuxanduDate {
        year: date.year,
        month: date.month,
        day: date.day,
    }
}
