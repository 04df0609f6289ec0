//! Unix seconds of date-times, four at a time in vector lanes.
ghost use Rattle.std.specs.Prelude.{◌≡◌, ◌≤◌, ◌+◌, ◌++◌, length, take, drop, true, false};
ghost use Rattle.muxandu_c.specs.Batches.{values_of, status_of_items};
ghost use Rattle.muxandu_c.specs.DateTimeBatches.{lane_of_date_time};
ghost use Rattle.muxandu_c.specs.Values.{second_of_date_time};

use crate::batches::{ToSecond, fill};
use crate::values::{MuxanduBatch, MuxanduDateTime};
use lanes::date_times::DateTime;
use lanes::seconds::{are_inside, seconds};

// The Unix second of each date-time, up to the first that is refused: groups of four first, and the rest one by one.
#[inline(always)]
pub(crate) fn fill_from_date_times(date_times: &[MuxanduDateTime], out: &mut [i64]) -> MuxanduBatch
    requires room { length date_times.now ≤ length out.old }
    ensures count { result.count ≡ length (values_of second_of_date_time date_times.now) }
    ensures status { result.status ≡ status_of_items second_of_date_time date_times.now }
    ensures written { out.new ≡ values_of second_of_date_time date_times.now
        ++ drop result.count out.old }
{
    let place = fill_second_groups(date_times, out);
    let rest = fill(ToSecond, &date_times[place..], &mut out[place..]);
    MuxanduBatch {
        count: place + rest.count,
        status: rest.status,
    }
}

// Writes groups of four, up to the first that is not whole or has a date-time with a part out of its range or in the
// first or the last year of the range, and returns how many seconds these are.
#[inline(always)]
fn fill_second_groups(date_times: &[MuxanduDateTime], out: &mut [i64]) -> usize
    requires room { length date_times.now ≤ length out.old }
    ensures values { take result out.new
        ++ values_of second_of_date_time (drop result date_times.now)
        ≡ values_of second_of_date_time date_times.now }
    ensures status { status_of_items second_of_date_time (drop result date_times.now)
        ≡ status_of_items second_of_date_time date_times.now }
    ensures behind { drop result out.new ≡ drop result out.old }
    ensures len { length out.new ≡ length out.old }
    ensures bound { result ≤ length date_times.now }
{
    let mut place = 0;
    'groups: while 4 <= date_times.len() - place {
        if !put_second_group(date_times, out, place) {
            return place;
        }
        place += 4;
    }
    place
}

// Writes the seconds of the four date-times from a place on, if all have their parts in their ranges and lie in no year
// at an end of the range, and else nothing; returns whether it wrote.
#[inline(always)]
fn put_second_group(date_times: &[MuxanduDateTime], out: &mut [i64], place: usize) -> bool
    requires items { place + 4 ≤ length date_times.now }
    requires room { place + 4 ≤ length out.old }
    ensures values { result ≡ true →
        take (place + 4) out.new
        ++ values_of second_of_date_time (drop (place + 4) date_times.now)
        ≡ take place out.old ++ values_of second_of_date_time (drop place date_times.now) }
    ensures status { result ≡ true →
        status_of_items second_of_date_time (drop (place + 4) date_times.now)
        ≡ status_of_items second_of_date_time (drop place date_times.now) }
    ensures behind { drop (place + 4) out.new ≡ drop (place + 4) out.old }
    ensures unchanged { result ≡ false → out.new ≡ out.old }
    ensures len { length out.new ≡ length out.old }
{
    let a = lane_of_date_time(date_times[place]);
    let b = lane_of_date_time(date_times[place + 1]);
    let c = lane_of_date_time(date_times[place + 2]);
    let d = lane_of_date_time(date_times[place + 3]);
    if are_inside(a, b, c, d) {
        let values = seconds(a, b, c, d);
        out[place] = values[0];
        out[place + 1] = values[1];
        out[place + 2] = values[2];
        out[place + 3] = values[3];
        return true;
    }
    false
}

// A date-time that crosses as one of the lanes.
#[inline(always)]
fn lane_of_date_time(at: MuxanduDateTime) -> DateTime
    ensures { result ≡ lane_of_date_time at }
{
    DateTime {
        year: at.year,
        month: at.month,
        day: at.day,
        hour: at.hour,
        minute: at.minute,
        second: at.second,
        nanosecond: at.nanosecond,
        offset_seconds: at.offset_seconds,
    }
}
