//! Date-times of Unix seconds, four at a time in vector lanes.
ghost use Rattle.std.specs.Prelude.{◌≡◌, ◌≤◌, ◌+◌, ◌++◌, length, take, drop, true, false};
ghost use Rattle.calendar_values.specs.Offsets.{IsOffset};
ghost use Rattle.lanes.specs.DateTimes.{IsWallSecond};
ghost use Rattle.muxandu_c.specs.Batches.{values_of, status_of_items};
ghost use Rattle.muxandu_c.specs.SecondBatches.{date_time_at_offset, with_four, date_time_of_lane};
ghost use Rattle.muxandu_c.specs.Values.{date_time_of_second};

use crate::batches::{ToDateTime, fill};
use crate::limits::{
    MUXANDU_OFFSET_MAX, MUXANDU_OFFSET_MIN, MUXANDU_SECONDS_MAX, MUXANDU_SECONDS_MIN,
};
use crate::values::{MuxanduBatch, MuxanduDateTime};
use lanes::date_times::{DateTime, date_times};

// The first and the last second at which clocks at every offset show a day of the range.
const FIRST: i64 = MUXANDU_SECONDS_MIN + MUXANDU_OFFSET_MAX as i64;

const LAST: i64 = MUXANDU_SECONDS_MAX - MUXANDU_OFFSET_MAX as i64;

// What clocks at an offset show at each second, up to the first that is refused: groups of four first, and the rest
// one by one.
#[inline(always)]
pub(crate) fn fill_from_seconds(
    seconds: &[i64],
    offset_seconds: i32,
    out: &mut [MuxanduDateTime],
) -> MuxanduBatch
    requires room { length seconds.now ≤ length out.old }
    ensures count { result.count ≡
        length (values_of (date_time_of_second offset_seconds) seconds.now) }
    ensures status { result.status ≡
        status_of_items (date_time_of_second offset_seconds) seconds.now }
    ensures written { out.new ≡ values_of (date_time_of_second offset_seconds) seconds.now
        ++ drop result.count out.old }
{
    let place = fill_groups(seconds, offset_seconds, out);
    let rest = fill(
        ToDateTime { offset_seconds },
        &seconds[place..],
        &mut out[place..],
    );
    MuxanduBatch {
        count: place + rest.count,
        status: rest.status,
    }
}

// Writes groups of four, up to the first that is not whole or has a second near an end of the range, and returns how
// many date-times these are: none where the offset is refused.
#[inline(always)]
fn fill_groups(seconds: &[i64], offset_seconds: i32, out: &mut [MuxanduDateTime]) -> usize
    requires room { length seconds.now ≤ length out.old }
    ensures values { take result out.new
        ++ values_of (date_time_of_second offset_seconds) (drop result seconds.now)
        ≡ values_of (date_time_of_second offset_seconds) seconds.now }
    ensures status { status_of_items (date_time_of_second offset_seconds) (drop result seconds.now)
        ≡ status_of_items (date_time_of_second offset_seconds) seconds.now }
    ensures behind { drop result out.new ≡ drop result out.old }
    ensures len { length out.new ≡ length out.old }
    ensures bound { result ≤ length seconds.now }
{
    if offset_seconds < MUXANDU_OFFSET_MIN || offset_seconds > MUXANDU_OFFSET_MAX {
        return 0;
    }
    let mut place = 0;
    'groups: while 4 <= seconds.len() - place {
        if !put_group(seconds, offset_seconds, out, place) {
            return place;
        }
        place += 4;
    }
    place
}

// Writes what clocks show at the four seconds from a place on, if all are far enough from the ends of the range, and
// else nothing; returns whether it wrote.
#[inline(always)]
fn put_group(
    seconds: &[i64],
    offset_seconds: i32,
    out: &mut [MuxanduDateTime],
    place: usize,
) -> bool
    requires offset { IsOffset offset_seconds }
    requires items { place + 4 ≤ length seconds.now }
    requires room { place + 4 ≤ length out.old }
    ensures values { result ≡ true →
        take (place + 4) out.new
        ++ values_of (date_time_of_second offset_seconds) (drop (place + 4) seconds.now)
        ≡ take place out.old
        ++ values_of (date_time_of_second offset_seconds) (drop place seconds.now) }
    ensures status { result ≡ true →
        status_of_items (date_time_of_second offset_seconds) (drop (place + 4) seconds.now)
        ≡ status_of_items (date_time_of_second offset_seconds) (drop place seconds.now) }
    ensures behind { drop (place + 4) out.new ≡ drop (place + 4) out.old }
    ensures unchanged { result ≡ false → out.new ≡ out.old }
    ensures len { length out.new ≡ length out.old }
{
    let a = seconds[place];
    let b = seconds[place + 1];
    let c = seconds[place + 2];
    let d = seconds[place + 3];
    let offset = i64::from(offset_seconds);
    if FIRST <= a
        && a <= LAST
        && FIRST <= b
        && b <= LAST
        && FIRST <= c
        && c <= LAST
        && FIRST <= d
        && d <= LAST
    {
        put_date_times(
            a + offset,
            b + offset,
            c + offset,
            d + offset,
            offset_seconds,
            out,
            place,
        );
        return true;
    }
    false
}

// Writes what clocks at an offset show at four seconds, counted by these clocks.
#[inline(always)]
fn put_date_times(
    a: i64,
    b: i64,
    c: i64,
    d: i64,
    offset_seconds: i32,
    out: &mut [MuxanduDateTime],
    place: usize,
)
    requires a { IsWallSecond a }
    requires b { IsWallSecond b }
    requires c { IsWallSecond c }
    requires d { IsWallSecond d }
    requires room { place + 4 ≤ length out.old }
    ensures { out.new ≡ with_four out.old place
        (date_time_at_offset offset_seconds a) (date_time_at_offset offset_seconds b)
        (date_time_at_offset offset_seconds c) (date_time_at_offset offset_seconds d) }
{
    let values = date_times(a, b, c, d, offset_seconds);
    out[place] = date_time_of_lane(values[0]);
    out[place + 1] = date_time_of_lane(values[1]);
    out[place + 2] = date_time_of_lane(values[2]);
    out[place + 3] = date_time_of_lane(values[3]);
}

// A date-time of the lanes as one that crosses.
#[inline(always)]
fn date_time_of_lane(at: DateTime) -> MuxanduDateTime
    ensures { result ≡ date_time_of_lane at }
{
    MuxanduDateTime {
        year: at.year,
        month: at.month,
        day: at.day,
        hour: at.hour,
        minute: at.minute,
        second: at.second,
        nanosecond: at.nanosecond,
        offset_seconds: at.offset_seconds,
    }
}
