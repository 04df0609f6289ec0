//! Tables of transitions: how many lie at or before a second, and the kind of local time after
//! them.
ghost use Rattle.std.specs.Prelude.{◌≡◌, ◌↔◌, ◌+◌, ◌<◌, ◌≤◌, ◌≤ℤ◌, ◌<ℤ◌, ℕ, IsTrue, length};
ghost use Rattle.zones.specs.Clocks.{IsNext, IsLast, IsLastStarted};
ghost use Rattle.zones.specs.Seconds.{IsSecond};
ghost use Rattle.zones.specs.Tables.{IsForward, Follows, GoesOnTo, count_at, start_count_at, type_after, row_before, table_second, InTable, IsTableType};
ghost use Rattle.zones.specs.Tables.{row_at, row_start};

use crate::{TimeType, Transition};

// The last second that a zone knows; the first is as far before 1970.
const MOST_SECONDS: i64 = 34_560_000_000_000;

// Half of the mean year, in seconds.
const HALF_YEAR: u64 = 15_778_476;

// How many transitions lie at or before the second if clocks change twice a year up to the last
// one: a guess, from which the searches begin.
fn count_near(rows: &[Transition], second: i64) -> usize
    ensures { result ≤ length rows.now }
{
    let count = rows.len();
    if count == 0 {
        return 0;
    }
    let last = rows[count - 1].second;
    if last <= second {
        return count;
    }
    let back = (last.abs_diff(second) / HALF_YEAR) as usize;
    if back < count { count - 1 - back } else { 0 }
}

// Whether the last of that many transitions, if any, lies at or before the second.
fn has_begun(rows: &[Transition], second: i64, count: usize) -> bool
    requires { count ≤ length rows.now }
    ensures { IsTrue result → (k : ℕ) → k + 1 ≡ count → table_second rows.now k ≤ℤ second }
{
    if count == 0 {
        return true;
    }
    if rows[count - 1].second > second {
        return false;
    }
    true
}

// Whether the transition after that many, if any, lies after the second.
fn is_ahead(rows: &[Transition], second: i64, count: usize) -> bool
    requires { count ≤ length rows.now }
    ensures { IsTrue result → count < length rows.now → second <ℤ table_second rows.now count }
{
    if count == rows.len() {
        return true;
    }
    if rows[count].second <= second {
        return false;
    }
    true
}

// Whether that many transitions lie at or before the second.
fn is_count(first: TimeType, rows: &[Transition], second: i64, count: usize) -> bool
    requires forward { IsForward first rows.now }
    requires bound { count ≤ length rows.now }
    ensures { IsTrue result → count_at rows.now second ≡ count }
{
    if !has_begun(rows, second, count) {
        return false;
    }
    if !is_ahead(rows, second, count) {
        return false;
    }
    true
}

// How many transitions lie at or before the second, by halves of the table.
fn count_by_halves(first: TimeType, rows: &[Transition], second: i64) -> usize
    requires { IsForward first rows.now }
    ensures value { result ≡ count_at rows.now second }
    ensures bound { result ≤ length rows.now }
{
    let mut low = 0;
    let mut high = rows.len();
    while low < high {
        let middle = low + (high - low) / 2;
        if rows[middle].second <= second {
            low = middle + 1;
        } else {
            high = middle;
        }
    }
    low
}

// How many transitions lie at or before the second.
pub(crate) fn count_at(first: TimeType, rows: &[Transition], second: i64) -> usize
    requires { IsForward first rows.now }
    ensures value { result ≡ count_at rows.now second }
    ensures bound { result ≤ length rows.now }
{
    let near = count_near(rows, second);
    if is_count(first, rows, second, near) {
        return near;
    }
    if near < rows.len() && is_count(first, rows, second, near + 1) {
        return near + 1;
    }
    count_by_halves(first, rows, second)
}

// Whether the last of that many gaps and folds, if any, starts at or before the wall clock.
fn has_started(rows: &[Transition], local: i64, count: usize) -> bool
    requires { count ≤ length rows.now }
    ensures { IsTrue result → (k : ℕ) → k + 1 ≡ count → row_start (row_at rows.now k) ≤ℤ local }
{
    if count == 0 {
        return true;
    }
    if rows[count - 1].start() > local {
        return false;
    }
    true
}

// Whether the gap or fold after that many, if any, starts after the wall clock.
fn starts_later(rows: &[Transition], local: i64, count: usize) -> bool
    requires { count ≤ length rows.now }
    ensures { IsTrue result → count < length rows.now → local <ℤ row_start (row_at rows.now count) }
{
    if count == rows.len() {
        return true;
    }
    if rows[count].start() <= local {
        return false;
    }
    true
}

// Whether that many gaps and folds start at or before the wall clock.
fn is_start_count(first: TimeType, rows: &[Transition], local: i64, count: usize) -> bool
    requires forward { IsForward first rows.now }
    requires bound { count ≤ length rows.now }
    ensures { IsTrue result → start_count_at rows.now local ≡ count }
{
    if !has_started(rows, local, count) {
        return false;
    }
    if !starts_later(rows, local, count) {
        return false;
    }
    true
}

// How many gaps and folds start at or before the wall clock, by halves of the table.
fn start_count_by_halves(first: TimeType, rows: &[Transition], local: i64) -> usize
    requires { IsForward first rows.now }
    ensures value { result ≡ start_count_at rows.now local }
    ensures bound { result ≤ length rows.now }
{
    let mut low = 0;
    let mut high = rows.len();
    while low < high {
        let middle = low + (high - low) / 2;
        if rows[middle].start() <= local {
            low = middle + 1;
        } else {
            high = middle;
        }
    }
    low
}

// How many gaps and folds start at or before the wall clock.
pub(crate) fn start_count_at(first: TimeType, rows: &[Transition], local: i64) -> usize
    requires { IsForward first rows.now }
    ensures value { result ≡ start_count_at rows.now local }
    ensures bound { result ≤ length rows.now }
{
    let near = count_near(rows, local);
    if is_start_count(first, rows, local, near) {
        return near;
    }
    if near < rows.len() && is_start_count(first, rows, local, near + 1) {
        return near + 1;
    }
    start_count_by_halves(first, rows, local)
}

// The kind of local time after that many transitions.
pub(crate) fn type_after(first: TimeType, rows: &[Transition], count: usize) -> TimeType
    requires { count ≤ length rows.now }
    ensures { result ≡ type_after first rows.now count }
{
    if count == 0 {
        first
    } else {
        rows[count - 1].after
    }
}

// The kind of local time at the second: that after the last transition at or before it.
pub(crate) fn type_at(first: TimeType, rows: &[Transition], second: i64) -> TimeType
    requires { IsForward first rows.now }
    ensures { IsTableType first rows.now second result }
{
    type_after(first, rows, count_at(first, rows, second))
}

// The transition before that many.
fn row_before(rows: &[Transition], count: usize) -> Option<Transition>
    requires { count ≤ length rows.now }
    ensures { result ≡ row_before rows.now count }
{
    if count == 0 {
        None
    } else {
        Some(rows[count - 1])
    }
}

// The last transition at or before the second.
pub(crate) fn last(first: TimeType, rows: &[Transition], second: i64) -> Option<Transition>
    requires { IsForward first rows.now }
    ensures { IsLast (InTable rows.now) (table_second rows.now) (type_after first rows.now)
        second result }
{
    row_before(rows, count_at(first, rows, second))
}

// The last transition whose gap or fold starts at or before the wall clock.
pub(crate) fn last_started(first: TimeType, rows: &[Transition], local: i64) -> Option<Transition>
    requires { IsForward first rows.now }
    ensures { IsLastStarted (InTable rows.now) (table_second rows.now) (type_after first rows.now)
        local result }
{
    row_before(rows, start_count_at(first, rows, local))
}

// The first transition after the second.
pub(crate) fn next(first: TimeType, rows: &[Transition], second: i64) -> Option<Transition>
    requires { IsForward first rows.now }
    ensures { IsNext (InTable rows.now) (table_second rows.now) (type_after first rows.now)
        second result }
{
    let count = count_at(first, rows, second);
    if count < rows.len() {
        Some(rows[count])
    } else {
        None
    }
}

// Whether the second is at most 400,000,000 days from 1970.
fn is_second(second: i64) -> bool
    ensures { IsTrue result ↔ IsSecond second }
{
    if second < -MOST_SECONDS {
        return false;
    }
    second <= MOST_SECONDS
}

// Whether the row follows the one before it.
fn follows(first: TimeType, rows: &[Transition], place: usize) -> bool
    requires { place < length rows.now }
    ensures { IsTrue result ↔ Follows first rows.now place }
{
    let row = rows[place];
    if !is_second(row.second) {
        return false;
    }
    if !row.before.is(type_after(first, rows, place)) {
        return false;
    }
    if place == 0 {
        return true;
    }
    let last = rows[place - 1];
    if last.second >= row.second {
        return false;
    }
    if last.end() > row.start() {
        return false;
    }
    true
}

// How many rows from the first on follow the one before them.
pub(crate) fn rows_in_order(first: TimeType, rows: &[Transition]) -> usize
    ensures { GoesOnTo first rows.now result }
{
    let mut count = 0;
    'rows: while count < rows.len() {
        if !follows(first, rows, count) {
            return count;
        }
        count += 1;
    }
    count
}
