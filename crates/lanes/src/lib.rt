//! The calendar in vector lanes: the date-times of four seconds at once, the seconds of four
//! date-times, and the dates of four days.
#![tactic(auto)]

pub mod calendar;
pub mod date_times;
pub mod dates;
pub mod minute_texts;
pub mod seconds;
