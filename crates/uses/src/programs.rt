//! Small programs.
use crate::exchange::answer;
use calendar_values::SignedDuration;
use std::io;
use utc_times::UtcDateTime;

/// Prints the day after the epoch.
pub fn print_tomorrow(rt: HostRuntime) -> io::Result<()> {
    let day = SignedDuration::days(1);
    match UtcDateTime::UNIX_EPOCH.checked_add(day) {
        Some(tomorrow) => println!(rt; "{tomorrow}"),
        None => println!(rt; "past the last date"),
    }
}

/// Answers each line of standard input: its Unix seconds, or why the stamp is refused.
pub fn answer_lines(rt: HostRuntime) -> io::Result<()> {
    for line in rt.lines(rt.alloc()) {
        println!(rt; "{}", answer(line?.as_bytes()))?;
    }
    Ok(())
}

/// Prints when a reminder is due.
pub fn print_due(rt: HostRuntime) -> io::Result<()> {
    match UtcDateTime::UNIX_EPOCH.checked_add(SignedDuration::days(30)) {
        Some(due) => println!(rt; "due {due}")?,
        None => println!(rt; "never due")?,
    }
    Ok(())
}
