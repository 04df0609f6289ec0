//! Reads lines from standard input, and writes one answer line for each to standard output.
#![tactic(auto)]

mod answers;
mod bench;
mod call_words;
mod lines;
mod numbers;
mod reply_texts;
mod requests;
mod sending;
mod step_words;
#[cfg(test)]
mod tests;
mod words;

use bench::{bench, fault_line};
use line_devices::devices::Device;
use std::process::ExitCode;

fn main(rt: HostRuntime) -> ExitCode {
    let mut reader = Device::new(rt.stdin());
    let mut writer = Device::new(rt.stdout());
    match bench(rt.alloc(), &mut reader, &mut writer) {
        Ok(()) => ExitCode::SUCCESS,
        Err(fault) => {
            let _ = eprintln!(rt; "{}", fault_line(fault));
            ExitCode::FAILURE
        }
    }
}
