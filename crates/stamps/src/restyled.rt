//! An output that writes the stamps in front of its lines in another style.
ghost use Rattle.std.specs.Prelude.{◌≡◌, []};

use crate::lines::{LineFault, Work, feed, finish};
use crate::readers::Reader;
use crate::task::{Action, Style, Task};
use line_devices::devices::{Device, DeviceFault, Sink};
use line_devices::sending::Pending;
use std::io::Write;

/// A device whose lines begin with stamps of RFC 3339, which it writes in a style, as the word of
/// that style does.
#[derive(Drop)]
pub struct Restyled<T> {
    device: Device<T>,
    task: Task,
    work: Work,
}

impl<T: Write> Restyled<T> {
    /// The output to which nothing was written.
    pub fn new(device: Device<T>, style: Style) -> Restyled<T>
        ensures { result.device ≡ device }
    {
        let task = Task {
            action: Action::Write(style, false),
            reader: Reader::Plain,
            anew: None,
        };
        let work = Work::new(&task);
        Restyled { device, task, work }
    }

    /// Writes what is kept of the last line, which no line feed ends. Returns the device, and
    /// whether that write failed.
    pub fn end(self) -> (Device<T>, bool) {
        let Restyled {
            mut device,
            task,
            mut work,
        } = self;
        let mut pending = Pending::new(0);
        let has_failed = finish(&task, &mut device, &mut pending, &mut work).is_err();
        (device, has_failed)
    }
}

impl<T: Write> Sink for Restyled<T> {
    ghost use Rattle.std.specs.Prelude.{None};
    ghost use Rattle.line_devices.specs.Device.{has_failed};

    ghost written = { λ _. None };

    ghost is_marked = { λ output. has_failed output.device };

    fn write_some(&mut self, text: &[u8]) -> Result<usize, DeviceFault> {
        let mut pending = Pending::new(0);
        match feed(
            &self.task,
            &mut self.device,
            &mut pending,
            &mut self.work,
            text,
        ) {
            Ok(()) => Ok(text.len()),
            Err(LineFault::Write) => Err(DeviceFault),
            Err(LineFault::Found(_)) => Ok(text.len()),
        }
    }

    fn failed(&self) -> bool {
        self.device.failed()
    }
}
