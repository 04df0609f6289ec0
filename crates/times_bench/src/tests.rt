// Inputs that end in no line feed or are long, and devices that fail at each call in turn.
use super::bench::{BenchFault, bench, fault_line};
use line_devices::devices::{Device, Sink, Source};
use std::alloc::Global;
use std::io;
use std::io::{Read, Write};
use std::test::Fail;

/// The output if no call fails and there is memory.
fn answered(alloc: Global, input: &[u8]) -> Result<Vec<u8>, Fail> {
    let mut page = Vec::new(alloc);
    match bench(alloc, &mut Device::new(input), &mut Device::new(&mut page)) {
        Ok(()) => Ok(page),
        Err(fault) => Err(Fail::from(fault_line(fault))),
    }
}

/// Inputs whose last line no line feed ends.
const LAST_LINES: [(&str, &str); 7] = [
    ("", ""),
    ("stamp 0 0", "1970-01-01 0:00:00.0 +00 1 Thursday 2440588\n"),
    ("run 0 0 year", "1970; end 0\n"),
    ("run 0 0 year ", "bad line\n"),
    ("chain 0 0 utc stamp", "stamp 0\n"),
    ("run 31494784780800 0", "refused seconds\n"),
    (
        "unix 0\nrun 0 0 day",
        "1970-01-01 0:00:00.0 +00\n1; end 0\n",
    ),
];

#[test]
fn answers_last_lines(rt: HostRuntime) -> Result<(), Fail> {
    for (input, answers) in LAST_LINES {
        let page = answered(rt.alloc(), input.as_bytes())?;
        assert_eq!(rt; page.as_slice(), answers.as_bytes(), "at {input:?}");
    }
    Ok(())
}

#[test]
fn answers_long_lines(rt: HostRuntime) -> Result<(), Fail> {
    // A line has at most 1,024 bytes. Those of 65,536 bytes and more are longer than a block.
    for (zeros, answer) in [
        (1_019usize, "1970-01-01 0:00:00.0 +00\n"),
        (1_020, "bad line\n"),
        (65_530, "bad line\n"),
        (65_531, "bad line\n"),
        (100_000, "bad line\n"),
    ] {
        let mut input = Vec::new(rt.alloc());
        input.extend_from_slice(b"unix ")?;
        for _ in 0..zeros {
            input.push(b'0')?;
        }
        input.extend_from_slice(b"\nunix -1\n")?;
        let page = answered(rt.alloc(), input.as_slice())?;
        let Some(rest) = page.as_slice().strip_prefix(answer.as_bytes()) else {
            return Err(Fail::from("another answer"));
        };
        assert_eq!(rt;
            rest,
            b"1969-12-31 23:59:59.0 +00\n".as_slice(),
            "at {zeros} zeros"
        );
    }
    Ok(())
}

#[test]
fn answers_many_lines(rt: HostRuntime) -> Result<(), Fail> {
    // One block holds all the lines, and their answers take 75,000 bytes.
    let mut input = Vec::new(rt.alloc());
    let mut wanted = Vec::new(rt.alloc());
    for _ in 0..3_000 {
        input.extend_from_slice(b"unix 0\n")?;
        wanted.extend_from_slice(b"1970-01-01 0:00:00.0 +00\n")?;
    }
    let page = answered(rt.alloc(), input.as_slice())?;
    assert!(rt; page.as_slice() == wanted.as_slice());
    Ok(())
}

/// Seconds whose numbers of digits take different ways of reading, and their texts.
const NUMBERS: [(&str, &str); 11] = [
    ("1", "1970-01-01 0:00:01.0 +00"),
    ("1234567", "1970-01-15 6:56:07.0 +00"),
    ("12345678", "1970-05-23 21:21:18.0 +00"),
    ("123456789", "1973-11-29 21:33:09.0 +00"),
    ("123456789012", "5882-03-11 0:30:12.0 +00"),
    ("12345678901234", "+393188-12-28 2:20:34.0 +00"),
    ("-12345678", "1969-08-11 2:38:42.0 +00"),
    ("-1234567890", "1930-11-18 0:28:30.0 +00"),
    ("000000012345678", "1970-05-23 21:21:18.0 +00"),
    ("000000000000000001", "1970-01-01 0:00:01.0 +00"),
    ("123456789012345678", "refused timestamp"),
];

#[test]
fn answers_numbers_of_any_length(rt: HostRuntime) -> Result<(), Fail> {
    for (number, answer) in NUMBERS {
        let line = format!(in rt.alloc(); "unix {number}")?;
        let wanted = format!(in rt.alloc(); "{answer}\n")?;
        let page = answered(rt.alloc(), line.as_bytes())?;
        assert_eq!(rt; page.as_slice(), wanted.as_bytes(), "at {number}");
    }
    Ok(())
}

#[test]
fn answers_numbers_with_another_character(rt: HostRuntime) -> Result<(), Fail> {
    // The characters before `0` and after `9`, and some whose low bits are those of a digit.
    for character in [b'/', b':', b'p', 0xb1, 0] {
        for place in 0..10usize {
            let mut line = *b"unix 1234567890";
            line[5 + place] = character;
            let page = answered(rt.alloc(), &line)?;
            assert_eq!(rt; page.as_slice(), b"bad line\n".as_slice(), "at {place}");
        }
    }
    Ok(())
}

/// A text that is read a few bytes a call. One call fails, and the calls after it work.
#[derive(Drop)]
struct Tape<'a> {
    rest: &'a [u8],
    step: usize,
    calls_to_failure: Option<usize>,
}

impl Read for Tape<'_> {
    fn read(&mut self, buffer: &mut [u8]) -> io::Result<usize> {
        if fails(&mut self.calls_to_failure) {
            return Err(io::Error::other("torn"));
        }
        let count = self.step.min(self.rest.len()).min(buffer.len());
        buffer[..count].copy_from_slice(&self.rest[..count]);
        let rest = self.rest;
        self.rest = &rest[count..];
        Ok(count)
    }
}

/// A page that is written a few bytes a call. One call fails, and the calls after it work.
#[derive(Drop)]
struct Page {
    bytes: Vec<u8>,
    step: usize,
    calls_to_failure: Option<usize>,
}

impl Write for Page {
    fn write(&mut self, text: &[u8]) -> io::Result<usize> {
        if fails(&mut self.calls_to_failure) {
            return Err(io::Error::other("full"));
        }
        let count = self.step.min(text.len());
        self.bytes.extend_from_slice(&text[..count])?;
        Ok(count)
    }

    fn flush(&mut self) -> io::Result<()> {
        Ok(())
    }
}

/// Whether this is the call that fails.
fn fails(calls_to_failure: &mut Option<usize>) -> bool {
    match *calls_to_failure {
        Some(0) => {
            *calls_to_failure = None;
            true
        }
        Some(calls) => {
            *calls_to_failure = Some(calls - 1);
            false
        }
        None => false,
    }
}

/// Lines that end after 7, 15, 28 and 44 bytes.
const LINES: &str = "unix 0\nunix -1\nrun 0 0 year\nchain 0 0 stamp\n";

/// Their answers, which end after 25, 51, 63 and 71 bytes.
const ANSWERS: &str = "1970-01-01 0:00:00.0 +00\n1969-12-31 23:59:59.0 +00\n1970; end 0\nstamp 0\n";

/// The output if the reader returns 5 bytes a call and the writer takes this number of bytes a
/// call, and the reason for the end.
fn run(
    alloc: Global,
    step: usize,
    failing_read: Option<usize>,
    failing_write: Option<usize>,
) -> (Vec<u8>, Result<(), BenchFault>, bool, bool) {
    let mut page = Page {
        bytes: Vec::new(alloc),
        step,
        calls_to_failure: failing_write,
    };
    let mut reader = Device::new(Tape {
        rest: LINES.as_bytes(),
        step: 5,
        calls_to_failure: failing_read,
    });
    let mut writer = Device::new(&mut page);
    let result = bench(alloc, &mut reader, &mut writer);
    let read_failed = reader.failed();
    let write_failed = writer.failed();
    (page.bytes, result, read_failed, write_failed)
}

#[test]
fn each_read_fails(rt: HostRuntime) -> Result<(), Fail> {
    // The lines end in the second read, the third, the sixth and the ninth, and the tenth finds the end.
    for (calls, length) in [
        (0usize, 0usize),
        (1, 0),
        (2, 25),
        (3, 51),
        (4, 51),
        (5, 51),
        (6, 63),
        (7, 63),
        (8, 63),
        (9, 71),
    ] {
        let (written, result, read_failed, write_failed) = run(rt.alloc(), 10, Some(calls), None);
        assert_eq!(rt; result, Err(BenchFault::Read), "after {calls} reads");
        assert_eq!(rt;
            Some(written.as_slice()),
            ANSWERS.as_bytes().get(..length),
            "after {calls} reads"
        );
        assert!(rt; read_failed, "after {calls} reads");
        assert!(rt; !write_failed, "after {calls} reads");
    }
    Ok(())
}

#[test]
fn each_write_fails(rt: HostRuntime) -> Result<(), Fail> {
    for (calls, length) in [
        (0usize, 0usize),
        (1, 10),
        (2, 20),
        (3, 25),
        (4, 35),
        (5, 45),
        (6, 51),
        (7, 61),
        (8, 63),
    ] {
        let (written, result, read_failed, write_failed) = run(rt.alloc(), 10, None, Some(calls));
        assert_eq!(rt; result, Err(BenchFault::Write), "after {calls} writes");
        assert_eq!(rt;
            Some(written.as_slice()),
            ANSWERS.as_bytes().get(..length),
            "after {calls} writes"
        );
        assert!(rt; !read_failed, "after {calls} writes");
        assert!(rt; write_failed, "after {calls} writes");
    }
    Ok(())
}

#[test]
fn no_call_fails(rt: HostRuntime) -> Result<(), Fail> {
    // 71 bytes are written.
    for (step, calls) in [(10usize, 9usize), (1, 71)] {
        let (written, result, read_failed, write_failed) = run(
            rt.alloc(),
            step,
            Some(10),
            Some(calls),
        );
        assert_eq!(rt; result, Ok(()));
        assert_eq!(rt; written.as_slice(), ANSWERS.as_bytes());
        assert!(rt; !read_failed);
        assert!(rt; !write_failed);
    }
    Ok(())
}

#[test]
fn write_of_no_byte_fails(rt: HostRuntime) -> Result<(), Fail> {
    let mut page = Page {
        bytes: Vec::new(rt.alloc()),
        step: 0,
        calls_to_failure: None,
    };
    let mut writer = Device::new(&mut page);
    let result = bench(rt.alloc(), &mut Device::new(LINES.as_bytes()), &mut writer);
    assert_eq!(rt; result, Err(BenchFault::Write));
    assert!(rt; writer.failed());
    assert!(rt; writer.write_some(b"x").is_err());
    Ok(())
}

#[test]
fn names_faults(rt: HostRuntime) -> Result<(), Fail> {
    assert_eq!(rt; fault_line(BenchFault::Read), "read failed");
    assert_eq!(rt; fault_line(BenchFault::Write), "write failed");
    assert_eq!(rt; fault_line(BenchFault::Memory), "out of memory");
    Ok(())
}
