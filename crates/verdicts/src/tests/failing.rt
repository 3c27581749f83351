use review::report::print_report;
use std::io;
use std::io::{ErrorKind, Read, Write};
use std::test::Fail;

// One pair of two threads that are one STOP.
const FILE: [u8; 14] = [0x10, 0, 1, 0x00, 0x11, 0, 1, 0x00, 0x12, 0, 0, 0, 0, 0x1f];

const TEXT: &str = "0 0 reached 0:\n";

// Gives its bytes and then fails, where their end would be.
#[derive(Drop)]
struct FailingReader<'a> {
    bytes: &'a [u8],
}

impl Read for FailingReader<'_> {
    fn read(&mut self, buf: &mut [u8]) -> io::Result<usize> {
        if self.bytes.is_empty() {
            return Err(io::Error::from(ErrorKind::Other));
        }
        self.bytes.read(buf)
    }
}

// Takes so many bytes and then fails; it may also fail when it is flushed.
#[derive(Drop)]
struct FailingWriter {
    room: usize,
    flushes: bool,
}

impl Write for FailingWriter {
    fn write(&mut self, buf: &[u8]) -> io::Result<usize> {
        if self.room == 0 {
            return Err(io::Error::from(ErrorKind::Other));
        }
        let count = self.room.min(buf.len());
        self.room -= count;
        Ok(count)
    }

    fn flush(&mut self) -> io::Result<()> {
        if self.flushes {
            Ok(())
        } else {
            Err(io::Error::from(ErrorKind::Other))
        }
    }
}

// As much of a file as there is makes no report.
#[test]
fn failing_input_is_an_error(rt: HostRuntime) -> Result<(), Fail> {
    for count in 0..=FILE.len() {
        let mut printed = Vec::new(rt.alloc());
        let reader = FailingReader {
            bytes: &FILE[..count],
        };
        let answer = print_report(rt.alloc(), reader, &mut printed);
        assert!(rt; answer.is_err(), "after {count} bytes");
        assert!(rt; printed.is_empty(), "after {count} bytes");
    }
    Ok(())
}

#[test]
fn failing_output_is_an_error(rt: HostRuntime) {
    for room in 0..TEXT.len() {
        let mut output = FailingWriter {
            room,
            flushes: true,
        };
        let answer = print_report(rt.alloc(), FILE.as_slice(), &mut output);
        assert!(rt; answer.is_err(), "after {room} bytes");
    }
    for flushes in [false, true] {
        let mut output = FailingWriter {
            room: TEXT.len(),
            flushes,
        };
        let answer = print_report(rt.alloc(), FILE.as_slice(), &mut output);
        assert_eq!(rt; answer.is_ok(), flushes);
    }
}
