//! Readers and writers whose calls fail. Each error is a fault, whatever its kind is: a call is not
//! tried again.
use super::support::{ended, same};
use dagbench_engine::{Device, Mode, Stop, serve};
use std::alloc::Global;
use std::io;
use std::io::{ErrorKind, Read, Write};
use std::process::Abort;
use std::test::Fail;

/// Gives at most `most` bytes a read. One call fails, and those after it succeed.
#[derive(Drop)]
struct Reader<'a> {
    rest: &'a [u8],
    most: usize,
    passes: u32,
    error: ErrorKind,
}

impl<'a> Read for Reader<'a> {
    fn read(&mut self, buffer: &mut [u8]) -> io::Result<usize> {
        if self.passes == 0 {
            self.passes = u32::MAX;
            return Err(io::Error::from(self.error));
        }
        self.passes -= 1;
        let count = buffer.len().min(self.most);
        self.rest.read(&mut buffer[..count])
    }
}

/// Takes four bytes a write. One call fails or takes nothing, and those after it succeed.
#[derive(Drop)]
struct Writer {
    taken: Vec<u8>,
    passes: u32,
    error: Option<ErrorKind>,
}

impl Writer {
    /// Counts a call, which is an error or takes nothing if it is to fail.
    fn pass(&mut self) -> io::Result<bool> {
        if self.passes == 0 {
            self.passes = u32::MAX;
            return match self.error {
                Some(error) => Err(io::Error::from(error)),
                None => Ok(false),
            };
        }
        self.passes -= 1;
        Ok(true)
    }
}

impl Write for Writer {
    fn write(&mut self, bytes: &[u8]) -> io::Result<usize> {
        if !self.pass()? {
            return Ok(0);
        }
        let count = bytes.len().min(4);
        self.taken.extend_from_slice(&bytes[..count])?;
        Ok(count)
    }

    fn flush(&mut self) -> io::Result<()> {
        self.pass()?;
        Ok(())
    }
}

const LINES: &'static str = "node 1\nnode 2\n";

/// How many reads succeed before one fails, how the run ends, and what it writes.
const READS: [(u32, Result<(), Stop>, &'static str); 4] = [
    (0, Err(Stop::Read), ""),
    (1, Err(Stop::Read), "n0\n"),
    (2, Err(Stop::Read), "n0\nn1\n"),
    (3, Ok(()), "n0\nn1\n"),
];

/// A run over such a reader.
fn read(
    rt: &impl Abort,
    alloc: Global,
    most: usize,
    passes: u32,
    error: ErrorKind,
    outcome: Result<(), Stop>,
    wanted: &[u8],
) {
    let rest = LINES.as_bytes();
    let mut source = Device::new(Reader {
        rest,
        most,
        passes,
        error,
    });
    let mut taken = Vec::new(alloc);
    let mut sink = Device::new(&mut taken);
    let found = serve(alloc, Mode::Compact, &mut source, &mut sink);
    ended(rt, found, outcome);
    drop(sink);
    same(rt, taken.as_slice(), wanted);
}

#[test]
fn a_reader_may_give_one_byte_at_a_time(rt: HostRuntime) {
    for (passes, outcome, wanted) in [
        (u32::MAX, Ok(()), "n0\nn1\n"),
        (13, Err(Stop::Read), "n0\n"),
    ] {
        let error = ErrorKind::UnexpectedEof;
        read(
            &rt,
            rt.alloc(),
            1,
            passes,
            error,
            outcome,
            wanted.as_bytes(),
        );
    }
}

#[test]
fn each_error_of_a_reader_is_a_fault(rt: HostRuntime) -> Result<(), Fail> {
    for error in [
        ErrorKind::Interrupted,
        ErrorKind::UnexpectedEof,
        ErrorKind::WouldBlock,
    ] {
        for (passes, outcome, wanted) in READS {
            // A line a read.
            let most = 7;
            read(
                &rt,
                rt.alloc(),
                most,
                passes,
                error,
                outcome,
                wanted.as_bytes(),
            );
        }
    }
    Ok(())
}

/// How many calls succeed before a write or the flush fails, how the run ends, and what it writes:
/// two pieces, and then it flushes.
const WRITES: [(u32, Result<(), Stop>, &'static str); 4] = [
    (0, Err(Stop::Write), ""),
    (1, Err(Stop::Write), "n0\nn"),
    (2, Err(Stop::Write), "n0\nn1\n"),
    (3, Ok(()), "n0\nn1\n"),
];

/// A run over such a writer.
fn written(
    rt: &impl Abort,
    alloc: Global,
    passes: u32,
    error: Option<ErrorKind>,
    outcome: Result<(), Stop>,
    wanted: &[u8],
) {
    let mut writer = Writer {
        taken: Vec::new(alloc),
        passes,
        error,
    };
    let mut source = Device::new(LINES.as_bytes());
    let mut sink = Device::new(&mut writer);
    let found = serve(alloc, Mode::Compact, &mut source, &mut sink);
    ended(rt, found, outcome);
    drop(sink);
    same(rt, writer.taken.as_slice(), wanted);
}

#[test]
fn each_error_of_a_writer_is_a_fault(rt: HostRuntime) {
    for error in [
        ErrorKind::Interrupted,
        ErrorKind::BrokenPipe,
        ErrorKind::WouldBlock,
    ] {
        for (passes, outcome, wanted) in WRITES {
            written(
                &rt,
                rt.alloc(),
                passes,
                Some(error),
                outcome,
                wanted.as_bytes(),
            );
        }
    }
}

#[test]
fn a_writer_that_takes_nothing_is_a_fault(rt: HostRuntime) {
    for passes in 0..2 {
        let (_, outcome, wanted) = WRITES[passes as usize];
        written(&rt, rt.alloc(), passes, None, outcome, wanted.as_bytes());
    }
}
