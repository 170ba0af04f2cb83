ghost use Rattle.std.specs.Io.{WritesAtMost};

use crate::plan::raise;
use crate::{Failed, Sink};
use std::io;
use std::io::Write;
use std::marker::Model;
use std::rt::{Stderr, Stdout};

/// A writer as a sink. What is written is unknown. Each put is one write and one flush; every error counts as a
/// fault, and so does a write that takes nothing of a piece that isn't empty. The count is what contracts see.
#[derive(Drop)]
pub struct Stream<W: Write> {
    writer: W,
    fault_count: u64,
}

impl<W: Write> Model for Stream<W> {
    ghost use Rattle.std.specs.Prelude.{ℕ};

    ghost Value = { ℕ };

    ghost view = { λ s. s.fault_count };
}

impl Stream<Stdout> {
    ghost use Rattle.std.specs.Prelude.{◌≡◌};

    /// The standard output as a sink.
    pub fn output(stdout: Stdout) -> Stream<Stdout>
        ensures { result ≡ 0 }
    {
        Stream {
            writer: stdout,
            fault_count: 0,
        }
    }
}

impl Stream<Stderr> {
    ghost use Rattle.std.specs.Prelude.{◌≡◌};

    /// The standard error as a sink.
    pub fn error(stderr: Stderr) -> Stream<Stderr>
        ensures { result ≡ 0 }
    {
        Stream {
            writer: stderr,
            fault_count: 0,
        }
    }
}

impl<W: Write> Sink for Stream<W> {
    ghost use Rattle.std.specs.Prelude.{◌<◌, ◌≤◌, None, length, IfOk};
    ghost use Rattle.simit_io.specs.Inputs.{CountsFailure};

    ghost written = { λ _. None };

    ghost faults = { λ count. count };

    fn put(&mut self, bytes: &[u8]) -> Result<usize, Failed>
        ensures bound { IfOk result (λ size. size ≤ length bytes.now) }
        ensures progress { 0 < length bytes.now → IfOk result (λ size. 0 < size) }
        ensures faults { CountsFailure result self.old self.new }
        ensures counted { self.old ≤ self.new }
    {
        match write_through(&mut self.writer, bytes) {
            Ok(size) if size > 0 || bytes.is_empty() => Ok(size),
            _ => {
                raise(&mut self.fault_count);
                Err(Failed)
            }
        }
    }
}

/// Writes the first bytes of the piece, and has them leave the writer's buffer.
fn write_through<W: Write>(writer: &mut W, bytes: &[u8]) -> io::Result<usize>
    ensures { WritesAtMost result bytes.now }
{
    let size = writer.write(bytes)?;
    writer.flush()?;
    Ok(size)
}

#[cfg(test)]
mod tests {
    use super::*;
    use crate::put_all;
    use std::alloc::Global;
    use std::io::{Error, ErrorKind};
    use std::test::Fail;

    /// A writer that keeps what it takes until it is flushed, and only then shows it.
    #[derive(Drop)]
    struct Keeping {
        kept: Vec<u8>,
        shown: Vec<u8>,
        /// The most bytes that a write takes.
        most: usize,
        is_refusing: bool,
        is_flush_failing: bool,
    }

    impl Write for Keeping {
        fn write(&mut self, bytes: &[u8]) -> io::Result<usize> {
            if self.is_refusing {
                return Err(Error::from(ErrorKind::BrokenPipe));
            }
            let size = bytes.len().min(self.most);
            self.kept.extend_from_slice(&bytes[..size])?;
            Ok(size)
        }

        fn flush(&mut self) -> io::Result<()> {
            if self.is_flush_failing {
                return Err(Error::from(ErrorKind::BrokenPipe));
            }
            self.shown.append(&mut self.kept)?;
            Ok(())
        }
    }

    /// A stream over a writer that takes at most so many bytes at once.
    fn stream(alloc: Global, most: usize) -> Stream<Keeping> {
        Stream {
            writer: Keeping {
                kept: Vec::new(alloc),
                shown: Vec::new(alloc),
                most,
                is_refusing: false,
                is_flush_failing: false,
            },
            fault_count: 0,
        }
    }

    #[test]
    fn each_put_is_shown(rt: HostRuntime) -> Result<(), Fail> {
        let mut stream = stream(rt.alloc(), 5);
        assert_eq!(rt; stream.put(b"points")?, 5);
        assert_eq!(rt; stream.writer.shown.as_slice(), b"point".as_slice());
        assert_eq!(rt; stream.put(b"s")?, 1);
        assert_eq!(rt; stream.writer.shown.as_slice(), b"points".as_slice());
        put_all(&mut stream, b" and springs")?;
        assert_eq!(rt;
            stream.writer.shown.as_slice(),
            b"points and springs".as_slice()
        );
        assert_eq!(rt; stream.fault_count, 0);
        Ok(())
    }

    #[test]
    fn each_failure_is_counted(rt: HostRuntime) -> Result<(), Fail> {
        let mut refusing = stream(rt.alloc(), 5);
        refusing.writer.is_refusing = true;
        assert_eq!(rt; refusing.put(b"points").err(), Some(Failed));
        assert_eq!(rt; refusing.fault_count, 1);
        assert!(rt; put_all(&mut refusing, b"points").is_err());
        assert_eq!(rt; refusing.fault_count, 2);

        let mut unflushed = stream(rt.alloc(), 5);
        unflushed.writer.is_flush_failing = true;
        assert_eq!(rt; unflushed.put(b"points").err(), Some(Failed));
        assert_eq!(rt; unflushed.fault_count, 1);

        let mut idle = stream(rt.alloc(), 0);
        assert_eq!(rt; idle.put(b"points").err(), Some(Failed));
        assert_eq!(rt; idle.fault_count, 1);
        assert_eq!(rt; idle.put(b"").ok(), Some(0));
        assert_eq!(rt; idle.fault_count, 1);
        Ok(())
    }

    #[test]
    fn real_streams_take_all(rt: HostRuntime) -> Result<(), Fail> {
        let mut output = Stream::output(rt.stdout());
        put_all(&mut output, b"to the standard output\n")?;
        assert_eq!(rt; output.fault_count, 0);
        let mut notes = Stream::error(rt.stderr());
        put_all(&mut notes, b"to the standard error\n")?;
        assert_eq!(rt; notes.fault_count, 0);
        Ok(())
    }
}
