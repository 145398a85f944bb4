ghost use Rattle.std.specs.Prelude.{◌≡◌, ◌≤◌, None, IfOk, length};

use crate::{Failed, Sink, Source};
use std::io;
use std::io::{Read, Write};

/// A source over a reader of std. It tells nothing of what is left.
#[derive(Drop)]
pub struct StdSource<R: Read + Drop> {
    inner: R,
    faults: u64,
}

impl<R: Read + Drop> StdSource<R> {
    /// A source over that reader, with no fault yet.
    pub fn new(inner: R) -> Self
        ensures { ⟦<StdSource<R> as Source>⟧.faults result ≡ 0 }
    {
        StdSource { inner, faults: 0 }
    }
}

impl<R: Read + Drop> Source for StdSource<R> {
    ghost left = { λ s. None };

    ghost faults = { λ s. s.faults };

    fn read(&mut self, buf: &mut [u8]) -> Result<usize, Failed> {
        match self.inner.read(buf) {
            Ok(count) => Ok(count),
            Err(_) => {
                self.faults = self.faults.saturating_add(1);
                Err(Failed)
            }
        }
    }
}

/// A sink over a writer of std, which is flushed after each write. It tells nothing of what it holds.
#[derive(Drop)]
pub struct StdSink<W: Write + Drop> {
    inner: W,
    faults: u64,
    stalls: u64,
}

impl<W: Write + Drop> StdSink<W> {
    /// A sink over that writer, with no fault and no stall yet.
    pub fn new(inner: W) -> Self
        ensures no_fault { ⟦<StdSink<W> as Sink>⟧.faults result ≡ 0 }
        ensures no_stall { ⟦<StdSink<W> as Sink>⟧.stalls result ≡ 0 }
    {
        StdSink {
            inner,
            faults: 0,
            stalls: 0,
        }
    }
}

impl<W: Write + Drop> Sink for StdSink<W> {
    ghost held = { λ s. None };

    ghost faults = { λ s. s.faults };

    ghost stalls = { λ s. s.stalls };

    fn write(&mut self, piece: &[u8]) -> Result<usize, Failed> {
        match write_through(&mut self.inner, piece) {
            Ok(count) => {
                if count == 0 && !piece.is_empty() {
                    self.stalls = self.stalls.saturating_add(1);
                }
                Ok(count)
            }
            Err(_) => {
                self.faults = self.faults.saturating_add(1);
                Err(Failed)
            }
        }
    }
}

// Writes a prefix of the piece, and flushes it.
fn write_through<W: Write>(writer: &mut W, piece: &[u8]) -> io::Result<usize>
    ensures { IfOk result (λ count. count ≤ length piece.now) }
{
    let count = writer.write(piece)?;
    writer.flush()?;
    Ok(count)
}

#[cfg(test)]
mod tests {
    use super::*;
    use std::test::Fail;
    use std::{env, fs, process};

    // A writer that takes all, and fails where it is flushed.
    #[derive(Drop)]
    struct Unflushed;

    impl Write for Unflushed {
        fn write(&mut self, piece: &[u8]) -> io::Result<usize> {
            Ok(piece.len())
        }

        fn flush(&mut self) -> io::Result<()> {
            Err(io::Error::from(io::ErrorKind::Other))
        }
    }

    #[test]
    fn bytes_go_through_a_file(rt: HostRuntime) -> Result<(), Fail> {
        let folder = env::temp_dir(&rt)?;
        let path = format!(in rt.alloc();
            "{}/ports_stream_{}",
            folder.as_str(),
            process::id(rt.process())
        )?;
        let mut sink = StdSink::new(fs::create(&rt, path.as_str())?);
        for (piece, want) in [("ab", 2), ("", 0), ("cde", 3)] {
            assert_eq!(rt; sink.write(piece.as_bytes()), Ok(want), "{piece}");
        }
        assert_eq!(rt; (sink.faults, sink.stalls), (0, 0));
        let mut source = StdSource::new(fs::open(&rt, path.as_str())?);
        for want in ["abc", "de", "", ""] {
            let mut buf = [0u8; 3];
            let count = source.read(&mut buf).unwrap_or(9);
            assert_eq!(rt; buf.get(..count), Some(want.as_bytes()), "{want}");
        }
        assert_eq!(rt; source.faults, 0);

        // A file that is open for the other direction only.
        let mut sink = StdSink::new(fs::open(&rt, path.as_str())?);
        assert_eq!(rt; sink.write(b"f"), Err(Failed));
        assert_eq!(rt; (sink.faults, sink.stalls), (1, 0));
        let mut source = StdSource::new(fs::create(&rt, path.as_str())?);
        assert_eq!(rt; source.read(&mut [0]), Err(Failed));
        assert_eq!(rt; source.faults, 1);
        fs::remove_file(&rt, path.as_str())?;
        Ok(())
    }

    #[test]
    fn counts_stalls_and_failed_flushes(rt: HostRuntime) {
        let mut room = [0u8; 3];
        let mut sink = StdSink::new(room.as_mut_slice());
        for (piece, want, stalls) in [("ab", 2, 0), ("cd", 1, 0), ("", 0, 0), ("d", 0, 1)] {
            assert_eq!(rt; sink.write(piece.as_bytes()), Ok(want), "{piece}");
            assert_eq!(rt; (sink.faults, sink.stalls), (0, stalls), "{piece}");
        }
        let mut sink = StdSink::new(Unflushed);
        assert_eq!(rt; sink.write(b"ab"), Err(Failed));
        assert_eq!(rt; (sink.faults, sink.stalls), (1, 0));
    }
}
