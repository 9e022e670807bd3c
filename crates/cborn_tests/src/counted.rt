//! Readers and writers of std that are counted: a failure is reported at once, and a flush reaches the
//! writer.
use super::memory::Bytes;
use cborn_engine::{Counted, EngineFault, Kind, Sink, Source, load, normalise};
use cborn_model::{Bytewise, Limit};
use std::alloc::Global;
use std::io;
use std::io::{ErrorKind, Read, Write};
use std::test::Fail;

/// A reader and writer that is interrupted at its first call, and works from then on.
#[derive(Drop)]
struct Interrupted<'a> {
    calls: &'a mut u64,
}

impl<'a> Interrupted<'a> {
    fn begin(&mut self) -> io::Result<()> {
        *self.calls = self.calls.saturating_add(1);
        if *self.calls == 1 {
            return Err(io::Error::from(ErrorKind::Interrupted));
        }
        Ok(())
    }
}

impl<'a> Read for Interrupted<'a> {
    fn read(&mut self, _buf: &mut [u8]) -> io::Result<usize> {
        self.begin()?;
        Ok(0)
    }
}

impl<'a> Write for Interrupted<'a> {
    fn write(&mut self, piece: &[u8]) -> io::Result<usize> {
        self.begin()?;
        Ok(piece.len())
    }

    fn flush(&mut self) -> io::Result<()> {
        Ok(())
    }
}

/// A writer that accepts all bytes, and fails to flush them.
#[derive(Drop)]
struct Unflushed<'a> {
    taken: &'a mut usize,
}

impl<'a> Write for Unflushed<'a> {
    fn write(&mut self, piece: &[u8]) -> io::Result<usize> {
        *self.taken = self.taken.saturating_add(piece.len());
        Ok(piece.len())
    }

    fn flush(&mut self) -> io::Result<()> {
        Err(io::Error::from(ErrorKind::Other))
    }
}

fn normalised<W: Sink>(alloc: Global, input: &[u8], out: &mut W) -> Result<(), EngineFault> {
    let kind = Kind::Wire;
    let mut bytes = Bytes::new(input, 4096);
    normalise::<Bytewise, Bytes<'_>, W>(alloc, Limit::USUAL, kind, kind, &mut bytes, out)
}

/// Catches a read or a write that is tried again.
#[test]
fn interrupted_calls(rt: HostRuntime) -> Result<(), Fail> {
    let mut calls = 0;
    {
        let mut reader = Counted::new(Interrupted { calls: &mut calls });
        let result = load(rt.alloc(), Limit::USUAL, Kind::Wire, &mut reader);
        assert_eq!(rt; result.err(), Some(EngineFault::ReadFault));
        assert_eq!(rt; Source::failures(&reader), 1);
    }
    assert_eq!(rt; calls, 1);
    calls = 0;
    {
        let mut writer = Counted::new(Interrupted { calls: &mut calls });
        let result = normalised(rt.alloc(), b"\x00", &mut writer);
        assert_eq!(rt; result, Err(EngineFault::WriteFault));
        assert_eq!(rt; Sink::failures(&writer), 1);
    }
    assert_eq!(rt; calls, 1);
    Ok(())
}

/// Catches a flush that is left out, or whose failure is ignored.
#[test]
fn failed_flushes(rt: HostRuntime) -> Result<(), Fail> {
    for input in [b"".as_slice(), b"\x18\x01".as_slice()] {
        let mut taken = 0;
        {
            let mut writer = Counted::new(Unflushed { taken: &mut taken });
            let result = normalised(rt.alloc(), input, &mut writer);
            assert_eq!(rt; result, Err(EngineFault::WriteFault), "{input:?}");
            assert_eq!(rt; Sink::failures(&writer), 1, "{input:?}");
        }
        assert_eq!(rt; taken, input.len() / 2, "{input:?}");
    }
    Ok(())
}

/// Catches a flush by std's method that is counted and doesn't reach the writer. Every clause would
/// hold.
#[test]
fn hands_on_what_is_printed(rt: HostRuntime) {
    let mut taken = 0;
    {
        let mut unflushed = Counted::new(Unflushed { taken: &mut taken });
        assert!(rt; unflushed.write(b"abc").is_ok());
        assert!(rt; unflushed.flush().is_err());
    }
    assert_eq!(rt; taken, 3);
}
