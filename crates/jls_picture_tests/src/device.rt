//! Calls that succeed and calls that fail, counted.

use jls_io::{Counted, Sink, SinkFault, Source, SourceFault, write_all};
use std::io;
use std::io::{Read, Write};
use std::process::Abort;

/// A stream whose calls fail as if they were interrupted, except that writes of nothing take nothing.
#[derive(Drop)]
struct Broken;

impl Read for Broken {
    fn read(&mut self, _buf: &mut [u8]) -> io::Result<usize> {
        Err(io::Error::from(io::ErrorKind::Interrupted))
    }
}

impl Write for Broken {
    fn write(&mut self, _buf: &[u8]) -> io::Result<usize> {
        Ok(0)
    }

    fn flush(&mut self) -> io::Result<()> {
        Ok(())
    }
}

/// A stream whose first call fails, whose second gives or takes nothing, and whose later calls give or take a byte.
#[derive(Drop)]
struct Wavering {
    calls: u8,
}

impl Wavering {
    /// The number of the call, counted up to 2.
    fn call(&mut self) -> u8 {
        let call = self.calls;
        if call < 2 {
            self.calls = call + 1;
        }
        call
    }
}

impl Read for Wavering {
    fn read(&mut self, buf: &mut [u8]) -> io::Result<usize> {
        match self.call() {
            0 => Err(io::Error::from(io::ErrorKind::Interrupted)),
            1 => Ok(0),
            _ => Ok(buf.len().min(1)),
        }
    }
}

impl Write for Wavering {
    fn write(&mut self, buf: &[u8]) -> io::Result<usize> {
        match self.call() {
            0 => Err(io::Error::from(io::ErrorKind::Interrupted)),
            1 => Ok(0),
            _ => Ok(buf.len().min(1)),
        }
    }

    fn flush(&mut self) -> io::Result<()> {
        Ok(())
    }
}

#[test]
fn asks_a_stream_once_for_each_call(rt: HostRuntime) {
    let mut source = Counted::new(Wavering { calls: 0 });
    for wanted in [Err(SourceFault), Ok(0), Ok(1)] {
        assert!(rt; source.read_some(&mut [0, 0]) == wanted);
    }
    let mut sink = Counted::new(Wavering { calls: 0 });
    for wanted in [Err(SinkFault), Err(SinkFault), Ok(1)] {
        assert!(rt; sink.write_some(b"xy") == wanted);
    }
}

#[test]
fn counts_calls_and_failures(rt: HostRuntime) {
    let mut buffer = [0u8; 4];
    let eight: &[u8] = b"12345678";
    let mut good = Counted::new(eight);
    for wanted in [4, 4, 0] {
        assert!(rt; good.read_some(&mut buffer) == Ok(wanted));
    }
    assert!(rt; good.reads() == 3 && good.read_failures() == 0);
    check_failures(&rt);
}

fn check_failures(rt: &impl Abort) {
    let mut broken = Counted::new(Broken);
    assert!(rt; broken.read_some(&mut [0; 4]) == Err(SourceFault));
    assert!(rt; broken.reads() == 1 && broken.read_failures() == 1);
    assert!(rt; broken.write_some(b"x") == Err(SinkFault));
    assert!(rt; broken.write_some(b"") == Ok(0));
    assert!(rt; broken.write_failures() == 1);
}

#[test]
fn asks_no_stream_that_is_not_open(rt: HostRuntime) {
    let mut closed = Counted::closed(Broken);
    assert!(rt; closed.read_some(&mut [0]) == Ok(0));
    assert!(rt; closed.write_some(b"") == Err(SinkFault));
    assert!(rt; closed.reads() == 1 && closed.read_failures() == 0 && closed.write_failures() == 1);
}

#[test]
fn writes_whole(rt: HostRuntime) {
    let mut taken = Vec::new(rt.alloc());
    assert!(rt; write_all(&mut Counted::new(&mut taken), b"12345678") == Ok(()));
    assert!(rt; taken.as_slice() == b"12345678".as_slice());
    assert!(rt; write_all(&mut Counted::new(Broken), b"12345678") == Err(0));
    assert!(rt; write_all(&mut Counted::new(Broken), b"") == Ok(()));
}
