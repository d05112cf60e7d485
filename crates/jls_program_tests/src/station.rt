//! Inputs read, and a station that takes what fits.

mod copies;
mod files;

use jls_io::Counted;
use jls_partial::Partial;
use jls_station::{InputFault, ReadStop, Station, read_input};
use jls_values::MergeFault;
use std::alloc::Global;
use std::io;
use std::io::Read;
use std::test::Fail;

/// A picture of one line with one sample: the line has the readings 3 and 5.
const DISPUTED: &[u8] =
    b"JLSP\x02\x08\0\x01\0\x01\x01\x01\0\0\0\x01\0\0\0\0\0\0\0\0\0\0\x02\0\x03\0\0\0\0\0\0\0\0\0\x05\0\0\0\0\0\0\0\0";
/// The same line with the reading 0.
const SETTLED: &[u8] =
    b"JLSP\x02\x08\0\x01\0\x01\x01\x01\0\0\0\x01\0\0\0\0\0\0\0\0\0\0\x01\0\0\0\0\0\0\0\0\0\0";
/// All three readings.
const BOTH: &[u8] =
    b"JLSP\x02\x08\0\x01\0\x01\x01\x01\0\0\0\x01\0\0\0\0\0\0\0\0\0\0\x03\0\0\0\0\0\0\0\0\0\0\0\x03\0\0\0\0\0\0\0\0\0\x05\0\0\0\0\0\0\0\0";
/// No reading of that picture.
const BARE: &[u8] = b"JLSP\x02\x08\0\x01\0\x01\x01\x01\0\0\0\0";
/// No reading of a picture that has a component 2 in place of the component 1.
const OTHER: &[u8] = b"JLSP\x02\x08\0\x01\0\x01\x01\x02\0\0\0\0";

/// A stream that gives its bytes and then fails.
#[derive(Drop)]
struct Breaking<'a>(&'a [u8]);

impl<'a> Read for Breaking<'a> {
    fn read(&mut self, buf: &mut [u8]) -> io::Result<usize> {
        if self.0.is_empty() {
            return Err(io::Error::from(io::ErrorKind::Interrupted));
        }
        self.0.read(buf)
    }
}

fn refusal_of(alloc: Global, bytes: &[u8]) -> Option<InputFault> {
    match read_input(alloc, None, &mut Counted::new(Breaking(bytes))) {
        Ok(_) => None,
        Err(fault) => Some(fault),
    }
}

#[test]
fn reads_one_input(rt: HostRuntime) -> Result<(), Fail> {
    let alloc = rt.alloc();
    let read = match read_input(alloc, None, &mut Counted::new(DISPUTED)) {
        Ok(read) => read,
        Err(_) => return Err(Fail::from("refused")),
    };
    assert!(rt; read.copy().is_none() && read.stop() == ReadStop::Whole);
    assert!(rt; read.into_partial().to_bytes(alloc)?.as_slice() == DISPUTED);
    for count in [0, 1, 20] {
        let stopped = InputFault::Read(ReadStop::Failed, count as u64);
        assert!(rt;
            refusal_of(alloc, &DISPUTED[..count]) == Some(stopped),
            "at {count}"
        );
    }
    Ok(())
}

fn partial_of(alloc: Global, text: &[u8]) -> Result<Partial, Fail> {
    match Partial::from_bytes(alloc, text) {
        Ok(partial) => Ok(partial),
        Err(_) => Err(Fail::from("no text")),
    }
}

/// A station for the picture of a text.
fn station_for(alloc: Global, text: &[u8]) -> Result<Station, Fail> {
    Ok(Station::new(alloc, partial_of(alloc, text)?.shape().to_owned()))
}

#[test]
fn takes_what_fits(rt: HostRuntime) -> Result<(), Fail> {
    let alloc = rt.alloc();
    let mut station = station_for(alloc, DISPUTED)?;
    assert!(rt; station.partial().to_bytes(alloc)?.as_slice() == BARE);
    for (text, wanted) in [
        (DISPUTED, Ok(())),
        (SETTLED, Ok(())),
        (OTHER, Err(MergeFault::ShapeDiffers)),
    ] {
        assert!(rt;
            station.take(&partial_of(alloc, text)?) == wanted,
            "{text:?}"
        );
    }
    assert!(rt; station.partial().to_bytes(alloc)?.as_slice() == BOTH);
    Ok(())
}
