//! Files in memory, read under each profile with ample memory by the callers of the steps of a history.

use crate::station::copies::{TEN, bytes_of, text_of};
use jls_callers::{read_under, take_read};
use jls_marker::Profile;
use jls_station::Station;
use std::alloc::Global;
use std::test::Fail;

/// A picture of 4x3 of three components by sample, as CharLS 2.4.1 wrote it.
const BY_SAMPLE: &str =
    "FF D8 FF F7 00 11 08 00 03 00 04 03 01 11 00 02 11 00 03 11 00 FF DA 00 0C 03 01 00 02 00 03 00 00 02 00 02 \
     02 07 25 2C 38 38 68 00 1F CF 80 00 18 0A 6F 00 00 00 0B E6 9C 87 24 80 FF D9";

/// A file, and what is read of it under the strict profile and under the wide one: of each line of the first component, the first sample.
const FILES: [(&str, &str, &str); 4] = [
    (BY_SAMPLE, "", "0=10 1=0 2=200 "),
    (
        TEN,
        "0=0 1=1 2=2 3=3 4=4 5=5 6=6 7=7 8=8 9=9 ",
        "0=0 1=1 2=2 3=3 4=4 5=5 6=6 7=7 8=8 9=9 ",
    ),
    (
        "FF D8 FF D9",
        "NoPicture(NoFrame, 2)",
        "NoPicture(NoFrame, 2)",
    ),
    ("00", "NoPicture(NoSoi, 0)", "NoPicture(NoSoi, 0)"),
];

/// What a station holds that took what is read of a file, or why nothing is.
fn held(alloc: Global, profile: Profile, text: &str) -> Result<String, Fail> {
    let bytes = bytes_of(alloc, text)?;
    let partial = match read_under(alloc, profile, Some(7), &bytes) {
        Ok(partial) => partial,
        Err(fault) => return Ok(format!(in alloc; "{fault:?}")?),
    };
    let mut station = Station::new(alloc, partial.shape().to_owned());
    match take_read(&mut station, &partial) {
        Ok(()) => text_of(alloc, station.partial(), None),
        Err(_) => Err(Fail::from("not taken")),
    }
}

#[test]
fn files_under_each_profile(rt: HostRuntime) -> Result<(), Fail> {
    let alloc = rt.alloc();
    for &(text, strict, wide) in &FILES {
        let read = held(alloc, Profile::Strict, text)?;
        assert!(rt; read.as_str() == strict, "strict: {text}");
        let read = held(alloc, Profile::Wide, text)?;
        assert!(rt; read.as_str() == wide, "wide: {text}");
    }
    Ok(())
}
