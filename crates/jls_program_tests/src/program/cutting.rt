//! Outputs that take the first bytes of a file and no more, for each number of them.

use super::copies;
use super::failing::check_write_failure;
use std::test::Fail;

/// The words, and the file that OUT would be.
const FILES: [(&str, &[u8]); 4] = [
    ("write --as jls --ri 1 OUT ten", copies::WHOLE),
    (
        "write --as jls --ilv line OUT pair",
        b"\xff\xd8\xff\xf7\0\x0e\x08\0\x01\0\x01\x02\x01\x11\0\x02\x11\0\xff\xda\0\x0a\x02\x01\0\x02\0\0\x01\0\x07\x16\xff\xd9",
    ),
    (
        "write --as pnm OUT ten",
        b"P5\n1 10\n255\n\0\x01\x02\x03\x04\x05\x06\x07\x08\x09",
    ),
    (
        "write --as pnm OUT pair",
        b"P7\nWIDTH 1\nHEIGHT 1\nDEPTH 2\nMAXVAL 255\nENDHDR\n\n\n",
    ),
];

/// The status is 4, the line tells the number, and exactly these bytes went out, in whatever lengths they were taken.
#[test]
fn tells_how_much_of_a_file_was_written(rt: HostRuntime) -> Result<(), Fail> {
    for (words, file) in FILES {
        for n in 0..file.len() {
            for most in [1, 7, usize::MAX] {
                check_write_failure(&rt, rt.alloc(), words, most, &file[..n])?;
            }
        }
    }
    Ok(())
}
