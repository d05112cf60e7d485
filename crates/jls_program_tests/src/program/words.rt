//! Words that ask for no command.

use super::memory::{GOOD, MemoryFiles};
use super::pictures::FILES;
use super::{run_line, run_words};
use jls_io::Counted;
use std::io;
use std::io::Write;
use std::test::Fail;

/// Words and the status: 2 with a line on the fault output, or 0 with help or the version on the report output.
const WORDS: [(&str, u8); 24] = [
    ("", 2),
    ("join", 2),
    ("join OUT", 2),
    ("show", 2),
    ("check", 2),
    ("show T S", 2),
    ("frobnicate T", 2),
    ("write OUT S", 2),
    ("write --as jls --ri 65536 OUT S", 2),
    ("join --loud OUT T", 2),
    ("join --source 4294967296 OUT T", 2),
    ("join --source -1 OUT T", 2),
    ("join --source seven OUT T", 2),
    ("join --source= OUT T", 2),
    ("check --source 7 T", 2),
    ("--help", 0),
    ("join --help", 0),
    ("show --help", 0),
    ("check --help", 0),
    ("write --help", 0),
    ("help join", 0),
    ("--version", 0),
    ("check --version", 0),
    ("check A --version", 0),
];

#[test]
fn answers_other_words(rt: HostRuntime) -> Result<(), Fail> {
    for &(words, status) in &WORDS {
        let found = run_words(rt.alloc(), words, GOOD)?;
        let is_help = status == 0;
        assert!(rt; found.status == status && found.output.is_none(), "{words}");
        assert!(rt;
            found.faults.is_empty() == is_help && found.report.is_empty() != is_help,
            "{words}"
        );
    }
    Ok(())
}

/// A stream whose writes take nothing.
#[derive(Drop)]
struct Broken;

impl Write for Broken {
    fn write(&mut self, _buf: &[u8]) -> io::Result<usize> {
        Ok(0)
    }

    fn flush(&mut self) -> io::Result<()> {
        Ok(())
    }
}

#[test]
fn says_where_the_report_stopped(rt: HostRuntime) -> Result<(), Fail> {
    let alloc = rt.alloc();
    for words in ["--help", "show T"] {
        let mut files = MemoryFiles::new(alloc, &FILES, GOOD);
        let (status, faults) = run_line(alloc, words, &mut files, &mut Counted::new(Broken))?;
        let line = b"jls-salvage: -: write failed after 0 bytes\n".as_slice();
        assert!(rt; status == 4 && faults.as_slice() == line, "{words}");
    }
    Ok(())
}

#[test]
fn tells_its_version(rt: HostRuntime) -> Result<(), Fail> {
    let found = run_words(rt.alloc(), "--version", GOOD)?;
    assert!(rt;
        found.report.as_slice()
            == b"jls-salvage 1.2.0 (rattle-kit-13f logic dac8208d650f15bf)\n".as_slice()
    );
    Ok(())
}
