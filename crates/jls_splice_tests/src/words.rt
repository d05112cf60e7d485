//! That words are read: no clause says that memory is left for it.

use jls_cli::splice::{Asked, Options, asked_splice, matches};
use std::alloc::{AllocError, Global};
use std::test::Fail;

/// The numbers of `FIRST..LAST`.
fn numbers_of(word: &str) -> Option<(u32, u32)> {
    let (first, last) = word.split_once("..")?;
    Some((first.parse::<u32>().ok()?, last.parse::<u32>().ok()?))
}

/// The words of a command line, after the program's name. `FIRST..LAST` stands for the numbers from one to the other.
pub(crate) fn words_of(alloc: Global, line: &str) -> Result<Vec<String>, AllocError> {
    let mut words = Vec::new(alloc);
    words.push(String::from_str(alloc, "jls-splice")?)?;
    for word in line.split_whitespace() {
        match numbers_of(word) {
            Some((first, last)) => {
                for number in first..=last {
                    words.push(format!(in alloc; "{number}")?)?;
                }
            }
            None => words.push(String::from_str(alloc, word)?)?,
        }
    }
    Ok(words)
}

/// What is asked for where no option is given.
const PLAIN: Options<'static> = Options {
    source: None,
    tries: 4096,
    ceiling: None,
    progress: false,
    file: None,
    files: None,
};

#[test]
fn words_are_read(rt: HostRuntime) -> Result<(), Fail> {
    let all = Options {
        source: Some(4_294_967_295),
        tries: 1,
        ceiling: Some(65_535),
        progress: true,
        file: Some("mended.jls"),
        files: Some("all"),
    };
    let rows = [
        ("OUT 1 2 3", PLAIN),
        (
            "--source=4294967295 --tries 1 OUT 1 --progress 2 --files=all 3 --max 65535 --file mended.jls",
            all,
        ),
    ];
    for (line, options) in rows {
        let words = words_of(rt.alloc(), line)?;
        let matches = matches(rt.alloc(), &words)?;
        let asked = asked_splice(&matches).ok_or("nothing asked")?;
        let expected = Asked {
            options,
            out: "OUT",
            first: "1",
            others: &["2", "3"],
            bad: &[],
            witnesses: &[],
        };
        assert_eq!(rt; asked, expected, "{line}");
    }
    Ok(())
}

#[test]
fn one_copy_is_read_with_its_bad_places(rt: HostRuntime) -> Result<(), Fail> {
    let words = words_of(rt.alloc(), "--bad 1:places OUT 1 --bad=1:more")?;
    let matches = matches(rt.alloc(), &words)?;
    let asked = asked_splice(&matches).ok_or("nothing asked")?;
    let expected = Asked {
        options: PLAIN,
        out: "OUT",
        first: "1",
        others: &[],
        bad: &["1:places", "1:more"],
        witnesses: &[],
    };
    assert_eq!(rt; asked, expected);
    Ok(())
}

#[test]
fn one_copy_is_read_with_witnesses(rt: HostRuntime) -> Result<(), Fail> {
    let words = words_of(rt.alloc(), "--witness=line OUT --witness other 1")?;
    let matches = matches(rt.alloc(), &words)?;
    let asked = asked_splice(&matches).ok_or("nothing asked")?;
    let expected = Asked {
        options: PLAIN,
        out: "OUT",
        first: "1",
        others: &[],
        bad: &[],
        witnesses: &["line", "other"],
    };
    assert_eq!(rt; asked, expected);
    Ok(())
}

#[test]
fn one_copy_alone_asks_for_nothing(rt: HostRuntime) -> Result<(), Fail> {
    let words = words_of(rt.alloc(), "OUT 1")?;
    let matches = matches(rt.alloc(), &words)?;
    assert!(rt; asked_splice(&matches).is_none());
    Ok(())
}

#[test]
fn words_are_refused(rt: HostRuntime) -> Result<(), Fail> {
    let rows = [
        "",
        "OUT",
        "--tries 0 OUT 1 2",
        "--tries 4294967296 OUT 1 2",
        "--max 65536 OUT 1 2",
        "--max -1 OUT 1 2",
        "--max x OUT 1 2",
        "--max 1 --max 2 OUT 1 2",
        "OUT 1 2 --max",
        "--source -1 OUT 1 2",
        "--source 4294967296 OUT 1 2",
        "--file OUT 1 2 --file",
        "--files OUT 1 2 --files",
        "--bad OUT 1 2 --bad",
        "--witness OUT 1 2 --witness",
        "--files A --files B OUT 1 2",
        "--groups OUT 1 2",
    ];
    for line in rows {
        let words = words_of(rt.alloc(), line)?;
        assert!(rt; matches(rt.alloc(), &words).is_err(), "{line}");
    }
    Ok(())
}
