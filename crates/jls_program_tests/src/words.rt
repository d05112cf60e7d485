//! That words are read: no clause says that memory is left for it.

use jls_cli::salvage::{Asked, asked_command, matches};
use std::alloc::Global;
use std::test::Fail;

/// The words of a command line.
fn line(alloc: Global, words: &[&str]) -> Result<Vec<String>, Fail> {
    let mut line = Vec::new(alloc);
    for word in words {
        line.push(word.to_string(alloc)?)?;
    }
    Ok(line)
}

#[test]
fn join_is_read(rt: HostRuntime) -> Result<(), Fail> {
    let words = [
        "jls-salvage",
        "join",
        "--source",
        "4294967295",
        "all.jlsp",
        "-",
        "south.jlsp",
    ];
    let words = line(rt.alloc(), &words)?;
    let matches = matches(rt.alloc(), &words)?;
    let asks = asked_command(&matches).ok_or("nothing asked")?;
    let expected = Asked::Join {
        source: Some(4_294_967_295),
        out: "all.jlsp",
        first: "-",
        others: &["south.jlsp"],
    };
    assert!(rt; asks == expected);
    Ok(())
}
