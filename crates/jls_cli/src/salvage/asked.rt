//! What the words ask for.

ghost use Rattle.std.specs.Prelude.{◌≡◌, Some, map, option_map, option_and_then};
ghost use Rattle.clap.specs.Words.{subcommand_rows_of};
ghost use Rattle.jls_cli.specs.SalvageAsking as spec;
ghost use Rattle.jls_cli.specs.SalvageAsking.{asked_of, format_is_known_by};

use crate::numbers::{number_from, short_number};
use clap::ArgMatches;

/// A command of the program with its words.
#[derive(Clone, Copy, Debug, PartialEq, Eq)]
pub enum Asked<'m, 'a> {
    /// To print the trace and the report of the input.
    Check {
        file: &'a str,
    },
    /// To join the inputs, of which there is a first: the readings of copies under the number of a source, if one is given.
    Join {
        source: Option<u32>,
        out: &'a str,
        first: &'a str,
        others: &'m [&'a str],
    },
    /// To print the report of the input.
    Show {
        file: &'a str,
    },
    /// To write the picture of the input as PNM.
    WritePnm {
        out: &'a str,
        file: &'a str,
    },
    /// To write it as JPEG-LS. With `line` all components stand in one scan, line by line; without it each has a scan of its own. `ri` is
    /// the restart interval in rows, and 0 means that there are no restart markers.
    WriteJls {
        line: bool,
        ri: u16,
        out: &'a str,
        file: &'a str,
    },
}

fn asked_join<'m, 'a>(
    source: Option<&str>,
    out: Option<&'a str>,
    files: Option<&'m [&'a str]>,
) -> Option<Asked<'m, 'a>>
    ensures { option_map asked_of result
        ≡ spec.asked_join (option_map (λ s. s.now) source.entry) (option_map (λ s. s.now) out.entry)
        (option_map (λ s. map (λ f. f.now) s.now) files.entry) }
{
    let (Some(out), Some([first, others @ ..])) = (out, files) else {
        return None;
    };
    let source = match source {
        Some(value) => Some(number_from(0, value)?),
        None => None,
    };
    Some(Asked::Join {
        source,
        out,
        first,
        others,
    })
}

fn asked_check<'m, 'a>(file: Option<&'a str>) -> Option<Asked<'m, 'a>>
    ensures { option_map asked_of result ≡ spec.asked_check (option_map (λ s. s.now) file.entry) }
{
    match file {
        Some(file) => Some(Asked::Check { file }),
        None => None,
    }
}

fn asked_show<'m, 'a>(file: Option<&'a str>) -> Option<Asked<'m, 'a>>
    ensures { option_map asked_of result ≡ spec.asked_show (option_map (λ s. s.now) file.entry) }
{
    match file {
        Some(file) => Some(Asked::Show { file }),
        None => None,
    }
}

/// Whether the interleave mode of this name is by line.
fn is_by_line(name: &str) -> Option<bool>
    ensures { result ≡ spec.is_by_line name.now }
{
    if name == "line" {
        Some(true)
    } else if name == "none" {
        Some(false)
    } else {
        None
    }
}

fn options_of(ilv: Option<&str>, ri: Option<&str>) -> Option<(bool, u16)>
    ensures { result ≡ spec.options_of (option_map (λ s. s.now) ilv.entry) (option_map (λ s. s.now) ri.entry) }
{
    let (Some(ilv), Some(ri)) = (ilv, ri) else {
        return None;
    };
    match (is_by_line(ilv), short_number(ri)) {
        (Some(line), Some(rows)) => Some((line, rows)),
        _ => None,
    }
}

fn asked_write<'m, 'a>(
    format: Option<&'a str>,
    options: Option<(bool, u16)>,
    out: Option<&'a str>,
    file: Option<&'a str>,
) -> Option<Asked<'m, 'a>>
    ensures { option_map asked_of result
        ≡ spec.asked_write (option_map (λ s. s.now) format.entry) options (option_map (λ s. s.now) out.entry)
        (option_map (λ s. s.now) file.entry) }
{
    let (Some(format), Some((line, ri)), Some(out), Some(file)) = (format, options, out, file)
    else {
        return None;
    };
    if format == "pnm" {
        Some(Asked::WritePnm { out, file })
    } else if format == "jls" {
        Some(Asked::WriteJls {
            line,
            ri,
            out,
            file,
        })
    } else {
        None
    }
}

/// What the words ask for. `None` if an option doesn't allow its value.
pub fn asked_command<'m, 'a>(matches: &'m ArgMatches<'a>) -> Option<Asked<'m, 'a>>
    ensures { option_map asked_of result ≡ option_and_then (λ p. spec.asked_by p.0 p.1) (subcommand_rows_of matches.now) }
{
    let (name, given) = match matches.subcommand() {
        Some((name, given)) => (name, given),
        None => return None,
    };
    if name == "check" {
        asked_check(given.get_str("FILE"))
    } else if name == "join" {
        asked_join(
            given.get_str("source"),
            given.get_str("OUT"),
            given.get_strs("FILE"),
        )
    } else if name == "show" {
        asked_show(given.get_str("FILE"))
    } else if name == "write" {
        let format = given.get_str("as");
        let options = options_of(given.get_str("ilv"), given.get_str("ri"));
        asked_write(format, options, given.get_str("OUT"), given.get_str("FILE"))
    } else {
        None
    }
}

/// Whether the value of `--as` is a format that there is.
fn is_format(format: Option<&str>) -> bool
    ensures { result ≡ spec.is_format (option_map (λ s. s.now) format.entry) }
{
    match format {
        Some(format) => format == "pnm" || format == "jls",
        None => false,
    }
}

/// Whether the words name a format that there is. Where they ask for nothing, the format is at fault, or else the interleave mode.
pub fn knows_format(matches: &ArgMatches<'_>) -> bool
    ensures { result ≡ format_is_known_by (subcommand_rows_of matches.now) }
{
    match matches.subcommand() {
        Some((_name, given)) => is_format(given.get_str("as")),
        None => false,
    }
}
