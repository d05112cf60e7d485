//! What the words ask for.

ghost use Rattle.std.specs.Prelude.{◌≡◌, map, option_map};
ghost use Rattle.clap.specs.Words.{found_of, rows_of};
ghost use Rattle.jls_cli.specs.SpliceAsking as spec;
ghost use Rattle.jls_cli.specs.SpliceAsking.{asked_of, options_in};

use crate::numbers::{number_from, short_number};
use clap::ArgMatches;

/// What the options say.
#[derive(Clone, Copy, Debug, PartialEq, Eq)]
pub struct Options<'a> {
    /// The number of the source under which readings are taken, if one is given.
    pub source: Option<u32>,
    /// How many prefixes and files each search tries at most: at least 1.
    pub tries: u32,
    /// The ceiling, if one is given: only files whose samples are at most this are searched for.
    pub ceiling: Option<u16>,
    /// Whether each search tells how far it is.
    pub progress: bool,
    /// The name of the file to which the mended file goes, if one is given.
    pub file: Option<&'a str>,
    /// What the names of the files begin with to which each file without a fault goes, if that is asked for.
    pub files: Option<&'a str>,
}

/// The output, the copies to splice, the values of `--bad`, and those of `--witness`. There is a second copy, or one of these values.
#[derive(Clone, Copy, Debug, PartialEq, Eq)]
pub struct Asked<'m, 'a> {
    pub options: Options<'a>,
    pub out: &'a str,
    pub first: &'a str,
    pub others: &'m [&'a str],
    pub bad: &'m [&'a str],
    pub witnesses: &'m [&'a str],
}

/// Whether a flag has the value that it gets where it is given.
fn is_set(value: Option<&str>) -> bool
    ensures { result ≡ spec.is_set (option_map (λ s. s.now) value.entry) }
{
    match value {
        Some(value) => value == "true",
        None => false,
    }
}

/// The values of the options, as clap gives them.
#[derive(Clone, Copy)]
struct OptionValues<'v, 'a> {
    source: Option<&'v str>,
    tries: Option<&'v str>,
    ceiling: Option<&'v str>,
    progress: Option<&'v str>,
    file: Option<&'a str>,
    files: Option<&'a str>,
}

fn options_of<'a>(values: OptionValues<'_, 'a>) -> Option<Options<'a>>
    ensures { option_map options_in result
        ≡ spec.options_of (option_map (λ s. s.now) values.entry.source) (option_map (λ s. s.now) values.entry.tries)
        (option_map (λ s. s.now) values.entry.ceiling) (option_map (λ s. s.now) values.entry.progress)
        (option_map (λ s. s.now) values.entry.file) (option_map (λ s. s.now) values.entry.files) }
{
    let source = match values.source {
        Some(value) => Some(number_from(0, value)?),
        None => None,
    };
    let tries = number_from(1, values.tries?)?;
    let ceiling = match values.ceiling {
        Some(value) => Some(short_number(value)?),
        None => None,
    };
    let progress = is_set(values.progress);
    Some(Options {
        source,
        tries,
        ceiling,
        progress,
        file: values.file,
        files: values.files,
    })
}

fn asked_with<'m, 'a>(
    options: Option<Options<'a>>,
    out: Option<&'a str>,
    copy: Option<&'a str>,
    others: &'m [&'a str],
    bad: &'m [&'a str],
    witnesses: &'m [&'a str],
) -> Option<Asked<'m, 'a>>
    ensures { option_map asked_of result
        ≡ spec.asked_with (option_map options_in options.entry) (option_map (λ s. s.now) out.entry)
        (option_map (λ s. s.now) copy.entry) (map (λ f. f.now) others.entry.now) (map (λ f. f.now) bad.entry.now)
        (map (λ f. f.now) witnesses.entry.now) }
{
    let (Some(options), Some(out), Some(first)) = (options, out, copy) else {
        return None;
    };
    if others.is_empty() && bad.is_empty() && witnesses.is_empty() {
        return None;
    }
    Some(Asked {
        options,
        out,
        first,
        others,
        bad,
        witnesses,
    })
}

/// The values of an argument, none if it is not given.
fn values_of<'m, 'a>(matches: &'m ArgMatches<'a>, id: &str) -> &'m [&'a str]
    ensures { map (λ f. f.now) result.now ≡ spec.values_of id.now (rows_of (found_of matches.now)) }
{
    matches.get_strs(id).unwrap_or_default()
}

/// What the words ask for. `None` if an option doesn't allow its value.
pub fn asked_splice<'m, 'a>(matches: &'m ArgMatches<'a>) -> Option<Asked<'m, 'a>>
    ensures { option_map asked_of result ≡ spec.asked_by (rows_of (found_of matches.now)) }
{
    let options = options_of(OptionValues {
        source: matches.get_str("source"),
        tries: matches.get_str("tries"),
        ceiling: matches.get_str("max"),
        progress: matches.get_str("progress"),
        file: matches.get_str("file"),
        files: matches.get_str("files"),
    });
    let out = matches.get_str("OUT");
    let first = matches.get_str("COPY");
    let others = values_of(matches, "OTHERS");
    let bad = values_of(matches, "bad");
    asked_with(
        options,
        out,
        first,
        others,
        bad,
        values_of(matches, "witness"),
    )
}
