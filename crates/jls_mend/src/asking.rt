//! What a mending is asked for.

ghost use Rattle.std.specs.Prelude.{◌≡◌, ◌↔◌, [], IsTrue, length, map};
ghost use Rattle.std.specs.List.{AllByRecursion};
ghost use Rattle.jls_cli.specs.SpliceAsking.{options_in};
ghost use Rattle.jls_mend.specs.Asking.{AreMendable, IsNumberOf, asked_for, places_of};

use jls_cli::splice::Options;

/// The name of the output for the partial picture.
pub(crate) const OUT: &str = "OUT";

/// The name of the output for the mended file.
const FILE: &str = "FILE";

/// What the names of the outputs begin with that have numbers.
const ALL: &str = "ALL";

/// What a mending is asked for, as options of `jls-splice`. The mended file is always asked for.
#[derive(Clone, Copy, Debug, PartialEq, Eq)]
pub struct MendOptions {
    /// The number of the source under which readings are taken, if one is given.
    pub source: Option<u32>,
    /// How many prefixes and files each search tries at most. `--tries` takes 1 at least. With 0 no way is tried where copies differ.
    pub tries: u32,
    /// The ceiling, if one is given: only files whose samples are at most this are searched for.
    pub ceiling: Option<u16>,
    /// Whether each file without a fault is asked for, as `--files` does.
    pub files: bool,
}

/// A list of bad places of a copy, as `--bad` of `jls-splice` takes it.
#[derive(Clone, Copy)]
pub struct BadPlaces<'a> {
    /// The number of the copy, from 0 on.
    pub copy: usize,
    /// The list: GNU ddrescue's mapfile, or lines `OFFSET LENGTH`.
    pub text: &'a [u8],
}

/// The options of the run.
pub(crate) fn options_for(options: &MendOptions) -> Options<'static>
    ensures { options_in result ≡ (asked_for options.now [] []).options }
{
    Options {
        source: options.source,
        tries: options.tries,
        ceiling: options.ceiling,
        progress: false,
        file: Some(FILE),
        files: if options.files { Some(ALL) } else { None },
    }
}

/// Whether it is the number of one of so many copies, which `--bad` takes as the number behind it.
fn is_number_of(count: usize, number: usize) -> bool
    ensures { IsTrue result ↔ IsNumberOf count number }
{
    number < count && number < u32::MAX as usize
}

/// Whether each list is of one of so many copies.
fn are_of_copies(count: usize, bad: &[BadPlaces<'_>]) -> bool
    ensures { IsTrue result ↔ AllByRecursion (λ l. IsNumberOf count l.copy) (map places_of bad.now) }
{
    for list in bad {
        if !is_number_of(count, list.copy) {
            return false;
        }
    }
    true
}

/// Whether these can be mended: two copies or more, and with a list one. Each list has to be of one of the copies, whose number is below
/// 4,294,967,295.
pub fn are_mendable(copies: &[&[u8]], bad: &[BadPlaces<'_>]) -> bool
    ensures { IsTrue result ↔ AreMendable (map (λ copy. copy.now) copies.now) (map places_of bad.now) }
{
    let least = if bad.is_empty() { 2 } else { 1 };
    copies.len() >= least && are_of_copies(copies.len(), bad)
}
