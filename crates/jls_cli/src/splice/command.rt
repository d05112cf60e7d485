//! The command line.

ghost use Rattle.std.specs.Prelude.{◌≡◌, ◌⊎◌, false, IfOk, IfErr, map};
ghost use Rattle.std.specs.String.{string_bytes};
ghost use Rattle.clap.specs.Words.{app_of, found_of, kind_of, matches_of, rows_of, rule_of};
ghost use Rattle.clap.specs.declared.builder.command.Command.TheViews.{out-Command};
ghost use Rattle.jls_cli.specs.SpliceWords.{AreRefused, bad_rule, bare_app, ceiling_rule, file_rule, files_rule, numbers_app};
ghost use Rattle.jls_cli.specs.SpliceWords.{options_app, others_rule, outputs_app, progress_rule, splice_app, tries_rule, witness_rule};
ghost use Rattle.jls_cli.specs.Words.{TakesWords};

use crate::arguments::{number, option, source, word};
use crate::splice::texts;
use crate::version::VERSION;
use clap::error::ErrorKind;
use clap::{Arg, ArgAction, ArgMatches, Command, Error};
use std::alloc::{AllocError, Global};

/// The copies after the first.
fn others<'a>(alloc: Global) -> Arg<'a>
    ensures rule { rule_of result ≡ others_rule }
    ensures local { result.global ≡ false }
{
    let other = Arg::new(alloc, "OTHERS").value_name("COPY");
    other.action(ArgAction::Append).help(texts::OTHERS_HELP)
}

/// How much each search tries.
fn tries<'a>(alloc: Global) -> Arg<'a>
    ensures rule { rule_of result ≡ tries_rule }
    ensures local { result.global ≡ false }
{
    let number = number(alloc, "tries", 1, 4_294_967_295);
    number.default_value("4096").help(texts::TRIES_HELP)
}

/// The ceiling of the samples.
fn ceiling<'a>(alloc: Global) -> Arg<'a>
    ensures rule { rule_of result ≡ ceiling_rule }
    ensures local { result.global ≡ false }
{
    number(alloc, "max", 0, 65_535).help(texts::CEILING_HELP)
}

/// Whether the searches tell how far they are.
fn progress<'a>(alloc: Global) -> Arg<'a>
    ensures rule { rule_of result ≡ progress_rule }
    ensures local { result.global ≡ false }
{
    let flag = Arg::new(alloc, "progress").long("progress");
    flag.action(ArgAction::SetTrue).help(texts::PROGRESS_HELP)
}

/// The file for the mended file.
fn file<'a>(alloc: Global) -> Arg<'a>
    ensures rule { rule_of result ≡ file_rule }
    ensures local { result.global ≡ false }
{
    option(alloc, "file", "NAME").help(texts::FILE_HELP)
}

/// What the names of the files without a fault begin with.
fn files<'a>(alloc: Global) -> Arg<'a>
    ensures rule { rule_of result ≡ files_rule }
    ensures local { result.global ≡ false }
{
    option(alloc, "files", "PREFIX").help(texts::FILES_HELP)
}

/// The places of a copy whose bytes are bad.
fn bad<'a>(alloc: Global) -> Arg<'a>
    ensures rule { rule_of result ≡ bad_rule }
    ensures local { result.global ≡ false }
{
    let lists = option(alloc, "bad", "N:LIST").action(ArgAction::Append);
    lists.help(texts::BAD_HELP)
}

/// The files whose lines bear witness.
fn witness<'a>(alloc: Global) -> Arg<'a>
    ensures rule { rule_of result ≡ witness_rule }
    ensures local { result.global ≡ false }
{
    let files = option(alloc, "witness", "FILE").action(ArgAction::Append);
    files.help(texts::WITNESS_HELP)
}

/// The command without arguments.
fn bare<'a>(alloc: Global) -> Command<'a>
    ensures app { app_of result ≡ bare_app }
    ensures local { (out-Command result).has_globals ≡ false }
{
    let named = Command::new(alloc, "jls-splice").about(texts::ABOUT);
    named.after_help(texts::NOTES).version(VERSION)
}

/// The command with the options that are numbers.
fn with_numbers<'a>(alloc: Global) -> Result<Command<'a>, AllocError>
    ensures app { IfOk result (λ c. app_of c ≡ numbers_app) }
    ensures local { IfOk result (λ c. (out-Command c).has_globals ≡ false) }
{
    let sourced = bare(alloc).arg(source(alloc, texts::SOURCE_HELP))?;
    let bounded = sourced.arg(tries(alloc))?;
    bounded.arg(ceiling(alloc))
}

/// The command with the options of what it prints and writes.
fn with_outputs<'a>(alloc: Global) -> Result<Command<'a>, AllocError>
    ensures app { IfOk result (λ c. app_of c ≡ outputs_app) }
    ensures local { IfOk result (λ c. (out-Command c).has_globals ≡ false) }
{
    let bounded = with_numbers(alloc)?;
    let reported = bounded.arg(progress(alloc))?;
    let named = reported.arg(file(alloc))?;
    named.arg(files(alloc))
}

/// The command with its options.
fn with_options<'a>(alloc: Global) -> Result<Command<'a>, AllocError>
    ensures app { IfOk result (λ c. app_of c ≡ options_app) }
    ensures local { IfOk result (λ c. (out-Command c).has_globals ≡ false) }
{
    let numbered = with_outputs(alloc)?;
    let listed = numbered.arg(bad(alloc))?;
    listed.arg(witness(alloc))
}

/// The command of the program.
fn command<'a>(alloc: Global) -> Result<Command<'a>, AllocError>
    ensures { IfOk result (λ c. app_of c ≡ splice_app) }
{
    let options = with_options(alloc)?;
    let writing = options.arg(word(alloc, "OUT", texts::OUT_HELP))?;
    let reading = writing.arg(word(alloc, "COPY", texts::COPY_HELP))?;
    reading.arg(others(alloc))
}

/// Parses the words with `clap`; the first word is the program's name. If clap's definition takes the words, the only error is out of
/// memory. Otherwise the error is out of memory, or of a kind that clap's definition finds in the words. If they are parsed, the
/// definition takes them, and the rows are those that it gives.
pub fn matches<'a>(alloc: Global, words: &'a [String]) -> Result<ArgMatches<'a>, Error>
    ensures rows { IfOk result (λ m. rows_of (found_of m) ≡ matches_of splice_app (map string_bytes words.entry.now)) }
    ensures taken { IfOk result (λ _. TakesWords splice_app (map string_bytes words.entry.now)) }
    ensures passes { IfErr result (λ e. TakesWords splice_app (map string_bytes words.entry.now) → kind_of e ≡ ErrorKind.OutOfMemory) }
    ensures refused { IfErr result (λ e. (kind_of e ≡ ErrorKind.OutOfMemory) ⊎ AreRefused (map string_bytes words.entry.now) (kind_of e)) }
{
    command(alloc)?.try_get_matches_from(words)
}
