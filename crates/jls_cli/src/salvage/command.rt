//! The command line.

ghost use Rattle.std.specs.Prelude.{◌≡◌, ◌⊎◌, false, IfOk, IfErr, map};
ghost use Rattle.std.specs.String.{string_bytes};
ghost use Rattle.clap.specs.Words.{app_of, kind_of, new_app, rule_of, subcommand_of, subcommand_rows_of};
ghost use Rattle.clap.specs.declared.builder.command.Command.TheViews.{out-Command};
ghost use Rattle.jls_cli.specs.SalvageWords.{as_rule, AreRefused, check_app, files_rule, ilv_rule, join_app, ri_rule};
ghost use Rattle.jls_cli.specs.SalvageWords.{salvage_app, show_app, write_app, write_options_app};
ghost use Rattle.jls_cli.specs.Words.{TakesWords};

use crate::arguments::{number, option, source, word};
use crate::salvage::texts;
use crate::version::VERSION;
use clap::error::ErrorKind;
use clap::{Arg, ArgAction, ArgMatches, Command, Error};
use std::alloc::{AllocError, Global};

/// The inputs of `join`.
fn files<'a>(alloc: Global) -> Arg<'a>
    ensures rule { rule_of result ≡ files_rule }
    ensures local { result.global ≡ false }
{
    word(alloc, "FILE", texts::FILES_HELP).action(ArgAction::Append)
}

/// The format of `write`.
fn format<'a>(alloc: Global) -> Arg<'a>
    ensures rule { rule_of result ≡ as_rule }
    ensures local { result.global ≡ false }
{
    let format = option(alloc, "as", "FORMAT");
    format.required(true).help(texts::AS_HELP)
}

/// The interleave mode of `write`.
fn interleave<'a>(alloc: Global) -> Arg<'a>
    ensures rule { rule_of result ≡ ilv_rule }
    ensures local { result.global ≡ false }
{
    let mode = option(alloc, "ilv", "MODE");
    mode.default_value("none").help(texts::ILV_HELP)
}

/// The restart interval of `write`.
fn restarts<'a>(alloc: Global) -> Arg<'a>
    ensures rule { rule_of result ≡ ri_rule }
    ensures local { result.global ≡ false }
{
    let rows = number(alloc, "ri", 0, 65535);
    rows.default_value("0").help(texts::RI_HELP)
}

/// A command without arguments.
fn bare<'a>(alloc: Global, name: &'a str, about: &'a str, notes: &'a str) -> Command<'a>
    ensures app { app_of result ≡ new_app name.entry.now }
    ensures local { (out-Command result).has_globals ≡ false }
{
    Command::new(alloc, name).about(about).after_help(notes)
}

fn check_command<'a>(alloc: Global) -> Result<Command<'a>, AllocError>
    ensures app { IfOk result (λ c. app_of c ≡ check_app) }
    ensures local { IfOk result (λ c. (out-Command c).has_globals ≡ false) }
{
    let check = bare(alloc, "check", texts::CHECK_ABOUT, texts::CHECK_NOTES);
    check.arg(word(alloc, "FILE", texts::FILE_HELP))
}

fn show_command<'a>(alloc: Global) -> Result<Command<'a>, AllocError>
    ensures app { IfOk result (λ c. app_of c ≡ show_app) }
    ensures local { IfOk result (λ c. (out-Command c).has_globals ≡ false) }
{
    let show = bare(alloc, "show", texts::SHOW_ABOUT, texts::SHOW_NOTES);
    show.arg(word(alloc, "FILE", texts::FILE_HELP))
}

fn join_command<'a>(alloc: Global) -> Result<Command<'a>, AllocError>
    ensures app { IfOk result (λ c. app_of c ≡ join_app) }
    ensures local { IfOk result (λ c. (out-Command c).has_globals ≡ false) }
{
    let bare = bare(alloc, "join", texts::JOIN_ABOUT, texts::JOIN_NOTES);
    let sourced = bare.arg(source(alloc, texts::SOURCE_HELP))?;
    let join = sourced.arg(word(alloc, "OUT", texts::JOIN_OUT_HELP))?;
    join.arg(files(alloc))
}

/// The command `write` with its options.
fn write_options<'a>(alloc: Global) -> Result<Command<'a>, AllocError>
    ensures app { IfOk result (λ c. app_of c ≡ write_options_app) }
    ensures local { IfOk result (λ c. (out-Command c).has_globals ≡ false) }
{
    let bare = bare(alloc, "write", texts::WRITE_ABOUT, texts::WRITE_NOTES);
    let formatted = bare.arg(format(alloc))?;
    let interleaved = formatted.arg(interleave(alloc))?;
    interleaved.arg(restarts(alloc))
}

fn write_command<'a>(alloc: Global) -> Result<Command<'a>, AllocError>
    ensures app { IfOk result (λ c. app_of c ≡ write_app) }
    ensures local { IfOk result (λ c. (out-Command c).has_globals ≡ false) }
{
    let options = write_options(alloc)?;
    let write = options.arg(word(alloc, "OUT", texts::WRITE_OUT_HELP))?;
    write.arg(word(alloc, "FILE", texts::FILE_HELP))
}

/// The command of the program.
fn command<'a>(alloc: Global) -> Result<Command<'a>, AllocError>
    ensures { IfOk result (λ c. app_of c ≡ salvage_app) }
{
    let bare = bare(alloc, "jls-salvage", texts::ABOUT, texts::EXAMPLES);
    let versioned = bare.version(VERSION).propagate_version(true);
    let salvage = versioned.subcommand_required(true);
    let checks = salvage.subcommand(check_command(alloc)?)?;
    let shows = checks.subcommand(show_command(alloc)?)?;
    let joins = shows.subcommand(join_command(alloc)?)?;
    joins.subcommand(write_command(alloc)?)
}

/// Parses the words with `clap`; the first word is the program's name. If clap's definition takes the words, the only error is out of
/// memory. Otherwise the error is out of memory, or of a kind that clap's definition finds in the words. If they are parsed, the
/// definition takes them, and the rows of the subcommand are those that it gives.
pub fn matches<'a>(alloc: Global, words: &'a [String]) -> Result<ArgMatches<'a>, Error>
    ensures rows { IfOk result (λ m. subcommand_rows_of m ≡ subcommand_of salvage_app (map string_bytes words.entry.now)) }
    ensures taken { IfOk result (λ _. TakesWords salvage_app (map string_bytes words.entry.now)) }
    ensures passes { IfErr result (λ e. TakesWords salvage_app (map string_bytes words.entry.now) → kind_of e ≡ ErrorKind.OutOfMemory) }
    ensures refused { IfErr result (λ e. (kind_of e ≡ ErrorKind.OutOfMemory) ⊎ AreRefused (map string_bytes words.entry.now) (kind_of e)) }
{
    command(alloc)?.try_get_matches_from(words)
}
