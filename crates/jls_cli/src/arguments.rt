//! Arguments of the kinds that both programs have.

ghost use Rattle.std.specs.Prelude.{◌≡◌, false};
ghost use Rattle.clap.specs.Words.{rule_of};
ghost use Rattle.jls_cli.specs.Words.{number_rule, option_rule, source_rule, word_rule};

use clap::Arg;
use clap::builder::ValueParser;
use std::alloc::Global;

/// One word that has to be there.
pub(crate) fn word<'a>(alloc: Global, id: &'a str, help: &'a str) -> Arg<'a>
    ensures rule { rule_of result ≡ word_rule id.entry.now }
    ensures local { result.global ≡ false }
{
    Arg::new(alloc, id).required(true).help(help)
}

/// An option with a value, which the help calls by this name.
pub(crate) fn option<'a>(alloc: Global, id: &'a str, value_name: &'a str) -> Arg<'a>
    ensures rule { rule_of result ≡ option_rule id.entry.now }
    ensures local { result.global ≡ false }
{
    Arg::new(alloc, id).long(id).value_name(value_name)
}

/// An option with a number, from a least to a greatest.
pub(crate) fn number<'a>(alloc: Global, id: &'a str, least: u64, most: u64) -> Arg<'a>
    ensures rule { rule_of result ≡ number_rule id.entry.now least most }
    ensures local { result.global ≡ false }
{
    option(alloc, id, "N").value_parser(ValueParser::unsigned(least, most))
}

/// The source of readings.
pub(crate) fn source<'a>(alloc: Global, help: &'a str) -> Arg<'a>
    ensures rule { rule_of result ≡ source_rule }
    ensures local { result.global ≡ false }
{
    number(alloc, "source", 0, 4_294_967_295).help(help)
}
