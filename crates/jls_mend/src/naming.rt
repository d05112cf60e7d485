//! The copies and the lists as inputs. The names of the copies are their numbers, from 1 on, and those of the lists BAD-1, BAD-2 and so on.

ghost use Rattle.std.specs.Prelude.{◌≡◌, ◌+◌, ◌<◌, ◌++◌, ◌^◌, IfOk, codes, decimal, length, map, position};
ghost use Rattle.std.specs.List.{AllByRecursion};
ghost use Rattle.std.specs.Str.{bytes_eq};
ghost use Rattle.std.specs.String.{string_bytes};
ghost use Rattle.jls_memory.specs.Held.{input_file};
ghost use Rattle.jls_mend.specs.Asking.{inputs_of, inputs_with, list_name, lists_of, names_in, places_of, values_of};
ghost use Rattle.jls_mend.specs.Running.{AreNames};
ghost use Rattle.jls_splice_run.specs.Tasks.{texts_of};

use crate::asking::BadPlaces;
use jls_memory::Input;
use std::alloc::{AllocError, Global};

/// Copies are fewer than 2^64, as the elements of any slice.
pub(crate) fn are_few(copies: &[&[u8]])
    ensures { length (map (λ copy. copy.now) copies.now) < 2 ^ 64 }
{
    let _count = copies.len();
}

/// Lists are fewer than 2^64.
pub(crate) fn lists_are_few(bad: &[BadPlaces<'_>])
    ensures { length (map places_of bad.now) < 2 ^ 64 }
{
    let _count = bad.len();
}

/// The names of the copies and of the lists, and the values of `--bad` that name these.
#[derive(Drop)]
pub(crate) struct Names {
    pub(crate) copies: Vec<String>,
    pub(crate) lists: Vec<String>,
    pub(crate) values: Vec<String>,
}

/// A number as a name.
fn number_name(alloc: Global, number: usize) -> Result<String, AllocError>
    ensures { IfOk result (λ name. string_bytes name ≡ decimal number) }
{
    format!(in alloc; "{number}")
}

/// The names of the copies.
pub(crate) fn numbers_of(alloc: Global, copies: &[&[u8]]) -> Result<Vec<String>, AllocError>
    ensures { IfOk result (λ names. map string_bytes names.items ≡ names_in (inputs_of (map (λ copy. copy.now) copies.now))) }
{
    let mut names = Vec::new(alloc);
    for index in 0..copies.len() {
        let name = number_name(alloc, index + 1)?;
        names.push(name)?;
    }
    Ok(names)
}

/// The name of the list of a number.
fn name_of_list(alloc: Global, number: usize) -> Result<String, AllocError>
    ensures { IfOk result (λ name. string_bytes name ≡ list_name number) }
{
    format!(in alloc; "BAD-{number}")
}

/// The names of the lists.
pub(crate) fn list_names_of(alloc: Global, bad: &[BadPlaces<'_>]) -> Result<Vec<String>, AllocError>
    ensures { IfOk result (λ names. map string_bytes names.items ≡ names_in (lists_of (map places_of bad.now))) }
{
    let mut names = Vec::new(alloc);
    for index in 0..bad.len() {
        let name = name_of_list(alloc, index + 1)?;
        names.push(name)?;
    }
    Ok(names)
}

/// The value of `--bad` that names this list of a copy.
fn value_of(alloc: Global, copy: usize, number: usize) -> Result<String, AllocError>
    ensures { IfOk result (λ value. string_bytes value ≡ decimal copy ++ (codes ":" ++ list_name number)) }
{
    format!(in alloc; "{copy}:BAD-{number}")
}

/// The values of `--bad` that name the lists.
pub(crate) fn values_for(alloc: Global, bad: &[BadPlaces<'_>]) -> Result<Vec<String>, AllocError>
    requires { AllByRecursion (λ l. l.copy < 4294967295) (map places_of bad.now) }
    ensures { IfOk result (λ values. map string_bytes values.items ≡ values_of (map places_of bad.now)) }
{
    let mut values = Vec::new(alloc);
    for index in 0..bad.len() {
        let value = value_of(alloc, bad[index].copy + 1, index + 1)?;
        values.push(value)?;
    }
    Ok(values)
}

/// All of these names.
pub(crate) fn names_for(
    alloc: Global,
    copies: &[&[u8]],
    bad: &[BadPlaces<'_>],
) -> Result<Names, AllocError>
    requires { AllByRecursion (λ l. l.copy < 4294967295) (map places_of bad.now) }
    ensures { IfOk result (λ names. AreNames names (map (λ copy. copy.now) copies.now) (map places_of bad.now)) }
{
    Ok(Names {
        copies: numbers_of(alloc, copies)?,
        lists: list_names_of(alloc, bad)?,
        values: values_for(alloc, bad)?,
    })
}

/// The copies under these names.
pub(crate) fn inputs_for<'a>(
    alloc: Global,
    names: &'a [String],
    copies: &'a [&'a [u8]],
) -> Result<Vec<Input<'a>>, AllocError>
    requires { map string_bytes names.now ≡ names_in (inputs_of (map (λ copy. copy.now) copies.now)) }
    ensures { IfOk result (λ inputs. map input_file inputs.items ≡ inputs_of (map (λ copy. copy.now) copies.now)) }
{
    let mut inputs = Vec::new(alloc);
    for (index, bytes) in copies.iter().enumerate() {
        inputs.push(Input {
            name: names[index].as_str(),
            bytes,
        })?;
    }
    Ok(inputs)
}

/// The lists under these names.
pub(crate) fn list_inputs_for<'a>(
    alloc: Global,
    names: &'a [String],
    bad: &'a [BadPlaces<'a>],
) -> Result<Vec<Input<'a>>, AllocError>
    requires { map string_bytes names.now ≡ names_in (lists_of (map places_of bad.now)) }
    ensures { IfOk result (λ inputs. map input_file inputs.items ≡ lists_of (map places_of bad.now)) }
{
    let mut inputs = Vec::new(alloc);
    for index in 0..bad.len() {
        inputs.push(Input {
            name: names[index].as_str(),
            bytes: bad[index].text,
        })?;
    }
    Ok(inputs)
}

/// The copies, and behind them the lists, under these names.
pub(crate) fn all_inputs<'a>(
    alloc: Global,
    names: &'a Names,
    copies: &'a [&'a [u8]],
    bad: &'a [BadPlaces<'a>],
) -> Result<Vec<Input<'a>>, AllocError>
    requires { AreNames names.now (map (λ copy. copy.now) copies.now) (map places_of bad.now) }
    ensures { IfOk result (λ inputs.
        map input_file inputs.items ≡ inputs_with (map (λ copy. copy.now) copies.now) (map places_of bad.now)) }
{
    let mut inputs = inputs_for(alloc, &names.copies, copies)?;
    let lists = list_inputs_for(alloc, &names.lists, bad)?;
    inputs.extend_from_slice(&lists)?;
    Ok(inputs)
}

/// The texts of strings.
pub(crate) fn texts_in<'a>(alloc: Global, strings: &'a [String]) -> Result<Vec<&'a str>, AllocError>
    ensures { IfOk result (λ texts. texts_of texts.items ≡ map string_bytes strings.now) }
{
    let mut texts = Vec::new(alloc);
    for string in strings {
        texts.push(string.as_str())?;
    }
    Ok(texts)
}

/// The place of the first of the names that is this one.
pub(crate) fn place_of(names: &[String], name: &str) -> Option<usize>
    ensures { result ≡ position (λ other. bytes_eq (string_bytes other) name.now) names.now }
{
    names.iter().position(|other| other.as_str() == name)
}
