//! Inputs and outputs in memory.

ghost use Rattle.std.specs.Prelude.{◌≡◌, ◌∷◌, [], ◌++◌, List, ℕ, length, map, min, take, option_map, OnErr, OnOk, reverse};
ghost use Rattle.jls_memory.specs.Files.{bytes_named};
ghost use Rattle.jls_memory.specs.Held.{input_file, output_files, AreLonger};

use std::alloc::{AllocError, Global};

/// An input: its name, and all of its bytes.
#[derive(Clone, Copy)]
pub struct Input<'a> {
    pub name: &'a str,
    pub bytes: &'a [u8],
}

/// An output that was created: its name, and what was written to it.
#[derive(Drop)]
pub struct Output {
    pub name: String,
    pub bytes: Vec<u8>,
}

/// The bytes of the first input of this name.
pub(crate) fn input_named<'a>(inputs: &'a [Input<'a>], name: &str) -> Option<&'a [u8]>
    ensures { option_map (λ s. s.now) result ≡ bytes_named name.now (map input_file inputs.now) }
{
    for input in inputs {
        if input.name == name {
            return Some(input.bytes);
        }
    }
    None
}

/// The bytes of the last output of this name.
pub(crate) fn output_named<'a>(outputs: &'a [Output], name: &str) -> Option<&'a [u8]>
    ensures { option_map (λ s. s.now) result ≡ bytes_named name.now (reverse (output_files outputs.now)) }
{
    let mut found = None;
    for output in outputs {
        if output.name.as_str() == name {
            found = Some(output.bytes.as_slice());
        }
    }
    found
}

/// Adds an output of this name, which holds nothing yet.
pub(crate) fn add_output(
    alloc: Global,
    outputs: &mut Vec<Output>,
    name: &str,
) -> Result<(), AllocError>
    ensures added { OnOk result (output_files outputs.new.items
        ≡ output_files outputs.old.items ++ record { name = name.now; bytes = [] } ∷ []) }
    ensures same { OnErr result (output_files outputs.new.items ≡ output_files outputs.old.items) }
{
    let output = Output {
        name: String::from_str(alloc, name)?,
        bytes: Vec::new(alloc),
    };
    outputs.push(output)?;
    Ok(())
}

/// Adds bytes to the output that was created last. It fails where there is none, and for want of memory.
pub(crate) fn lengthen(outputs: &mut Vec<Output>, bytes: &[u8]) -> Result<(), ()>
    ensures longer { OnOk result (AreLonger bytes.now (output_files outputs.old.items) (output_files outputs.new.items)) }
    ensures same { OnErr result (output_files outputs.new.items ≡ output_files outputs.old.items) }
{
    let Some(output) = outputs.last_mut() else {
        return Err(());
    };
    match output.bytes.extend_from_slice(bytes) {
        Ok(()) => Ok(()),
        Err(_) => Err(()),
    }
}

/// Copies as many of the bytes as there is room for, from the first on. The answer is how many.
pub(crate) fn fill(into: &mut [u8], bytes: &[u8]) -> usize
    ensures count { result ≡ min (length into.new) (length bytes.now) }
    ensures filled { take result into.new ≡ take result bytes.now }
{
    let count = std::cmp::min(into.len(), bytes.len());
    into[..count].copy_from_slice(&bytes[..count]);
    count
}
