//! The desk whose inputs and outputs are in memory.

ghost use Rattle.std.specs.Prelude.{◌≡◌, ◌∷◌, [], ℕ, List, map, option_map, reverse};
ghost use Rattle.jls_memory.specs.Files.{bytes_named};
ghost use Rattle.jls_memory.specs.Held.{input_file, output_files};
ghost use Rattle.jls_memory.specs.Outputs.{outputs_of};
ghost use Rattle.jls_memory.specs.Inputs.{ReadsComeFrom};
ghost use Rattle.jls_memory.specs.Desks.{history_of};

use crate::files::{Input, Output, add_output, fill, input_named, lengthen, output_named};
use jls_io::{Desk, DeskFault, Device, Ledger, Noted, Sink, SinkFault, Source, SourceFault};
use std::alloc::Global;
use std::marker::Model;

/// A desk over inputs in memory, whose outputs are made in memory.
///
/// An input is opened by its name, and gives its bytes from the first on: as many as a read has room for, or all that are left. No read
/// fails. An output is created by any name. Writes to it fail only for want of memory. Where two outputs have one name, the last counts.
///
/// Clauses see its inputs and the events of its life. What its outputs hold, and what its reads gave, is a fact of these two.
#[derive(Drop)]
pub struct MemoryDesk<'a> {
    alloc: Global,
    inputs: &'a [Input<'a>],
    rest: &'a [u8],
    outputs: Vec<Output>,
    ledger: Ledger,
}

impl<'a> Model for MemoryDesk<'a> {
    ghost use Rattle.std.specs.Prelude.{◌≡◌, [], map};
    ghost use Rattle.jls_memory.specs.Desks.{AtDesk, IsKept};
    ghost use Rattle.jls_memory.specs.Held.{input_file, output_files};

    ghost Value = { AtDesk };

    ghost view = { λ d. record { inputs = map input_file d.inputs.now; events = d.ledger } };

    ghost invariant = { λ d. IsKept (map input_file d.inputs.now) d.rest.now (output_files d.outputs.items) d.ledger };
}

impl Device for MemoryDesk<'_> {
    ghost history = { history_of };
}

impl<'a> MemoryDesk<'a> {
    /// A desk over these inputs, of which none is open yet.
    pub fn new(alloc: Global, inputs: &'a [Input<'a>]) -> MemoryDesk<'a>
        ensures inputs { result.inputs ≡ map input_file inputs.now }
        ensures events { result.events ≡ [] }
    {
        MemoryDesk {
            alloc,
            inputs,
            rest: &[],
            outputs: Vec::new(alloc),
            ledger: Ledger::new(),
        }
    }

    /// What the last output of this name holds, if there is one.
    pub fn output(&self, name: &str) -> Option<&[u8]>
        ensures { option_map (λ s. s.now) result ≡ bytes_named name.now (reverse (outputs_of self.now.events)) }
    {
        output_named(&self.outputs, name)
    }

    /// All outputs, in the order in which they were created. The desk ends here.
    pub fn into_outputs(self) -> Vec<Output>
        ensures outputs { output_files result.items ≡ outputs_of self.entry.events }
        ensures reads { ReadsComeFrom self.entry.inputs self.entry.events }
    {
        let Self { outputs, .. } = self;
        outputs
    }
}

impl Source for MemoryDesk<'_> {
    fn read_some(&mut self, into: &mut [u8]) -> Result<usize, SourceFault> {
        let count = fill(into, self.rest);
        self.rest = &self.rest[count..];
        self.ledger.note(Noted::Gave(into.len(), &into[..count]));
        Ok(count)
    }

    fn reads(&self) -> u64 {
        self.ledger.reads()
    }

    fn read_failures(&self) -> u64 {
        self.ledger.read_failures()
    }
}

impl Sink for MemoryDesk<'_> {
    fn write_some(&mut self, bytes: &[u8]) -> Result<usize, SinkFault> {
        match lengthen(&mut self.outputs, bytes) {
            Ok(()) => {
                self.ledger.note(Noted::Took(bytes));
                Ok(bytes.len())
            }
            Err(()) => {
                self.ledger.note(Noted::WriteFailed);
                Err(SinkFault)
            }
        }
    }

    fn write_failures(&self) -> u64 {
        self.ledger.write_failures()
    }
}

impl Desk for MemoryDesk<'_> {
    fn open_input(&mut self, name: &str) -> Result<(), DeskFault> {
        match input_named(self.inputs, name) {
            Some(bytes) => {
                self.rest = bytes;
                self.ledger.note(Noted::Opened(name));
                Ok(())
            }
            None => {
                self.ledger.note(Noted::NotOpened(name));
                Err(DeskFault)
            }
        }
    }

    fn create_output(&mut self, name: &str) -> Result<(), DeskFault> {
        match add_output(self.alloc, &mut self.outputs, name) {
            Ok(()) => {
                self.ledger.note(Noted::Created(name));
                Ok(())
            }
            Err(_) => {
                self.ledger.note(Noted::NotCreated(name));
                Err(DeskFault)
            }
        }
    }

    fn open_failures(&self) -> u64 {
        self.ledger.open_failures()
    }
}
