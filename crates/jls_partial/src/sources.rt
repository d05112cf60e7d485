//! The sources of a line.

ghost use Rattle.std.specs.Prelude.{◌≡◌, ◌↔◌, [], IsOk, IsTrue, OnOk, OnErr};
ghost use Rattle.jls_partial.specs.Slot.{own_sources};
ghost use Rattle.jls_values.specs.OrderedSet as set;

use jls_values::SourceSet;
use std::alloc::{AllocError, Global};
use std::marker::Model;

/// The source numbers of a line. A line without one takes no memory for them, since most lines have none.
#[derive(Drop)]
pub(crate) struct Sources {
    own: Option<Box<SourceSet>>,
}

impl Model for Sources {
    ghost use Rattle.std.specs.Coded.{coded_ℕ};
    ghost use Rattle.std.specs.Ordering.{nat_cmp};
    ghost use Rattle.jls_values.specs.OrderedSet as set;

    ghost Value = { set.OrderedSet nat_cmp };

    ghost coded = { set.code coded_ℕ };

    ghost use Rattle.jls_partial.specs.Slot.{own_sources};

    ghost view = { λ a. own_sources a.own };
}

impl Sources {
    /// No source. It takes no memory.
    pub(crate) fn none() -> Sources
        ensures { result ≡ set.empty }
    {
        Sources { own: None }
    }

    /// Whether there is none.
    pub(crate) fn is_empty(&self) -> bool
        ensures { IsTrue result ↔ (self.now ≡ set.empty) }
    {
        self.as_slice().is_empty()
    }

    /// Takes several source numbers, in whatever order they stand. Want of memory changes nothing.
    pub(crate) fn add_all(&mut self, alloc: Global, sources: &[u32]) -> Result<(), AllocError>
        ensures held { OnOk result (self.new ≡ set.insert_all self.old sources.now) }
        ensures unchanged { OnErr result (self.new ≡ self.old) }
        ensures no_memory { sources.now ≡ [] → IsOk result }
    {
        if sources.is_empty() {
            return Ok(());
        }
        match &mut self.own {
            Some(own) => own.add_all(sources),
            None => {
                let mut own = SourceSet::empty(alloc);
                own.add_all(sources)?;
                self.own = Some(Box::new(alloc, own)?);
                Ok(())
            }
        }
    }

    /// The source numbers in ascending order.
    pub(crate) fn as_slice(&self) -> &[u32]
        ensures { result.now ≡ set.items self.now }
    {
        match &self.own {
            Some(own) => own.as_slice(),
            None => &[],
        }
    }
}
