//! The statuses of all lines.

ghost use Rattle.jls_c.specs.Lines.{component_statuses, line_statuses};
ghost use Rattle.jls_c.specs.Lines as lines;
ghost use Rattle.std.specs.Prelude.{◌≡◌, ◌<◌, ◌++◌, length, IfOk, OnOk};

use jls_partial::{Partial, Status};
use std::alloc::{AllocError, Global};

/// The number of a status.
pub(crate) fn status_number(status: Status) -> u8
    ensures { result ≡ lines.status_number status }
{
    match status {
        Status::Missing => 0,
        Status::Settled => 1,
        Status::Disputed => 2,
    }
}

/// Appends the statuses of the lines of a component.
#[tactic(auto, using(crate::proofs::Rows::numbers_more))]
fn push_component(
    partial: &Partial,
    component: u8,
    statuses: &mut Vec<u8>,
) -> Result<(), AllocError>
    requires { component < length partial.now.shape.ids }
    ensures { OnOk result (statuses.new.items ≡ statuses.old.items ++ component_statuses partial.now component) }
{
    for line in 0..partial.shape().height() {
        statuses.push(status_number(partial.status(component, line)))?;
    }
    Ok(())
}

/// The statuses of all lines.
#[tactic(auto, using(jls_values::proofs::Lists::flat_map_more))]
pub(crate) fn statuses_of(alloc: Global, partial: &Partial) -> Result<Vec<u8>, AllocError>
    ensures { IfOk result (λ statuses. statuses.items ≡ line_statuses partial.now) }
{
    let mut statuses = Vec::new(alloc);
    for component in 0..partial.shape().ids().len() as u8 {
        push_component(partial, component, &mut statuses)?;
    }
    Ok(statuses)
}
