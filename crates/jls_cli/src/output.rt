//! The output of a command.

ghost use Rattle.std.specs.Prelude.{◌≡◌, ◌++◌, ◌∷◌, [], OnOk, OnErr, IfErr};
ghost use Rattle.jls_io.specs.Event.{GrewBy, created, not_created};
ghost use Rattle.jls_io.specs.Outputs.{HandsOut};
ghost use Rattle.jls_cli.specs.Outcomes.{refusal_at};
ghost use Rattle.jls_cli.specs.Outputs.{StopsAtOutput};

use crate::outcome::{Cause, Refusal};
use jls_io::{Desk, write_all};

/// Creates the output of this name.
pub fn create<'a, D: Desk>(desk: &mut D, name: &'a str) -> Result<(), Refusal<'a>>
    ensures created { OnOk result (D.history desk.new ≡ D.history desk.old ++ created name.now ∷ []) }
    ensures not_created { OnErr result (D.history desk.new ≡ D.history desk.old ++ not_created name.now ∷ []) }
    ensures refusal { IfErr result (λ refusal. refusal ≡ refusal_at name.entry Cause.NotCreated) }
{
    desk.create_output(name).map_err(|_| Refusal {
        name,
        cause: Cause::NotCreated,
    })
}

/// Creates the output of this name and hands all of the bytes to it.
pub fn write_output<'a, D: Desk>(
    desk: &mut D,
    name: &'a str,
    bytes: &[u8],
) -> Result<(), Refusal<'a>>
    ensures written { OnOk result (GrewBy (HandsOut name.now bytes.now) (D.history desk.old) (D.history desk.new)) }
    ensures stopped { IfErr result (λ refusal.
        GrewBy (StopsAtOutput name.now bytes.now refusal) (D.history desk.old) (D.history desk.new)) }
{
    create(desk, name)?;
    write_all(desk, bytes).map_err(|count| Refusal {
        name,
        cause: Cause::NotWritten(count),
    })
}
