//! The laws of desks in memory. Each is a function that does nothing and whose contract is the law.

ghost use Rattle.jls_memory.specs.Laws.{GrownDesksKeepTheirInputs, OutputsHoldWhatIsHandedOut};

/// A law: if the history of a desk grew by some events, the desk has the inputs that it had, and its life grew by these events. So a
/// contract that speaks of the history alone also says that the inputs stay.
pub fn grown_desks_keep_their_inputs()
    ensures { GrownDesksKeepTheirInputs }
{}

/// A law: an output that was created and handed some bytes holds these bytes. Where a life goes on with an output that is created, the
/// outputs of before stay as they are, and those of the rest come after them. So a desk whose outputs were handed their bytes one after the
/// other holds just these.
pub fn outputs_hold_what_is_handed_out()
    ensures { OutputsHoldWhatIsHandedOut }
{}
