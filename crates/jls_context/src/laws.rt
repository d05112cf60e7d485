//! A law of contexts, as a function that does nothing and whose contract is the law.

ghost use Rattle.jls_context.specs.Mode.{ContextsAreApart};

/// Two samples whose contexts have one number have the same quantized gradients, each with its SIGN. So no two contexts share a cell (ITU-T
/// T.87, A.3.4).
pub fn contexts_are_apart()
    ensures { ContextsAreApart }
{}
