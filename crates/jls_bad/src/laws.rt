//! Laws of known copies. The function does nothing, and its contract is the laws.

ghost use Rattle.jls_bad.specs.WholeLaw.{AreAsMany, AreWholeWithout, IsWholeWithout};

/// Laws: known copies are as many as the copies. What stands for a copy without bad places is the copy.
pub fn known_copies_are_whole()
    ensures count { AreAsMany }
    ensures one { IsWholeWithout }
    ensures all { AreWholeWithout }
{}
