//! The laws of splices. Each is a function that does nothing and whose contract is the law.

ghost use Rattle.jls_diff.specs.SpliceLaws.{CopiesAreSplices, SplicesAreListed, ChoicesMakeSplices};

/// A law: each copy is a splice of its parts.
pub fn copies_are_splices()
    ensures { CopiesAreSplices }
{}

/// A law: the splices of one copy or more are exactly those that are listed. A splice has at each part what some copy has there.
pub fn splices_are_listed()
    ensures { SplicesAreListed }
{}

/// A law: choices of one copy or more make splices, one choice for each part. Each splice is that of some choices.
pub fn choices_make_splices()
    ensures { ChoicesMakeSplices }
{}
