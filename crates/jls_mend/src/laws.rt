//! What a mending without lists is.

ghost use Rattle.jls_mend.specs.Laws.{CopiesWithoutListsAreSearched};

/// Where no list is given, what was read of the copies is searched, and nothing else is read.
pub fn copies_without_lists_are_searched()
    ensures { CopiesWithoutListsAreSearched }
{}
