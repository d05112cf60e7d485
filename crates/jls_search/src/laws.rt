//! The laws of searches. Each is a function that does nothing and whose contract is the law.

ghost use Rattle.jls_search.specs.SearchLaws.{PartsCanBeSearched, SearchesComeToEachSplice};

/// A law: parts of one copy or more, of 2^63 - 1 bytes together at most, are as `search` requires them.
pub fn parts_can_be_searched()
    ensures { PartsCanBeSearched }
{}

/// A law: what a search over one copy or more found are splices of them without a fault. Where its tries were not used up, it found each of
/// them.
pub fn searches_come_to_each_splice()
    ensures { SearchesComeToEachSplice }
{}
