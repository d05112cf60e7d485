//! The law of searches. It is a function that does nothing and whose contract is the law.

ghost use Rattle.jls_splice_laws.specs.Searches.{SearchesFindSplices, SearchesLoseNothing};

use jls_copy::{final_ends_stay_under, prefixes_stay_broken_under};
use jls_diff::splices_are_listed;

/// A law: what a search as `Searched` defines it finds are splices without a fault, and it finds all of them. It may give up a prefix whose
/// current piece is broken, or which has ended with a fault. It may skip a way whose bytes an earlier way has.
pub fn searches_lose_nothing()
    ensures splices { SearchesFindSplices }
    ensures all { SearchesLoseNothing }
{
    splices_are_listed();
    prefixes_stay_broken_under();
    final_ends_stay_under();
}
