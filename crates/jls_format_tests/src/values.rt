//! What no clause says: that the calls succeed, and the values of the tables of the standard.

mod merging;
mod sources;
mod values;
