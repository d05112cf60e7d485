//! What no clause says: that the calls succeed, and examples worked out by hand from the standard.

mod codes;
mod data;
