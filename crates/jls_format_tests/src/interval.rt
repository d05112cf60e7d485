//! What no clause says: that the calls succeed, and values from outside: examples worked out by hand from the standard, and what
//! another coder says of damaged pieces.

mod cut;
mod damaged;
mod decoding;
mod encoding;
mod large;
mod lines;
mod size;
