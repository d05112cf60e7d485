//! The words of `jls-salvage`.
//!
//! - `command`: what clap is to take (`matches`)
//! - `texts`: the texts of help
//! - `asked`: what the words ask for: one value, `Asked`, by one function of what clap reads

mod asked;
mod command;
mod texts;

pub use asked::{Asked, asked_command, knows_format};
pub use command::matches;
