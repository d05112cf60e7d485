//! The words of `jls-splice`. The modules are as in `salvage`.

mod asked;
mod bad;
mod command;
mod texts;

pub use asked::{Asked, Options, asked_splice};
pub use bad::BadList;
pub use command::matches;
