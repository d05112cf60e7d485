//! The version of the programs.

/// What `--version` says of both programs: their version, and the line of the toolchain that proves and builds them (`rt version`).
pub const VERSION: &str = "1.2.0 (rattle-kit-13f logic dac8208d650f15bf)";
