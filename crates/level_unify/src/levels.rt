//! The levels and scopes that mean something of their own.

/// The level of a bound variable.
pub const BOUND: u32 = 4_294_967_295;

/// The scope that limits nothing.
pub const NO_SCOPE: u64 = 18_446_744_073_709_551_615;
