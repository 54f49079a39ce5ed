//! Snapshots in a file with two gated slots: what a crash leaves opens as the last one kept, or as
//! the one that was being kept.
//!
//! A slot's gate is one byte. A snapshot goes to the slot that the last kept one doesn't stand in:
//! its gate is closed, then the body is written, then the gate is opened, and each step is on the
//! disk before the next begins.
//!
//! What is said of crashes has these premises: the disk is honest, nothing is pending when the call
//! begins, and nobody else writes the file. An honest disk loses no byte beside the range of a write
//! that was not synced, so a sector that is being written when the power fails keeps its other bytes
//! (power-safe overwrite), and a byte of that range may be any. Where something is pending, a sync
//! that succeeds meets the second premise, also before an open: what is read and not synced may be
//! lost, and a put that fails after it may lose what was kept before.
#![tactic(auto)]

mod body;
mod create;
mod fault;
mod header;
#[cfg(test)]
mod long_tests;
mod open;
mod opened;
mod slots;
mod steps;
mod store;
#[cfg(test)]
mod tests;
mod worked;

pub use fault::StoreFault;
pub use opened::Opened;
pub use store::Store;
pub use worked::worked_files;
