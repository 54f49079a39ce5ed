//! A snapshot as the bytes of a slot of the state file.
//!
//! It promises that [`encode`] writes the body of a snapshot, and that [`decode`] accepts exactly the
//! bodies in the form and gives the snapshot back; of any other it names the place of the first wrong
//! field. A body is the epoch and then, for each worker, its phase, the values of its places and its
//! mail. Numbers are eight bytes, the highest first, and a phase is one byte. A body is written into
//! room that is there, and read over a snapshot of its shape.
#![tactic(auto)]

mod body_reader;
mod damaged;
mod field;
mod fields;
mod lengths;
mod pieces;
mod putting;
mod reading;
mod rule;
#[cfg(test)]
mod tests;
mod writing;

pub use body_reader::BodyReader;
pub use damaged::Damaged;
pub use fields::{epoch_of, phase_place};
pub use lengths::{body_len, file_len, slot_len};
pub use pieces::encode_piece;
pub use reading::decode;
pub use writing::encode;
