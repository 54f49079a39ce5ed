//! State files, byte by byte.

use grape_port::NoMemory;
use sha2::{Digest, Sha256};
use std::alloc::Global;

/// The digest of an input.
pub(crate) fn digest_of(text: &[u8]) -> [u8; 32] {
    Sha256::digest(text)
}

/// The header of the state file of an input: an open gate, the name, the digest, the length of a slot, and zeros.
fn header(alloc: Global, text: &[u8], slot_length: u8) -> Result<Vec<u8>, NoMemory> {
    let mut bytes = Vec::from_slice(alloc, b"GRAPEST1")?;
    bytes.extend_from_slice(&digest_of(text))?;
    bytes.extend_from_slice(&[0, 0, 0, 0, 0, 0, 0, slot_length])?;
    bytes.extend_from_slice(&[0; 16])?;
    Ok(bytes)
}

/// The state file of an input with one vertex, after its run: slot 0 is closed, and slot 1 has the first snapshot, in
/// which the vertex rests at the value 0.
pub(crate) fn alone_file(alloc: Global, text: &[u8]) -> Result<Vec<u8>, NoMemory> {
    let mut bytes = header(alloc, text, 18)?;
    bytes.extend_from_slice(&[0; 18])?;
    bytes.extend_from_slice(&[0x47, 0, 0, 0, 0, 0, 0, 0, 1, 1, 0, 0, 0, 0, 0, 0, 0, 0])?;
    Ok(bytes)
}

/// A state file with slots of 124 bytes, of which slot 1 is open, has the epoch 1 and then a byte that is no phase.
pub(crate) fn file_without_phase(alloc: Global, text: &[u8]) -> Result<Vec<u8>, NoMemory> {
    let mut bytes = header(alloc, text, 124)?;
    bytes.extend_from_slice(&[0; 124])?;
    bytes.extend_from_slice(&[0x47, 0, 0, 0, 0, 0, 0, 0, 1, 9])?;
    bytes.extend_from_slice(&[0; 114])?;
    Ok(bytes)
}
