//! Pacers with which runs are tried.

use delay_stretch::{Scripted, Seeded};
use grape_port::NoMemory;
use std::alloc::Global;

/// Answers of 0 or 64 for a worker.
fn script(alloc: Global, worker: u32, count: u32) -> Result<Vec<u32>, NoMemory> {
    let mut answers = Vec::new(alloc);
    for place in 0..count {
        let late = place.wrapping_mul(7).wrapping_add(worker) % 3 == 0;
        answers.push(if late { 64 } else { 0 })?;
    }
    Ok(answers)
}

/// Such a script for each worker.
pub(crate) fn scripts(alloc: Global, workers: u32, count: u32) -> Result<Vec<Scripted>, NoMemory> {
    let mut pacers = Vec::new(alloc);
    for worker in 0..workers {
        pacers.push(Scripted::new(script(alloc, worker, count)?))?;
    }
    Ok(pacers)
}

/// A drawn pacer for each worker.
pub(crate) fn seeds(alloc: Global, workers: u64) -> Result<Vec<Seeded>, NoMemory> {
    let mut pacers = Vec::new(alloc);
    for number in 0..workers {
        pacers.push(Seeded::new(number))?;
    }
    Ok(pacers)
}
