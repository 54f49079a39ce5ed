ghost use Rattle.std.specs.Prelude.{◌≡◌, IfOk};
ghost use Rattle.token_cut.specs.Shapes.{IsShape, fresh_part, fresh_snapshot};

use crate::part::Part;
use crate::phase::Phase;
use crate::shape::Shape;
use crate::shape_part::ShapePart;
use grape_port::NoMemory;
use std::alloc::Global;
use std::marker::Model;
use value_order::NOTHING;

/// The state of a run at a consistent cut. Contracts see the epoch and the list of parts.
#[derive(Drop)]
pub struct Snapshot {
    /// Which snapshot of the run it is, from 1; the beginning has epoch 0.
    pub epoch: u64,
    /// A part for each worker, in the order of their numbers.
    pub parts: Vec<Part>,
}

impl Model for Snapshot {
    ghost use Rattle.token_cut.specs.Parts.{SnapshotParts};

    ghost Value = { SnapshotParts };

    ghost view = { λ s. record { epoch = s.epoch; parts = s.parts.items } };
}

impl Snapshot {
    /// The beginning of a run: epoch 0, and every part fresh with the start values and no mail.
    pub fn fresh(alloc: Global, shape: &Shape) -> Result<Snapshot, NoMemory>
        requires { IsShape shape.now }
        ensures { IfOk result (λ snapshot. snapshot ≡ fresh_snapshot shape.now) }
    {
        let mut parts = Vec::with_capacity(alloc, shape.parts.len())?;
        for starts in &shape.parts {
            parts.push(fresh_part(alloc, starts)?)?;
        }
        Ok(Snapshot { epoch: 0, parts })
    }

    /// An equal snapshot.
    pub fn copy(&self, alloc: Global) -> Result<Snapshot, NoMemory>
        ensures { IfOk result (λ copy. copy ≡ self.now) }
    {
        let mut parts = Vec::with_capacity(alloc, self.parts.len())?;
        for part in &self.parts {
            parts.push(part.copy(alloc)?)?;
        }
        Ok(Snapshot {
            epoch: self.epoch,
            parts,
        })
    }
}

fn fresh_part(alloc: Global, starts: &ShapePart) -> Result<Part, NoMemory>
    ensures { IfOk result (λ part. part ≡ fresh_part starts.now) }
{
    let mut values = Vec::with_capacity(alloc, starts.owned.len())?;
    values.extend_from_slice(&starts.owned)?;
    values.extend_from_slice(&starts.mirrors)?;
    let mail = vec![in alloc; NOTHING; starts.mirrors.len()]?;
    Ok(Part {
        phase: Phase::Fresh,
        values,
        mail,
    })
}
