ghost use Rattle.std.specs.Prelude.{◌≡◌, ◌<◌, IfOk, length};
ghost use Rattle.token_cut.specs.Shapes.{size_of, sizes_of};
ghost use Rattle.token_cut.specs.Recording.{with_value};

use crate::phase::Phase;
use grape_port::NoMemory;
use std::alloc::Global;
use std::marker::Model;
use value_order::{Order, meet};

/// What a snapshot keeps of a worker. Contracts see the two vectors as lists.
#[derive(Drop)]
pub struct Part {
    pub phase: Phase,
    /// The value of each place: of the owned vertices first, and of the mirrors after them.
    pub values: Vec<u64>,
    /// For each mirror the meet of the mail that waits, `NOTHING` where none does.
    pub mail: Vec<u64>,
}

impl Model for Part {
    ghost use Rattle.token_cut.specs.Parts.{PartValues};

    ghost Value = { PartValues };

    ghost view = { λ p. record { phase = p.phase; values = p.values.items; mail = p.mail.items } };
}

impl Part {
    /// An equal part.
    pub(crate) fn copy(&self, alloc: Global) -> Result<Part, NoMemory>
        ensures { IfOk result (λ copy. copy ≡ self.now) }
    {
        Ok(Part {
            phase: self.phase,
            values: Vec::from_slice(alloc, &self.values)?,
            mail: Vec::from_slice(alloc, &self.mail)?,
        })
    }

    /// Replaces all that the part holds. The lists are as long as the part's. Takes no memory.
    pub(crate) fn write(&mut self, phase: Phase, values: &[u64], mail: &[u64])
        requires values { length values.now ≡ length self.old.values }
        requires mail { length mail.now ≡ length self.old.mail }
        ensures { self.new ≡ record { phase = phase; values = values.now; mail = mail.now } }
    {
        self.phase = phase;
        self.values.copy_from_slice(values);
        self.mail.copy_from_slice(mail);
    }

    /// The part becomes equal to another of its size. Takes no memory.
    fn copy_from(&mut self, part: &Part)
        requires { size_of self.old ≡ size_of part.now }
        ensures { self.new ≡ part.now }
    {
        self.write(part.phase, &part.values, &part.mail);
    }

    /// The mail of a mirror becomes the meet of it and this value. The mirror is one of the part's.
    pub(crate) fn lower(&mut self, order: Order, mirror: u32, value: u64)
        requires { mirror < length self.old.mail }
        ensures { self.new ≡ with_value order mirror value self.old }
    {
        let place = mirror as usize;
        self.mail[place] = meet(order, self.mail[place], value);
    }
}

/// Writes each part into the one at its place in another list, with as many parts of the same sizes. Takes no memory.
pub(crate) fn copy_parts(parts: &[Part], to: &mut [Part])
    requires { sizes_of to.old ≡ sizes_of parts.now }
    ensures { to.new ≡ parts.now }
{
    for k in 0..parts.len() {
        to[k].copy_from(&parts[k]);
    }
}
