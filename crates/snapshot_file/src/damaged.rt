ghost use Rattle.std.specs.Prelude.{◌++◌, Some, codes, decimal};

use std::error::Error;
use std::fmt;

/// A field of a body that isn't in the form, by the place of its first byte in the file.
#[derive(Clone, Copy, Debug, PartialEq, Eq)]
pub struct Damaged {
    pub place: u64,
}

impl fmt::Display for Damaged {
    ghost output = { λ fault. Some (codes "damaged at " ++ decimal fault.place) };

    fn fmt<W: fmt::Write>(&self, f: &mut fmt::Formatter<W>) -> fmt::Result {
        write!(f, "damaged at {}", self.place)
    }
}

impl Error for Damaged {}
