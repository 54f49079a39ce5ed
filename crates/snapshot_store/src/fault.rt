ghost use Rattle.std.specs.Prelude.{◌≡◌, Some};
ghost use Rattle.snapshot_store.specs.Faults.{fault_text};
ghost use Rattle.snapshot_store.specs.declared.fault.StoreFault.TheVariants.{Disk as DiskFault, Damaged as DamagedFault, NoMemory as NoMemoryFault};

use grape_port::{Failed, NoMemory};
use snapshot_file::Damaged;
use std::error::Error;
use std::fmt;

/// Why a store could not be opened, or a snapshot not be kept.
#[derive(Clone, Copy, Debug, PartialEq, Eq)]
pub enum StoreFault {
    /// A call of the disk failed, and its count of faults rose.
    Disk,
    /// The file is another input's: the digest that it keeps, and the one that was asked for.
    Other { kept: [u8; 32], here: [u8; 32] },
    /// The bytes from that place of the file on are no field that may stand there.
    Damaged { place: u64 },
    /// Memory ran out.
    NoMemory,
}

impl From<Failed> for StoreFault {
    ghost from_gives = { λ _ fault. fault ≡ DiskFault };

    fn from(_failed: Failed) -> StoreFault {
        StoreFault::Disk
    }
}

impl From<NoMemory> for StoreFault {
    ghost from_gives = { λ _ fault. fault ≡ NoMemoryFault };

    fn from(_fault: NoMemory) -> StoreFault {
        StoreFault::NoMemory
    }
}

impl From<Damaged> for StoreFault {
    ghost from_gives = { λ damaged fault. fault ≡ DamagedFault damaged.place };

    fn from(damaged: Damaged) -> StoreFault {
        StoreFault::Damaged {
            place: damaged.place,
        }
    }
}

impl fmt::Display for StoreFault {
    ghost output = { λ fault. Some (fault_text fault) };

    fn fmt<W: fmt::Write>(&self, f: &mut fmt::Formatter<W>) -> fmt::Result {
        match self {
            StoreFault::Disk => write!(f, "the disk failed"),
            StoreFault::Other { .. } => write!(f, "the state file is another input's"),
            StoreFault::Damaged { place } => write!(f, "the state file is damaged at {place}"),
            StoreFault::NoMemory => write!(f, "out of memory"),
        }
    }
}

impl Error for StoreFault {}
