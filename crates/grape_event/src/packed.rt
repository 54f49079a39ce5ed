ghost use Rattle.std.specs.Prelude.{◌≡◌, MatchOption};
ghost use Rattle.grape_event.specs.Packing.{unpacked};

use crate::event::{Event, StopCause};

/// An event in 3 bytes, where its numbers are below 256. Another one is `Wide`, and is kept elsewhere.
#[derive(Clone, Copy)]
pub enum Packed {
    Take { worker: u8, lane: u8 },
    Give { worker: u8 },
    Stretch { worker: u8, turns: u8 },
    Hold { worker: u8 },
    Flag { worker: u8 },
    Ask,
    Ack { worker: u8 },
    Nack { worker: u8 },
    Begin { epoch: u8 },
    Mark { worker: u8 },
    Seal { epoch: u8 },
    Kept { epoch: u8 },
    End,
    DiskStop,
    MemoryStop,
    Wide,
}

/// The event packed, and `Wide` where one of its numbers isn't below 256.
pub fn pack(event: Event) -> Packed
    ensures { unpacked event result ≡ event }
{
    match event {
        Event::Take { worker, lane } if worker < 256 && lane < 256 => Packed::Take {
            worker: worker as u8,
            lane: lane as u8,
        },
        Event::Give { worker } if worker < 256 => Packed::Give {
            worker: worker as u8,
        },
        Event::Stretch { worker, turns } if worker < 256 && turns < 256 => Packed::Stretch {
            worker: worker as u8,
            turns: turns as u8,
        },
        Event::Hold { worker } if worker < 256 => Packed::Hold {
            worker: worker as u8,
        },
        Event::Flag { worker } if worker < 256 => Packed::Flag {
            worker: worker as u8,
        },
        Event::Ask => Packed::Ask,
        Event::Ack { worker } if worker < 256 => Packed::Ack {
            worker: worker as u8,
        },
        Event::Nack { worker } if worker < 256 => Packed::Nack {
            worker: worker as u8,
        },
        Event::Begin { epoch } if epoch < 256 => Packed::Begin { epoch: epoch as u8 },
        Event::Mark { worker } if worker < 256 => Packed::Mark {
            worker: worker as u8,
        },
        Event::Seal { epoch } if epoch < 256 => Packed::Seal { epoch: epoch as u8 },
        Event::Kept { epoch } if epoch < 256 => Packed::Kept { epoch: epoch as u8 },
        Event::End => Packed::End,
        Event::Stop {
            cause: StopCause::Disk,
        } => Packed::DiskStop,
        Event::Stop {
            cause: StopCause::Memory,
        } => Packed::MemoryStop,
        _ => Packed::Wide,
    }
}

impl Packed {
    /// The event, unless it is kept elsewhere.
    pub fn unpack(self) -> Option<Event>
        ensures { MatchOption result (self ≡ Packed.Wide) (λ e. (wide : Event) → unpacked wide self ≡ e) }
    {
        let event = match self {
            Packed::Take { worker, lane } => Event::Take {
                worker: u32::from(worker),
                lane: u32::from(lane),
            },
            Packed::Give { worker } => Event::Give {
                worker: u32::from(worker),
            },
            Packed::Stretch { worker, turns } => Event::Stretch {
                worker: u32::from(worker),
                turns: u32::from(turns),
            },
            Packed::Hold { worker } => Event::Hold {
                worker: u32::from(worker),
            },
            Packed::Flag { worker } => Event::Flag {
                worker: u32::from(worker),
            },
            Packed::Ask => Event::Ask,
            Packed::Ack { worker } => Event::Ack {
                worker: u32::from(worker),
            },
            Packed::Nack { worker } => Event::Nack {
                worker: u32::from(worker),
            },
            Packed::Begin { epoch } => Event::Begin {
                epoch: u64::from(epoch),
            },
            Packed::Mark { worker } => Event::Mark {
                worker: u32::from(worker),
            },
            Packed::Seal { epoch } => Event::Seal {
                epoch: u64::from(epoch),
            },
            Packed::Kept { epoch } => Event::Kept {
                epoch: u64::from(epoch),
            },
            Packed::End => Event::End,
            Packed::DiskStop => Event::Stop {
                cause: StopCause::Disk,
            },
            Packed::MemoryStop => Event::Stop {
                cause: StopCause::Memory,
            },
            Packed::Wide => return None,
        };
        Some(event)
    }
}
