ghost use Rattle.std.specs.Prelude.{◌≡◌};
ghost use Rattle.grape_event.specs.Events.{is_last};

/// Why a run stopped before its end.
#[derive(Clone, Copy, Debug, PartialEq, Eq)]
pub enum StopCause {
    /// A call of the disk failed.
    Disk,
    /// Memory ran out.
    Memory,
}

/// One step of a run. Workers and lanes count from 0, and there is a worker for each fragment. Epochs number the
/// snapshots: one that a run begins has the epoch after the last one's, and no epoch passes 2^62 - 1.
#[derive(Clone, Copy, Debug, PartialEq, Eq)]
pub enum Event {
    /// The worker takes all the mail that waits for it, and the lane is to evaluate it.
    Take { worker: u32, lane: u32 },
    /// The evaluation is done: the worker has its values, and sends on those that became lower.
    Give { worker: u32 },
    /// The worker lets mail gather for so many more events, at most 128.
    Stretch { worker: u32, turns: u32 },
    /// The worker still lets mail gather.
    Hold { worker: u32 },
    /// The worker rests, and no mail waits for it.
    Flag { worker: u32 },
    /// All workers are asked whether the run may end.
    Ask,
    /// The worker answers that it may: no mail waits for it, and it took none since it was asked.
    Ack { worker: u32 },
    /// The worker answers that it may not.
    Nack { worker: u32 },
    /// A snapshot begins.
    Begin { epoch: u64 },
    /// The worker's part is recorded in the snapshot.
    Mark { worker: u32 },
    /// All parts are recorded, and the snapshot is whole.
    Seal { epoch: u64 },
    /// The snapshot is on the disk.
    Kept { epoch: u64 },
    /// The run has ended, with its answer.
    End,
    /// The run has stopped, without an answer.
    Stop { cause: StopCause },
}

impl Event {
    /// Whether nothing may follow this event.
    pub fn is_last(self) -> bool
        ensures { result ≡ is_last self }
    {
        matches!(self, Event::End | Event::Stop { .. })
    }
}
