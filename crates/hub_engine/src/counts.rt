ghost use Rattle.std.specs.Prelude.{◌≡◌, ◌≤◌, if◌then◌else◌};
ghost use Rattle.std.specs.Option.{is_some};
ghost use Rattle.hub_engine.specs.Kinds.{is_due};

/// How far the snapshots of a run have come.
#[derive(Clone, Copy)]
pub struct Counts {
    /// The epoch of the last Begin, or of the start.
    pub epoch: u64,
    /// How many Takes followed it.
    pub takes: u64,
    /// The epoch that is sealed and not kept yet, where there is one.
    pub sealed: Option<u64>,
}

/// The last epoch that a snapshot may have.
const LAST_EPOCH: u64 = (1 << 62) - 1;

impl Counts {
    /// Whether a snapshot is due, where one is wanted every so many Takes, and none where that is 0.
    pub fn is_due(&self, every: u32) -> bool
        ensures { result ≡ is_due every self.now }
    {
        every > 0 && u64::from(every) <= self.takes && self.epoch < LAST_EPOCH
    }

    /// How many Kepts are owed: one where a snapshot is sealed and not kept yet.
    pub fn kepts_owed(&self) -> u64
        ensures owed { result ≡ (if is_some self.now.sealed then 1 else 0) }
        ensures few { result ≤ 1 }
    {
        match self.sealed {
            Some(_) => 1,
            None => 0,
        }
    }
}
