use grape_event::StopCause;

/// How the coordinator left the lanes.
#[derive(Clone, Copy, Debug, PartialEq, Eq)]
pub(crate) enum Leave {
    /// All that was sealed is kept.
    AllKept,
    /// A sealed snapshot waits: its put failed for this cause, or the journal had ended before its Kept.
    Waits(StopCause),
}
