/// Of which Give batches come.
#[derive(Clone, Copy)]
pub struct Sender {
    /// Its place in the journal.
    pub place: u64,
    /// The round that its worker begins then.
    pub round: u64,
    /// Whether its batches carry the token of an open recording, in which its worker is marked.
    pub tagged: bool,
}
