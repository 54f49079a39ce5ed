/// How the run of a command begins.
#[derive(Clone, Copy, Debug, PartialEq, Eq)]
pub enum Beginning {
    /// At the fresh snapshot.
    Fresh,
    /// From the last snapshot that the state file keeps, where it keeps one.
    Resumed,
}
