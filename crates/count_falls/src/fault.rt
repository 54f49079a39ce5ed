use graph_text::TextFault;

/// Why nothing was counted.
#[derive(Clone, Copy, Debug, PartialEq, Eq)]
pub(crate) enum Fault {
    /// A read failed.
    Unread,
    /// The input is none.
    BadInput,
    /// The input asks for snapshots.
    Snapshots,
    /// Memory ran out.
    NoMemory,
    /// The counts could not be written.
    Unwritten,
}

impl Fault {
    /// The fault in a few words.
    pub(crate) fn text(self) -> &'static str {
        match self {
            Fault::Unread => "the input can't be read",
            Fault::BadInput => "the input is bad",
            Fault::Snapshots => "an input with snapshots isn't counted",
            Fault::NoMemory => "memory ran out",
            Fault::Unwritten => "the counts can't be written",
        }
    }
}

impl From<TextFault> for Fault {
    fn from(fault: TextFault) -> Fault {
        match fault {
            TextFault::Bad { line: _, why: _ } => Fault::BadInput,
            TextFault::NoMemory => Fault::NoMemory,
        }
    }
}
