ghost use Rattle.std.specs.Prelude.{◌≡◌, Some, None};

use crate::status::Status;
use coordinator::Story;

/// How a command ended, with the story of its run where there was one.
#[derive(Drop)]
pub struct Finish {
    pub status: Status,
    /// There is one after `Done` and `WriteFault`, whose journal ended by a probe with no worker running and no message
    /// waiting. After `DiskFault` and `NoMemory` there is one where the run had begun: its journal ended by a Stop for
    /// that, or after `NoMemory` by End. After every other status there is none.
    pub story: Option<Story>,
}

impl Finish {
    /// A command that ended before its run began.
    pub(crate) fn without_story(status: Status) -> Finish
        ensures { result ≡ record { status = status; story = None } }
    {
        Finish {
            status,
            story: None,
        }
    }

    /// A command whose run began.
    pub(crate) fn with_story(status: Status, story: Story) -> Finish
        ensures { result ≡ record { status = status; story = Some story } }
    {
        Finish {
            status,
            story: Some(story),
        }
    }
}
