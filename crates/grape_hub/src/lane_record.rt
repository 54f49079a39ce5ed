ghost use Rattle.std.specs.Prelude.{◌≡◌};
ghost use Rattle.grape_hub.specs.LanedHub.{answer_of, after_answer};

use hub_engine::Next;

/// What the hub keeps of a lane: what `next` answered it last, and whether it has a Work out.
#[derive(Clone, Copy)]
pub struct LaneRecord {
    /// How often `next` was called for the lane, at most `u64::MAX`.
    pub calls: u64,
    /// The number of the last answer: 1 Took, 2 Did, 3 Idle, 4 Ended, 5 NoMemory, and 0 before the first call.
    pub answer: u64,
    /// How many events the journal had after that answer.
    pub length: u64,
    /// Whether a Work of the lane is out.
    pub out: bool,
}

impl LaneRecord {
    /// Records an answer of `next`, after which the journal has so many events.
    pub fn answered(&mut self, answer: &Next, length: u64)
        ensures { self.new ≡ after_answer (answer_of answer.now) length self.old }
    {
        self.calls = self.calls.saturating_add(1);
        self.answer = number_of(answer);
        self.length = length;
        self.out = matches!(answer, Next::Took(_));
    }
}

/// The number of an answer.
fn number_of(answer: &Next) -> u64
    ensures { result ≡ answer_of answer.now }
{
    match answer {
        Next::Took(_) => 1,
        Next::Did(_) => 2,
        Next::Idle => 3,
        Next::Ended => 4,
        Next::NoMemory => 5,
    }
}
