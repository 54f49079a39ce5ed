ghost use Rattle.std.specs.Prelude.{◌≡◌, ℕ, ◌++◌, List, IfOk};
ghost use Rattle.graph_core.specs.Graphs.{IsJob};
ghost use Rattle.graph_text.specs.Input.{input_of, shown_of, BadLine, bad};

/// The bad line that a front of an input shows is the first one of every input with that front.
pub fn shown_is_first()
    ensures { (front rest : List ℕ) (bad : BadLine) → shown_of front ≡ Some bad → input_of (front ++ rest) ≡ Err bad }
{}

/// What an input is read as lies within the limits of a job.
pub fn input_is_job()
    ensures { (text : List ℕ) → IfOk (input_of text) IsJob }
{}
