ghost use Rattle.std.specs.Prelude.{◌≡◌};
ghost use Rattle.token_cut.specs.Recording.{new_cut, after_begin, sealed_of};
ghost use Rattle.token_cut.specs.Steps.{AreAllowed, after_steps, snapshot_recorded};
ghost use Rattle.token_cut.specs.Worked.{six_vertices, steps, sealed};

/// A worked recording, by the definitions: each step is allowed, and what is sealed has the late value.
pub fn worked_recording()
    ensures allowed { AreAllowed steps (after_begin 1 (new_cut six_vertices)) }
    ensures sealed { sealed_of (after_steps steps (after_begin 1 (new_cut six_vertices))) ≡ sealed }
    ensures recorded { snapshot_recorded six_vertices.order 1 3 steps ≡ sealed }
{}
