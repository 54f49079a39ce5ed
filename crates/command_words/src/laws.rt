ghost use Rattle.std.specs.Prelude.{◌≡◌, ◌≢◌, ℕ, List, None, true};
ghost use Rattle.clap.specs.Takes.{takes};
ghost use Rattle.command_words.specs.Grammar.{mode_of};
ghost use Rattle.command_words.specs.Command.{words_app};

/// Each list of words in the grammar is one that the simple command takes.
pub fn grammar_is_taken()
    ensures { (words : List (List ℕ)) → mode_of words ≢ None → takes words_app words ≡ true }
{}
