ghost use Rattle.std.specs.Prelude.{◌≡◌, ◌↔◌, ℕ, List, [], ◌∷◌, ◌++◌, Option, Some, None, OnOk, OnErr, IfOk, Err, string_bytes, map};
ghost use Rattle.command_words.specs.Grammar.{mode_of};

use crate::parsing::{has_dash, read_plain};
use grape_port::NoMemory;
use std::alloc::Global;
use std::marker::Model;

/// What a run does.
#[derive(Clone, Copy, Debug, PartialEq, Eq)]
pub enum Mode {
    /// Reads a job, runs it from the beginning and prints its answer.
    Run,
    /// Reads a job, goes on from the last snapshot that was kept, and prints its answer.
    Resume,
    /// Makes a graph of 1 to 1,000,000 vertices from a number, runs the distances from vertex 0, and prints what they come to.
    Demo { vertices: u32, number: u64 },
}

/// Why words were refused.
#[derive(Clone, Copy, Debug, PartialEq, Eq)]
pub enum WordFault {
    /// They ask for nothing that there is.
    Bad,
    /// Memory ran out.
    NoMemory,
}

/// The words of a command, without the program's name. Contracts see the list of their texts.
#[derive(Drop)]
pub struct Words {
    words: Vec<String>,
    alloc: Global,
}

impl Model for Words {
    ghost use Rattle.std.specs.Prelude.{ℕ, List, map, string_bytes};

    ghost Value = { List (List ℕ) };

    ghost view = { λ w. map string_bytes w.words.items };
}

impl Words {
    /// No words yet. Each word that is pushed takes memory of `alloc`.
    pub fn new(alloc: Global) -> Words
        ensures { result ≡ [] }
    {
        Words {
            words: Vec::new(alloc),
            alloc,
        }
    }

    /// Adds a word at the end. Where memory runs out, the words stay as they were.
    pub fn push(&mut self, word: &str) -> Result<(), NoMemory>
        ensures ok { OnOk result (self.new ≡ self.old ++ word.now ∷ []) }
        ensures err { OnErr result (self.new ≡ self.old) }
    {
        let word = String::from_str(self.alloc, word).map_err(|_| NoMemory)?;
        self.words.push(word).map_err(|_| NoMemory)
    }
}

/// What the words ask for: `run`, or `resume`, or `demo` with a count of vertices from 1 to 1,000,000 and a number of up to
/// 64 bits, both in decimal. All else is refused as `Bad`, also where memory ran out. `NoMemory` comes only for words that
/// ask for something, where `alloc` had no memory for the reading.
pub fn read_words(alloc: Global, words: &Words) -> Result<Mode, WordFault>
    ensures bad { (result ≡ Err WordFault.Bad) ↔ (mode_of words.now ≡ None) }
    ensures asked { IfOk result (λ mode. mode_of words.now ≡ Some mode) }
{
    let words = words.words.as_slice();
    if has_dash(words) {
        return Err(WordFault::Bad);
    }
    read_plain(alloc, words)
}
