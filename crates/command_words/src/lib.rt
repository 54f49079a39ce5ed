//! The words of a command line, and what they ask for.
//!
//! They are read by `clap`. Proved: [`read_words`] refuses exactly the words that are not in the grammar, and else gives
//! what they ask for; and the command that `clap` is given takes each list of words in the grammar
//! ([`grammar_is_taken`]).
#![tactic(auto)]

mod asked;
mod laws;
mod parsing;
mod words;

pub use laws::grammar_is_taken;
pub use words::{Mode, WordFault, Words, read_words};

#[cfg(test)]
mod tests;
