//! The lines of a text and their words, as bytes, whatever the lines say; and the numbers that stand on lines, gathered.
//!
//! `line_ends` cuts a text at its line feeds and takes a line without its end, and `words` finds the words of a line. A
//! [`NumberSet`] holds numbers, each once and in rising order, in time that no choice of them makes long: low ones in a
//! `flag_set`, and high ones in `sparse_flags`. [`with_labels`] puts labels beside such numbers.
#![tactic(auto)]

mod flag_set;
mod labels;
mod line_ends;
mod number_set;
mod sparse_flags;
mod sparse_words;
#[cfg(test)]
mod tests;
mod words;

pub use labels::with_labels;
pub use line_ends::{length_before_line_feed, split_line, without_line_end};
pub use number_set::NumberSet;
pub use words::{only_word, split_word, two_words};
