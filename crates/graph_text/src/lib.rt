//! Which job the lines of an input are, or which line is the first bad one, and why.
//!
//! [`LineReader`] is given the bytes in pieces, cut in any way, and answers as for the whole. A bad line is answered by
//! the piece that ends it, or that makes it too long. It keeps what the lines say, and of the text no more than one line
//! that a piece cut.
//!
//! `open_text` cuts the bytes into lines by `next_line`, and `whole_lines` judges each by its length, by what it says alone
//! and by what is gathered of those before it. Which lines repeat another, or are too many, stands in module `gathered`;
//! whether nodes and links make a pattern, in `pattern_lines`. Lines and sets of numbers are those of `text_lines`, and what
//! a line says is a statement of `line_statements`.
#![tactic(auto)]

mod fault;
mod gathered;
mod laws;
mod line_reader;
mod next_line;
mod open_text;
mod pattern_lines;
#[cfg(test)]
mod tests;
mod whole_lines;
mod worked;

pub use fault::TextFault;
pub use laws::{input_is_job, shown_is_first};
pub use line_reader::LineReader;
pub use line_statements::Why;
pub use worked::rows;
