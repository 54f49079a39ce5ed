//! What a line says by itself, whatever the other lines are, or why it says nothing.
//!
//! [`read_statement`] reads the words of one line as a [`Statement`]: those of a query in `query_lines`, those of a setting
//! in `setting_lines`, and the others in `line_words`. `number_words` reads the one number of a line. The forms of all lines
//! are the tables of `Statements`. A [`Why`] is the cause for which a line is bad, also beside others. [`plain_edge`] reads an
//! edge line that is written plainly in one pass over its bytes.
#![tactic(auto)]

mod line_words;
mod number_words;
mod plain_lines;
mod query_lines;
mod setting_lines;
mod statement;
mod why;

pub use line_words::read_statement;
pub use plain_lines::plain_edge;
pub use statement::{Question, Statement};
pub use why::Why;
