ghost use Rattle.std.specs.Prelude.{◌≡◌, ◌∷◌, codes, MatchOption, Ok, Err};
ghost use Rattle.text_lines.specs.Lines.{words_in};
ghost use Rattle.line_statements.specs.Statements.{statement_among, query_forms};

use crate::number_words::only_number;
use crate::statement::{Question, Statement};
use crate::why::Why;
use text_lines::split_word;

/// The query that the words behind `query` are.
pub(crate) fn read_query(rest: &[u8]) -> Result<Statement, Why>
    ensures { result ≡ statement_among query_forms (words_in rest.now) }
{
    let Some((word, rest)) = split_word(rest) else {
        return Err(Why::Count);
    };
    match word {
        b"dist" => read_distances(rest),
        b"label" => read_labels(rest),
        b"reach" => read_reaches(rest),
        b"sim" => read_simulation(rest),
        _ => Err(Why::Word),
    }
}

/// The query for distances from the vertex whose number is the one word here.
fn read_distances(rest: &[u8]) -> Result<Statement, Why>
    ensures { result ≡ statement_among query_forms (codes "dist" ∷ words_in rest.now) }
{
    let source = only_number(rest, 0, u32::MAX)?;
    Ok(Statement::Asks(Question::Distances(source)))
}

/// The query for labels, behind which no word stands.
fn read_labels(rest: &[u8]) -> Result<Statement, Why>
    ensures { result ≡ statement_among query_forms (codes "label" ∷ words_in rest.now) }
{
    if split_word(rest).is_some() {
        return Err(Why::Count);
    }
    Ok(Statement::Asks(Question::Labels))
}

/// The query for what the vertex reaches whose number is the one word here.
fn read_reaches(rest: &[u8]) -> Result<Statement, Why>
    ensures { result ≡ statement_among query_forms (codes "reach" ∷ words_in rest.now) }
{
    let source = only_number(rest, 0, u32::MAX)?;
    Ok(Statement::Asks(Question::Reaches(source)))
}

/// The query for a simulation, behind which no word stands.
fn read_simulation(rest: &[u8]) -> Result<Statement, Why>
    ensures { result ≡ statement_among query_forms (codes "sim" ∷ words_in rest.now) }
{
    if split_word(rest).is_some() {
        return Err(Why::Count);
    }
    Ok(Statement::Asks(Question::Simulation))
}
