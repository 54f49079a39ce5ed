ghost use Rattle.std.specs.Prelude.{◌≡◌, ◌∷◌, [], codes, MatchOption, Ok, Err};
ghost use Rattle.text_lines.specs.Lines.{words_in, words_of};
ghost use Rattle.line_statements.specs.Statements.{statement_of, statement_by, statement_among, edge_form, one_word_forms, second_word_forms, keyword_statement};

use crate::query_lines::read_query;
use crate::setting_lines::{read_cut, read_fragments, read_lanes, read_policy, read_snapshot};
use crate::statement::Statement;
use crate::why::Why;
use grape_port::read_number;
use graph_core::{Edge, PatternLink, PatternNode};
use text_lines::{split_word, two_words, without_line_end};

/// The largest number of a pattern node.
const MAX_NODE: u8 = 63;

/// What a line says, with or without its line feed; or the first cause why it says nothing: an unknown word, a wrong
/// count of words, a word that is no number, a number that is out of range.
pub fn read_statement(line: &[u8]) -> Result<Statement, Why>
    ensures { result ≡ statement_of (words_of line.now) }
{
    let Some((word, rest)) = split_word(without_line_end(line)) else {
        return Ok(Statement::Nothing);
    };
    match word {
        [b'#' | b'%', ..] => Ok(Statement::Nothing),
        [b'0'..=b'9', ..] => read_edge(word, rest),
        _ => read_keyword(word, rest),
    }
}

/// What a line says that begins with a word of letters.
fn read_keyword(word: &[u8], rest: &[u8]) -> Result<Statement, Why>
    ensures { result ≡ keyword_statement (second_word_forms word.now) word.now (words_in rest.now) }
{
    if word == b"query".as_slice() {
        read_query(rest)
    } else if word == b"cut".as_slice() {
        read_cut(rest)
    } else if word == b"policy".as_slice() {
        read_policy(rest)
    } else if word == b"v".as_slice() {
        read_vertex(rest)
    } else if word == b"node".as_slice() {
        read_node(rest)
    } else if word == b"link".as_slice() {
        read_link(rest)
    } else if word == b"fragments".as_slice() {
        read_fragments(rest)
    } else if word == b"lanes".as_slice() {
        read_lanes(rest)
    } else if word == b"snapshot".as_slice() {
        read_snapshot(rest)
    } else {
        Err(Why::Word)
    }
}

/// An edge: this word, and one or two that stand behind it.
fn read_edge(from: &[u8], rest: &[u8]) -> Result<Statement, Why>
    ensures { result ≡ statement_by edge_form (from.now ∷ words_in rest.now) }
{
    let Some((to, rest)) = split_word(rest) else {
        return Err(Why::Count);
    };
    match split_word(rest) {
        None => edge_of(from, to, b"1"),
        Some((weight, rest)) => {
            if split_word(rest).is_some() {
                return Err(Why::Count);
            }
            edge_of(from, to, weight)
        }
    }
}

/// The edge that three words are.
fn edge_of(from: &[u8], to: &[u8], weight: &[u8]) -> Result<Statement, Why>
    ensures { result ≡ statement_by edge_form (from.now ∷ to.now ∷ weight.now ∷ []) }
{
    let (Some(from), Some(to), Some(weight)) = (
        read_number(from),
        read_number(to),
        read_number(weight),
    ) else {
        return Err(Why::Number);
    };
    match (
        u32::try_from(from),
        u32::try_from(to),
        u32::try_from(weight),
    ) {
        (Ok(from), Ok(to), Ok(weight)) => Ok(Statement::Joins(Edge { from, to, weight })),
        _ => Err(Why::Range),
    }
}

/// The vertex that the words behind `v` are: its number, and its label where there are two.
fn read_vertex(rest: &[u8]) -> Result<Statement, Why>
    ensures { result ≡ statement_among one_word_forms (codes "v" ∷ words_in rest.now) }
{
    let Some((number, rest)) = split_word(rest) else {
        return Err(Why::Count);
    };
    match split_word(rest) {
        None => vertex_of(number, b"0"),
        Some((label, rest)) => {
            if split_word(rest).is_some() {
                return Err(Why::Count);
            }
            vertex_of(number, label)
        }
    }
}

/// The vertex that two words are.
fn vertex_of(number: &[u8], label: &[u8]) -> Result<Statement, Why>
    ensures { result ≡ statement_among one_word_forms (codes "v" ∷ number.now ∷ label.now ∷ []) }
{
    let (Some(number), Some(label)) = (read_number(number), read_number(label)) else {
        return Err(Why::Number);
    };
    match (u32::try_from(number), u32::try_from(label)) {
        (Ok(number), Ok(label)) => Ok(Statement::Vertex { number, label }),
        _ => Err(Why::Range),
    }
}

/// The pattern node that the words behind `node` are: its number and its label.
fn read_node(rest: &[u8]) -> Result<Statement, Why>
    ensures { result ≡ statement_among one_word_forms (codes "node" ∷ words_in rest.now) }
{
    let Some((number, label)) = two_words(rest) else {
        return Err(Why::Count);
    };
    let (Some(number), Some(label)) = (read_number(number), read_number(label)) else {
        return Err(Why::Number);
    };
    match (u8::try_from(number), u32::try_from(label)) {
        (Ok(number), Ok(label)) if number <= MAX_NODE => {
            Ok(Statement::Node(PatternNode { number, label }))
        }
        _ => Err(Why::Range),
    }
}

/// The link that the words behind `link` are: the numbers of its two nodes.
fn read_link(rest: &[u8]) -> Result<Statement, Why>
    ensures { result ≡ statement_among one_word_forms (codes "link" ∷ words_in rest.now) }
{
    let Some((from, to)) = two_words(rest) else {
        return Err(Why::Count);
    };
    let (Some(from), Some(to)) = (read_number(from), read_number(to)) else {
        return Err(Why::Number);
    };
    match (u8::try_from(from), u8::try_from(to)) {
        (Ok(from), Ok(to)) if from <= MAX_NODE && to <= MAX_NODE => {
            Ok(Statement::Link(PatternLink { from, to }))
        }
        _ => Err(Why::Range),
    }
}
