ghost use Rattle.std.specs.Prelude.{◌≡◌, ◌∷◌, codes, MatchOption, Ok, Err};
ghost use Rattle.text_lines.specs.Lines.{words_in};
ghost use Rattle.line_statements.specs.Statements.{statement_among, one_word_forms, cut_forms, policy_forms};

use crate::number_words::only_number;
use crate::statement::Statement;
use crate::why::Why;
use grape_port::read_number;
use graph_core::{Cut, Policy};
use text_lines::{split_word, two_words};

/// The most fragments.
const MAX_FRAGMENTS: u32 = 64;

/// The most lanes.
const MAX_LANES: u32 = 16;

/// The most rounds that a policy may let a fragment run ahead.
const MAX_AHEAD: u32 = 1_000_000;

/// The most batches up to which a policy may let mail gather.
const MAX_BATCHES: u32 = 1_000_000;

/// The count of fragments that the one word behind `fragments` is.
pub(crate) fn read_fragments(rest: &[u8]) -> Result<Statement, Why>
    ensures { result ≡ statement_among one_word_forms (codes "fragments" ∷ words_in rest.now) }
{
    let count = only_number(rest, 1, MAX_FRAGMENTS)?;
    Ok(Statement::Fragments(count))
}

/// The count of lanes that the one word behind `lanes` is.
pub(crate) fn read_lanes(rest: &[u8]) -> Result<Statement, Why>
    ensures { result ≡ statement_among one_word_forms (codes "lanes" ∷ words_in rest.now) }
{
    let count = only_number(rest, 1, MAX_LANES)?;
    Ok(Statement::Lanes(count))
}

/// After how many Takes a snapshot is due, by the one word behind `snapshot`.
pub(crate) fn read_snapshot(rest: &[u8]) -> Result<Statement, Why>
    ensures { result ≡ statement_among one_word_forms (codes "snapshot" ∷ words_in rest.now) }
{
    let period = only_number(rest, 0, u32::MAX)?;
    Ok(Statement::Snapshots(period))
}

/// The cut that the words behind `cut` are.
pub(crate) fn read_cut(rest: &[u8]) -> Result<Statement, Why>
    ensures { result ≡ statement_among cut_forms (words_in rest.now) }
{
    let Some((word, rest)) = split_word(rest) else {
        return Err(Why::Count);
    };
    let cut = match word {
        b"range" => Cut::Range,
        b"hash" => Cut::Hash,
        _ => return Err(Why::Word),
    };
    if split_word(rest).is_some() {
        return Err(Why::Count);
    }
    Ok(Statement::Cuts(cut))
}

/// The policy that the words behind `policy` are.
pub(crate) fn read_policy(rest: &[u8]) -> Result<Statement, Why>
    ensures { result ≡ statement_among policy_forms (words_in rest.now) }
{
    let Some((word, rest)) = split_word(rest) else {
        return Err(Why::Count);
    };
    match word {
        b"bsp" => read_bsp(rest),
        b"ap" => read_ap(rest),
        b"ssp" => read_ssp(rest),
        b"aap" => read_aap(rest),
        _ => Err(Why::Word),
    }
}

/// The policy that lets no fragment run ahead, behind which no word stands.
fn read_bsp(rest: &[u8]) -> Result<Statement, Why>
    ensures { result ≡ statement_among policy_forms (codes "bsp" ∷ words_in rest.now) }
{
    if split_word(rest).is_some() {
        return Err(Why::Count);
    }
    Ok(Statement::Follows(Policy::Bsp))
}

/// The policy that lets each fragment run as far as it comes, behind which no word stands.
fn read_ap(rest: &[u8]) -> Result<Statement, Why>
    ensures { result ≡ statement_among policy_forms (codes "ap" ∷ words_in rest.now) }
{
    if split_word(rest).is_some() {
        return Err(Why::Count);
    }
    Ok(Statement::Follows(Policy::Ap))
}

/// The policy that lets a fragment run ahead by as many rounds as the one word here says.
fn read_ssp(rest: &[u8]) -> Result<Statement, Why>
    ensures { result ≡ statement_among policy_forms (codes "ssp" ∷ words_in rest.now) }
{
    let c = only_number(rest, 0, MAX_AHEAD)?;
    Ok(Statement::Follows(Policy::Ssp { c }))
}

/// The policy that lets a fragment run ahead, and lets mail gather: by how many rounds and up to how many batches, as the
/// two words here say.
fn read_aap(rest: &[u8]) -> Result<Statement, Why>
    ensures { result ≡ statement_among policy_forms (codes "aap" ∷ words_in rest.now) }
{
    let Some((c, l)) = two_words(rest) else {
        return Err(Why::Count);
    };
    let (Some(c), Some(l)) = (read_number(c), read_number(l)) else {
        return Err(Why::Number);
    };
    match (u32::try_from(c), u32::try_from(l)) {
        (Ok(c), Ok(l)) if c <= MAX_AHEAD && 1 <= l && l <= MAX_BATCHES => {
            Ok(Statement::Follows(Policy::Aap { c, l }))
        }
        _ => Err(Why::Range),
    }
}
