ghost use Rattle.std.specs.Prelude.{◌≡◌, ℕ, ◌≤◌, ◌∷◌, [], Ok, Err, IfOk, IfErr};
ghost use Rattle.text_lines.specs.Lines.{words_in};
ghost use Rattle.line_statements.specs.declared.statement.Statement.{Statement as Said};
ghost use Rattle.line_statements.specs.Statements.{first, made_of};

use crate::why::Why;
use grape_port::read_number;
use text_lines::only_word;

/// The number from `low` to `high` that is the one word of a text; or the first cause why there is none: another count of
/// words, a word that is no number, a number that is out of range.
pub fn only_number(text: &[u8], low: u32, high: u32) -> Result<u32, Why>
    ensures ok { (says : ℕ → Said) → IfOk result (λ number. made_of (record { low = low; high = high } ∷ []) (λ ns. says (first ns)) (words_in text.now) ≡ Ok (says number)) }
    ensures err { (says : ℕ → Said) → IfErr result (λ why. made_of (record { low = low; high = high } ∷ []) (λ ns. says (first ns)) (words_in text.now) ≡ Err why) }
{
    let Some(word) = only_word(text) else {
        return Err(Why::Count);
    };
    let Some(number) = read_number(word) else {
        return Err(Why::Number);
    };
    match u32::try_from(number) {
        Ok(number) if low <= number && number <= high => Ok(number),
        _ => Err(Why::Range),
    }
}
