ghost use Rattle.std.specs.Prelude.{◌≡◌, ◌^◌, [], ◌∷◌, length, codes};
ghost use Rattle.graph_core.specs.Rows.{detour};
ghost use Rattle.answer_text.specs.AnswerText.{answer_text, answer_row, value_text, IsAnswerText};
ghost use Rattle.answer_text.specs.Assembled.{IsAssembled};
ghost use Rattle.answer_text.specs.Summary.{totals_of, summary_text, IsSummaryText};
ghost use Rattle.answer_text.specs.Worked.{scattered, scattered_values};

use crate::answer::Kind;
use crate::totals::Totals;

/// The answer of the worked input is 30 bytes; how each kind of value is spelled; and where the values of an answer stand.
pub fn rows()
    ensures text { answer_text Kind.Dist (answer_row 1 0 ∷ answer_row 2 5 ∷ answer_row 3 6 ∷ []) ≡ codes "answer dist 3\n1 0\n2 5\n3 6\nend\n" }
    ensures whole_answer { IsAnswerText detour (codes "answer dist 3\n1 0\n2 5\n3 6\nend\n") }
    ensures bytes { length (answer_text Kind.Dist (answer_row 1 0 ∷ answer_row 2 5 ∷ answer_row 3 6 ∷ [])) ≡ 30 }
    ensures far { value_text Kind.Dist (2 ^ 52) ≡ codes "far" }
    ensures empty { answer_text Kind.Label [] ≡ codes "answer label 0\nend\n" }
    ensures reached { value_text Kind.Reach 0 ≡ codes "yes" }
    ensures simulated { value_text Kind.Sim 5 ≡ codes "0,2" }
    ensures assembled { IsAssembled scattered scattered_values (record { kind = Kind.Label; rows = answer_row 1 7 ∷ answer_row 2 5 ∷ answer_row 3 9 ∷ [] }) }
    ensures none_simulated { value_text Kind.Sim 0 ≡ codes "-" }
{}

/// The totals of some rows, and their line; and the line of the worked input.
pub fn summary_rows()
    ensures one { summary_text (totals_of (answer_row 0 0 ∷ [])) ≡ codes "summary dist 1 reached 1 sum 0 greatest 0\n" }
    ensures far { totals_of (answer_row 0 0 ∷ answer_row 1 (2 ^ 52) ∷ answer_row 2 7 ∷ answer_row 3 4 ∷ []) ≡ record { count = 4; reached = 3; sum = 11; greatest = 7 } }
    ensures none { totals_of (answer_row 5 (2 ^ 52) ∷ []) ≡ record { count = 1; reached = 0; sum = 0; greatest = 0 } }
    ensures wide { summary_text (record { count = 3; reached = 2; sum = 2 ^ 64; greatest = 5 }) ≡ codes "summary dist 3 reached 2 sum 18446744073709551616 greatest 5\n" }
    ensures whole_line { IsSummaryText detour (codes "summary dist 3 reached 3 sum 11 greatest 6\n") }
{}
