//! What the rule says, in words.
ghost use Rattle.std.specs.Prelude.{ℕ, Option};
ghost use Rattle.atomic_table.specs.Table.{State};
ghost use Rattle.noted_lock.specs.declared.view.View.{View};
ghost use Rattle.noted_lock.specs.Rule.{Kept};
ghost use Rattle.noted_lock.specs.Words.{InWords};

use crate::rule::Noted;

/// Whatever keeps the rule of the table meets the rule in words, which names the owner of no number.
pub fn rule_in_words<T: Noted>()
    ensures words { (seats : ℕ) (s : State (Option T) View) → Kept T.note seats s → InWords T.note seats s }
{}
