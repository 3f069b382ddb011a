//! Laws of all rules, each a contract of a function that does nothing.
ghost use Rattle.std.specs.Prelude.{◌≡◌, ◌↔◌, ℕ, List, Result, true};
ghost use Rattle.std.specs.List.{AllByRecursion};
ghost use Rattle.ksv_bytes.specs.Uses.{Makes, Touches};
ghost use Rattle.ksv_memo_rules.specs.Meaning.{on};
ghost use Rattle.ksv_memo_rules.specs.Evaluation.{is_among};
ghost use Rattle.ksv_memo_rules.specs.Entry.{Entry};
ghost use Rattle.ksv_memo_rules.specs.Right.{IsRight};
ghost use Rattle.ksv_memo_rules.specs.Touched.{IsTouched, left_after};

use ksv_bytes::Change;
use ksv_memo_rules::Rules;

/// If an edit touches no use of a kept answer, the answer is right for the bytes after the edit too.
pub fn untouched_answers_stay_right<R: Rules>(_rules: &R, _change: Change)
    ensures { (before after : List ℕ) (kept : List (Entry R.Node (Result R.Value R.Fault))) → Makes _change before after → IsRight (on (R.meaning _rules.now) before) kept → AllByRecursion (λ entry. AllByRecursion (λ used. Touches _change used → ⊥) entry.uses) kept → IsRight (on (R.meaning _rules.now) after) kept }
{}

/// An edit leaves a node of a list exactly if it touches no use in the node's tree.
pub fn edits_leave_untouched_nodes<R: Rules>(_rules: &R, _change: Change)
    ensures { (bytes : List ℕ) (nodes : List R.Node) (node : R.Node) → (is_among (R.meaning _rules.now).number (left_after (on (R.meaning _rules.now) bytes) _change nodes) node ≡ true) ↔ ((is_among (R.meaning _rules.now).number nodes node ≡ true) × (IsTouched (on (R.meaning _rules.now) bytes) _change node → ⊥)) }
{}
