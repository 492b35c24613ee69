ghost use Rattle.std.specs.Prelude.{◌≡◌, ◌↔◌, List};
ghost use Rattle.radio_policy.specs.declared.rule.Rule.{Rule};
ghost use Rattle.radio_policy.specs.Table.{Row};
ghost use Rattle.radio_policy.specs.Verdicts.{verdict_in, Denies, Allows};

use crate::Verdict;

/// What a verdict means, whatever is asked. It allows exactly if the condition of no rule of the
/// action holds. It denies by a rule exactly if that rule's condition holds and that of no earlier
/// rule of the action does.
// rule: First rule
pub fn denials_name_the_first_rule()
    ensures allows { (rows : List Row) → (verdict_in rows ≡ Verdict.Allow) ↔ Allows rows }
    ensures denies { (rows : List Row) (rule : Rule) → (verdict_in rows ≡ Verdict.Deny rule) ↔ Denies rows rule }
{}
