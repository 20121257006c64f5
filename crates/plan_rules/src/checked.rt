ghost use Rattle.std.specs.Prelude.{◌≡◌, ℕ, Some, None, IfOk, OnOk, IsErrOf};
ghost use Rattle.sim_config.specs.declared.fault.TableNo.{TableNo};
ghost use Rattle.plan_rules.specs.declared.rule.PlanRule.{PlanRule};
ghost use Rattle.plan_rules.specs.First.{first_broken};

use crate::breach::Breach;
use crate::fault::PlanFault;
use crate::first::{first_broken, first_too_many};
use crate::numbered::Numbered;
use crate::rule::PlanRule;
use crate::tables::all_tables;
use sim_config::PlanText;
use std::alloc::Global;

/// The numbers of a text that breaks no rule, or the first rule that it breaks. No program is looked at.
pub fn check<'a>(alloc: Global, text: &'a PlanText) -> Result<Numbered<'a>, PlanFault>
    ensures text { IfOk result (λ plan. plan ≡ text.now) }

    // A text is accepted only if it breaks no rule, and refused for the first rule and table.
    ensures accepted { OnOk result (first_broken text.now ≡ None) }
    ensures broken { (rule : PlanRule) (table : TableNo) → IsErrOf result (PlanFault.Broken rule table)
        → first_broken text.now ≡ Some (record { rule = rule; table = table }) }
    ensures unmapped { (program at : ℕ) → ¬ IsErrOf result (PlanFault.Unmapped program at) }
{
    let tables = all_tables(alloc, text)?;
    if let Some(table) = first_too_many(text, &tables) {
        return Err(PlanFault::Broken {
            rule: PlanRule::TooMany,
            table,
        });
    }
    let plan = Numbered::open(alloc, text)?;
    match first_broken(&plan, &tables) {
        Some(Breach { rule, table }) => Err(PlanFault::Broken { rule, table }),
        None => Ok(plan),
    }
}
