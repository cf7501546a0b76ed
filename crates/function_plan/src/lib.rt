// The plan of a function, handed out: what the unit holds, if it is the function's own.
// Every public function here is proved, total and without a `requires`.
#![tactic(auto)]

ghost use Rattle.std.specs.Prelude.{◌≡◌};
ghost use Rattle.function_plan.specs.Own.{own_plan};

use unit::{FunctionUnit, Plan, Refusal, Tag};

// The plan of a function: what a read hands out, if it is the function's.
pub fn read_for(u: FunctionUnit, tag: Tag) -> Result<Plan, Refusal>
    ensures { result ≡ own_plan u tag.0 }
{
    unit::check_tag(u, tag)?;
    let plan = planner::read(u)?;
    if plan.tag != tag.0 {
        return Err(Refusal::NoPlan);
    }
    Ok(plan)
}
