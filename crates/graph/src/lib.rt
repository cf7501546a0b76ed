// The drawing of a function's state diagram for Graphviz, in a lent area.
// Every public function here is proved, total and without a `requires`.
#![tactic(auto)]

mod dots;

ghost use Rattle.std.specs.Prelude.{◌≡◌, length, ◌≤◌, Ok};
ghost use Rattle.unit.specs.Calls.{tag_answer};
ghost use Rattle.graph.specs.Answers.{dot_area, dot_answer, dot_out};
ghost use Rattle.graph.specs.Inner.{plan_length};

use unit::{FunctionUnit, Plan, Refusal, Tag};

// An area of this length suffices for every diagram.
pub const DOT: usize = 1048576;

// How many latencies of the plan are the tag's.
fn cycle_length(plan: Plan, tag: Tag) -> usize
    ensures { result ≡ plan_length plan tag.0 }
{
    if plan.tag == tag.0 {
        return plan.count as usize;
    }
    0
}

// The diagram of a function, if its states are not too many.
fn dot_states(u: FunctionUnit, tag: Tag, out: &mut [u8]) -> Result<u32, Refusal>
    requires { (tag_answer u tag.0 ≡ Ok tt) × (dot_area ≤ length out.old) }
    ensures { (result ≡ dot_answer u tag.0 (length out.old)) × (out.new ≡ dot_out u tag.0 out.old) }
{
    let mut list = [0u32; 256];
    let counted = state_list::states(u, tag, &mut list);
    let Ok(number) = counted else {
        return Err(Refusal::TooManyStates);
    };
    let count = number as usize;
    let plan = u.plan;
    let latencies = plan.latencies;
    let length = cycle_length(plan, tag);
    let end = dots::put_diagram(out, tag.0 as u32, &list[..count], &latencies[..length]);
    Ok(end as u32)
}

// The state diagram of a function, the arcs of the present plan's cycle bold if the plan is one of the tag.
pub fn dot(u: FunctionUnit, tag: Tag, out: &mut [u8]) -> Result<u32, Refusal>
    ensures value { result ≡ dot_answer u tag.0 (length out.old) }
    ensures out_after { out.new ≡ dot_out u tag.0 out.old }
{
    unit::check_tag(u, tag)?;
    if out.len() < DOT {
        return Err(Refusal::ShortOutput);
    }
    dot_states(u, tag, out)
}
