// The chart of a plan that is played on a unit: the time units, the starts, and for each segment the task that occupies it in each unit and how much of
// the time it is busy; as text in a lent area. Every public function here is proved, total and without a `requires`.
#![tactic(auto)]

mod rows;

ghost use Rattle.std.specs.Prelude.{◌≡◌, length, replicate};
ghost use Rattle.controller.specs.Bank.{empty};
ghost use Rattle.chart.specs.Answers.{plan_answer, units_answer, chart_refusal, chart_answer, chart_out, simulate_answer, simulate_out, chart_area};

use controller::Bank;
use unit::{FunctionUnit, Plan, Refusal, Tag};

// An area of this length suffices for every chart of up to 8,192 units.
pub const CHART: usize = 147858;

// Zeros, room for every chart of up to 8,192 units.
pub fn area() -> [u8; CHART]
    ensures { result ≡ replicate chart_area 0 }
{
    [0; CHART]
}

fn empty_bank() -> Bank
    ensures { result ≡ empty }
{
    Bank {
        r1: 0,
        r2: 0,
        r3: 0,
        r4: 0,
    }
}

// Whether the plan is one of the unit's, and holds a cycle.
fn check_plan(u: FunctionUnit, plan: Plan) -> Result<(), Refusal>
    ensures { result ≡ plan_answer u plan }
{
    unit::check_tag(u, Tag(plan.tag))?;
    if plan_record::holds_cycle(plan) {
        return Ok(());
    }
    Err(Refusal::BadRecord)
}

// Whether every one of so many units is played.
fn check_units(u: FunctionUnit, plan: Plan, units: u32) -> Result<(), Refusal>
    ensures { result ≡ units_answer u plan units }
{
    let mut position: u16 = 0;
    let mut bank = empty_bank();
    for _ in 0..units {
        let next = simulator::step(u, plan, position, bank);
        next.answer?;
        position = next.position;
        bank = next.bank;
    }
    Ok(())
}

// Whether there is a chart, for which so many bytes have room. The room is tried before the units are played, so that the time goes by it.
fn check_chart(u: FunctionUnit, plan: Plan, units: u32, room: usize) -> Result<(), Refusal>
    ensures { result ≡ chart_refusal u plan units room }
{
    check_plan(u, plan)?;
    if room < rows::length_of(u.segments, units) {
        return Err(Refusal::ShortOutput);
    }
    check_units(u, plan, units)
}

// The chart of a plan, played on a unit for so many time units.
pub fn chart(u: FunctionUnit, plan: Plan, units: u32, out: &mut [u8]) -> Result<usize, Refusal>
    ensures value { result ≡ chart_answer u plan units (length out.old) }
    ensures out_after { out.new ≡ chart_out u plan units out.old }
{
    check_chart(u, plan, units, out.len())?;
    Ok(rows::put_chart(out, u, plan, units))
}

// The chart of a function's own plan.
pub fn simulate(u: FunctionUnit, tag: Tag, units: u32, out: &mut [u8]) -> Result<usize, Refusal>
    ensures value { result ≡ simulate_answer u tag.0 units (length out.old) }
    ensures out_after { out.new ≡ simulate_out u tag.0 units out.old }
{
    let plan = function_plan::read_for(u, tag)?;
    chart(u, plan, units, out)
}
