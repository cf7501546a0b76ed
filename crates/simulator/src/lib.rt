// The simulator: plays a plan's ring beside a bank, a time unit at each step. It stands on the library's contracts and laws alone.
// Every public function here is proved, total and without a `requires`; the crate assumes nothing of its own.
#![tactic(auto)]

ghost use Rattle.std.specs.Prelude.{◌≡◌, ◌<◌};
ghost use Rattle.collision.specs.Pipeline.{total};
ghost use Rattle.plan_record.specs.Record.{Recordable, starts};
ghost use Rattle.simulator.specs.Step.{event_of, position_after, stopped, play_of};
ghost use Rattle.simulator.specs.Inner.{is_start, OnRing, Playable, ring_answer};
ghost use Rattle.unit.specs.Calls.{and_then};

use controller::{Bank, Event};
use unit::{FunctionUnit, Plan, Refusal, Tag};

// What a step answers: whether a task has started, and the position and the bank for the next step.
#[derive(Clone, Copy)]
pub struct UnitPlayed {
    pub answer: Result<(), Refusal>,
    pub started: bool,
    pub position: u16,
    pub bank: Bank,
}

// Whether a start of the cycle falls on a position: 0, or a sum of its first several latencies.
fn starts_at(list: &[u8], position: usize) -> bool
    requires { Recordable list.now × (position < total list.now) }
    ensures { result ≡ starts list.now position }
{
    let mut next: usize = 0;
    for latency in list {
        if position <= next {
            break;
        }
        next += *latency as usize;
    }
    next == position
}

// The event of a position: a start of the plan's tag where the ring's bit is 0, else a tick.
fn event_at(plan: Plan, position: u16) -> Event
    requires { OnRing plan position }
    ensures { result ≡ event_of plan position }
{
    let count = plan.count as usize;
    let latencies = plan.latencies;
    if starts_at(&latencies[..count], position as usize) {
        return Event::Start(Tag(plan.tag));
    }
    Event::Tick
}

fn is_start(event: Event) -> bool
    ensures { result ≡ is_start event }
{
    match event {
        Event::Tick => false,
        Event::Start(_) => true,
    }
}

// The position after one of the ring.
fn position_after(plan: Plan, position: u16) -> u16
    requires { OnRing plan position }
    ensures { result ≡ position_after plan position }
{
    if position + 1 == plan.sum {
        return 0;
    }
    position + 1
}

// No step, and why.
fn refused(why: Refusal, position: u16, bank: Bank) -> UnitPlayed
    ensures { result ≡ stopped why position bank }
{
    UnitPlayed {
        answer: Err(why),
        started: false,
        position,
        bank,
    }
}

// A step on the ring.
fn play(u: FunctionUnit, plan: Plan, position: u16, bank: Bank) -> UnitPlayed
    requires { Playable u plan position }
    ensures { result ≡ play_of u plan position bank }
{
    let event = event_at(plan, position);
    let after = controller::step(u, bank, event);
    let answer = after.answer;
    match answer {
        Err(why) => refused(why, position, bank),
        Ok(()) => {
            let started = is_start(event);
            let next = position_after(plan, position);
            let moved = after.bank;
            UnitPlayed {
                answer: Ok(()),
                started,
                position: next,
                bank: moved,
            }
        }
    }
}

// Whether the plan has a ring, and the position is one of it.
fn check_ring(plan: Plan, position: u16) -> Result<(), Refusal>
    ensures { result ≡ ring_answer plan position }
{
    if !plan_record::holds_cycle(plan) {
        return Err(Refusal::BadRecord);
    }
    if plan.sum <= position {
        return Err(Refusal::BadRecord);
    }
    Ok(())
}

// The first of two answers, or the second where the first refuses nothing.
fn and_then(first: Result<(), Refusal>, second: Result<(), Refusal>) -> Result<(), Refusal>
    ensures { result ≡ and_then first second }
{
    first?;
    second
}

// One time unit of a plan: a start of its tag where its ring has a 0, else a tick. A refused step leaves position and bank.
pub fn step(u: FunctionUnit, plan: Plan, position: u16, bank: Bank) -> UnitPlayed
    ensures { result ≡ play_of u plan position bank }
{
    let known = unit::check_tag(u, Tag(plan.tag));
    let ring = check_ring(plan, position);
    let ready = and_then(known, ring);
    match ready {
        Err(why) => refused(why, position, bank),
        Ok(()) => play(u, plan, position, bank),
    }
}
