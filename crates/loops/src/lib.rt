// Loops over several functions: the latencies of least average at which a list of tags can be issued, in that order, without end.
// Every function here is proved, and the crate assumes nothing of its own. No public function has a `requires`.
#![tactic(auto)]

ghost use Rattle.std.specs.Prelude.{◌≡◌, ◌++◌, ◌-◌, ◌<◌, length, replicate};
ghost use Rattle.unit.specs.Unit.{inside};
ghost use Rattle.graphs.specs.Rotation.{rotate};
ghost use Rattle.planner.specs.Plans.{plan_of};
ghost use Rattle.loops.specs.Answers.{LoopPromise};
ghost use Rattle.loops.specs.Inner.{cycle_in, Standing, Turnable, turn_of, Checked, Sought};

mod listing;
mod ruling;
mod steps;
mod store;

use controller::Bank;
use listing::explore;
use mean_cycle::Cycle;
use ruling::{known_tags, rules_of};
pub use steps::Rules;
use unit::{FunctionUnit, Plan, Refusal};

// A state of a loop: a position in its list of tags, with the bank just after the start of that tag.
#[derive(Clone, Copy)]
pub struct State {
    pub position: u32,
    pub bank: Bank,
}

// The latencies that stand in the working words from 1536 on, from one of them on, going round, as bytes; the rest are 0.
fn turned(work: &[u32], count: usize, first: usize) -> [u8; 256]
    requires standing { Standing work.now count }
    requires first_lt_count { first < count }
    ensures { result ≡ rotate (cycle_in work.now count) first ++ replicate (256 - count) 0 }
{
    let mut bytes = [0u8; 256];
    for i in 0..count {
        bytes[i] = work[1536 + i] as u8;
    }
    bytes[..count].rotate_left(first);
    bytes
}

// The latencies of a cycle that stands in the working words, turned so that they begin at position 0, as a plan holds them; its tag is 0.
fn plan_of(work: &[u32], length: usize, cycle: Cycle) -> Plan
    requires { Turnable work.now length cycle }
    ensures { result ≡ plan_of 0 (rotate (cycle_in work.now cycle.count) (turn_of work.now length cycle)) }
{
    let count = cycle.count;
    let start = cycle.start;
    let position = work[9984 + start] as usize;
    let first = (length - position) % length;
    let latencies = turned(work, count, first);
    Plan {
        tag: 0,
        count: count as u16,
        sum: cycle.sum as u16,
        latencies,
    }
}

// The search, on a unit and a list that are in order.
fn seek(u: FunctionUnit, tags: &[u8], work: &mut [u32]) -> Result<Plan, Refusal>
    requires { Checked u tags.now work.old }
    ensures { Sought u tags.now work.old work.new result }
{
    let rules = rules_of(u, tags);
    let count = explore(work, &rules);
    if 256 < count {
        return Err(Refusal::TooManyStates);
    }
    let width = rules.width;
    let least = mean_cycle::least_table_cycle(count, width, work);
    let Some(cycle) = least else {
        return Err(Refusal::TooManyStates);
    };
    Ok(plan_of(work, tags.len(), cycle))
}

// Whether a list of so many tags is neither empty nor too long.
fn is_loop(count: usize) -> bool
    ensures { result ≡ inside count 8 }
{
    if 1 <= count {
        if count <= 8 {
            return true;
        }
    }
    false
}

// The latencies of least average at which the tags can be issued, in that order, without end, or why there are none.
pub fn search(u: FunctionUnit, tags: &[u8], work: &mut [u32]) -> Result<Plan, Refusal>
    ensures { LoopPromise u tags.now work.old work.new result }
{
    if !unit::sound(u) {
        return Err(Refusal::NotSound);
    }
    if !is_loop(tags.len()) {
        return Err(Refusal::BadLoop);
    }
    if !known_tags(u, tags) {
        return Err(Refusal::NoSuchTag);
    }
    if work.len() < 16000 {
        return Err(Refusal::ShortWork);
    }
    seek(u, tags, work)
}
