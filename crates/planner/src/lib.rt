// Search and read: the plan of a function's best cycle. Every function here is proved, and no public function has a `requires`.
// The claim over every list of mark, unmark, search and read calls is `EveryList` (specs/Sheet.antt), proved in proofs/EveryList.antt.
#![tactic(auto)]

ghost use Rattle.std.specs.Prelude.{◌≡◌, ◌++◌, ◌-◌, ◌≤◌, ◌<◌, length, take, replicate};
ghost use Rattle.graphs.specs.Rotation.{rotate};
ghost use Rattle.planner.specs.Plans.{plan_of, SearchPromise, read_of};
ghost use Rattle.planner.specs.Inner.{found, in_first_rotation, Small, Standing, Sought};

use mean_cycle::Cycle;
use unit::{FunctionUnit, Outcome, Plan, Refusal, Tag};

// The latencies that stand in the working words from 1536 on, as bytes; the rest are 0.
fn bytes_of(work: &[u32], count: usize) -> [u8; 256]
    requires { Small work.now count }
    ensures { result ≡ found work.now count ++ replicate (256 - count) 0 }
{
    let mut bytes = [0u8; 256];
    for i in 0..count {
        bytes[i] = work[1536 + i] as u8;
    }
    bytes
}

// The first `count` bytes from the place `first` on, going round; the rest are 0.
fn rotated(bytes: [u8; 256], count: usize, first: usize) -> [u8; 256]
    requires { (1 ≤ count) × (count ≤ 256) × (first < count) }
    ensures { result ≡ rotate (take count bytes) first ++ replicate (256 - count) 0 }
{
    let mut turned = [0u8; 256];
    turned[..count - first].copy_from_slice(&bytes[first..count]);
    turned[count - first..count].copy_from_slice(&bytes[..first]);
    turned
}

// The plan of a cycle that stands in the working words, in the rotation that comes first.
fn plan_of(tag: Tag, cycle: Cycle, work: &[u32]) -> Plan
    requires { Standing work.now cycle }
    ensures { result ≡ plan_of tag.0 (in_first_rotation (found work.now cycle.count)) }
{
    let count = cycle.count;
    let bytes = bytes_of(work, count);
    let first = cycles::first_rotation(&bytes[..count]);
    let latencies = rotated(bytes, count, first);
    Plan {
        tag: tag.0,
        count: count as u16,
        sum: cycle.sum as u16,
        latencies,
    }
}

// The plan of a function's best cycle, or why there is none.
fn find(u: FunctionUnit, tag: Tag, work: &mut [u32]) -> Result<Plan, Refusal>
    ensures { Sought u tag.0 work.old work.new result }
{
    let word = collision::vector(u, tag)?;
    if work.len() < 16000 {
        return Err(Refusal::ShortWork);
    }
    let Some(cycle) = mean_cycle::least_mean_cycle(word, work) else {
        return Err(Refusal::TooManyStates);
    };
    Ok(plan_of(tag, cycle, work))
}

// Finds a function's best cycle and stores its plan in place of an older one; a refused search leaves the unit.
pub fn search(u: FunctionUnit, tag: Tag, work: &mut [u32]) -> Outcome
    ensures { SearchPromise u tag.0 work.old work.new result.answer result.unit }
{
    match find(u, tag, work) {
        Err(why) => Outcome {
            answer: Err(why),
            unit: u,
        },
        Ok(plan) => {
            let marks = u.marks;
            Outcome {
                answer: Ok(()),
                unit: FunctionUnit {
                    functions: u.functions,
                    segments: u.segments,
                    columns: u.columns,
                    marks,
                    plan,
                },
            }
        }
    }
}

// Hands out the plan by value, or says why there is none.
pub fn read(u: FunctionUnit) -> Result<Plan, Refusal>
    ensures { result ≡ read_of u }
{
    if !unit::sound(u) {
        return Err(Refusal::NotSound);
    }
    if u.plan.tag == 0 {
        return Err(Refusal::NoPlan);
    }
    Ok(u.plan)
}
