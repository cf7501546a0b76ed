// Cycles of the state diagram: the greedy cycle of a function, and the rotation of a cycle that comes first.
// Every function here is proved, and the crate assumes nothing of its own. No public function has a `requires`.
#![tactic(auto)]

ghost use Rattle.std.specs.Prelude.{◌≡◌, ◌++◌, ◌≤◌, ◌<◌, length, drop};
ghost use Rattle.collision.specs.Pipeline.{total};
ghost use Rattle.cycles.specs.Greedy.{least_latency, greedy_refusal, greedy_answer, greedy_out, WorkAfter};
ghost use Rattle.graphs.specs.Rotation.{rotate};
ghost use Rattle.cycles.specs.Rotation.{comes_first, first_rotation};
ghost use Rattle.cycles.specs.Inner.{noted_in, Unmarked, Ready, Stepped, Walkable, Walked, Copyable};

use unit::{FunctionUnit, Refusal, Tag};

// How many latencies a cycle has, and their sum.
#[derive(Clone, Copy)]
pub struct Counted {
    pub count: u32,
    pub sum: u32,
}

// Where the latencies of a cycle stand in the working words.
#[derive(Clone, Copy)]
struct Noted {
    from: usize,
    count: usize,
}

// Makes every mark 0.
fn clear_marks(work: &mut [u32])
    requires { 2048 ≤ length work.old }
    ensures { Unmarked work.old work.new }
{
    work[768..1024].fill(0);
}

// The least latency that a state permits. Every state permits the one after the last column.
fn least_latency(state: u32, columns: u32) -> u32
    requires { columns ≤ 32 }
    ensures { result ≡ least_latency 1 columns state }
{
    for latency in 1..=columns {
        if !words::test(state, latency - 1) {
            return latency;
        }
    }
    columns + 1
}

// One step of the walk, from the state at a place: marks the state, notes its least latency, and answers the place to which that leads.
fn take_step(
    work: &mut [u32],
    vector: u32,
    columns: u32,
    states: usize,
    at: usize,
    step: usize,
) -> usize
    requires { Ready work.old columns at step }
    ensures { Stepped work.old work.new vector columns states at step result }
{
    let state = work[at];
    let latency = least_latency(state, columns);
    let next = diagram::place(work, states, words::shift(state, latency) | vector);
    work[768 + at] = (step + 1) as u32;
    work[1024 + step] = latency;
    next
}

// Walks from the first state by least latencies until a state occurs again, and answers where the latencies from that state on are noted.
fn walk(work: &mut [u32], vector: u32, states: usize) -> Noted
    requires { Walkable work.old vector states }
    ensures { Walked work.old work.new vector result }
{
    clear_marks(work);
    let columns = diagram::width_of(vector);
    let mut at = 0;
    let mut step = 0;
    // A while: the walk ends at the first state that has a mark.
    while work[768 + at] == 0 {
        at = take_step(work, vector, columns, states, at, step);
        step += 1;
    }
    let first = work[768 + at] as usize - 1;
    let from = 1024 + first;
    let count = step - first;
    Noted { from, count }
}

// Copies latencies to the front of the bytes, and answers their sum.
fn copy_latencies(work: &[u32], from: usize, count: usize, out: &mut [u8]) -> u32
    requires { Copyable work.now from count (length out.old) }
    ensures { (result ≡ total (noted_in work.now from count)) × (out.new ≡ noted_in work.now from count ++ drop count out.old) }
{
    let mut sum = 0;
    for i in 0..count {
        let latency = work[from + i];
        out[i] = latency as u8;
        sum += latency;
    }
    sum
}

// The greedy cycle of a function: from the first state always by the least latency. The cycle starts at the first state of that walk that
// occurs again, and is written to the front of the lent bytes. It works over the listed diagram, in the first 2,048 working words.
pub fn greedy(
    u: FunctionUnit,
    tag: Tag,
    work: &mut [u32],
    out: &mut [u8],
) -> Result<Counted, Refusal>
    ensures { (result ≡ greedy_answer u tag.0 (length work.old) (length out.old))
        × (out.new ≡ greedy_out u tag.0 (length work.old) out.old)
        × WorkAfter (greedy_refusal u tag.0 (length work.old) (length out.old)) work.old work.new }
{
    let word = collision::vector(u, tag)?;
    if work.len() < 16000 {
        return Err(Refusal::ShortWork);
    }
    if out.len() < 256 {
        return Err(Refusal::ShortOutput);
    }
    let states = diagram::enlist(word, work);
    if states == 0 {
        return Err(Refusal::TooManyStates);
    }
    let cycle = walk(work, word, states);
    let from = cycle.from;
    let count = cycle.count;
    let sum = copy_latencies(work, from, count, out);
    let latencies = count as u32;
    Ok(Counted {
        count: latencies,
        sum,
    })
}

// Whether one rotation of a cycle comes before another, or is the same list of numbers.
fn comes_first(cycle: &[u8], one: usize, other: usize) -> bool
    requires { (one < length cycle.now) × (other < length cycle.now) }
    ensures { result ≡ comes_first (rotate cycle.now one) (rotate cycle.now other) }
{
    for i in 0..cycle.len() {
        let a = cycle[(one + i) % cycle.len()];
        let b = cycle[(other + i) % cycle.len()];
        if a < b {
            return true;
        }
        if b < a {
            return false;
        }
    }
    true
}

// The rotation of a cycle that comes first when read as a list of numbers: by how many latencies the cycle is rotated. Of rotations that are
// the same list it is the least.
pub fn first_rotation(cycle: &[u8]) -> usize
    ensures { result ≡ first_rotation cycle.now }
{
    let mut first = 0;
    for rotation in 1..cycle.len() {
        if !comes_first(cycle, first, rotation) {
            first = rotation;
        }
    }
    first
}
