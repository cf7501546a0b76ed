// The judge of a cycle, and the better of two cycles. Every function here is proved, and every public one is total and without a
// `requires`; the crate assumes nothing of its own.
#![tactic(auto)]

ghost use Rattle.std.specs.Prelude.{◌≡◌, true, ◌*◌, ◌≤◌, ◌<◌, length, take};
ghost use Rattle.collision.specs.Pipeline.{total};
ghost use Rattle.judge.specs.Judge.{good_cycle, counted, better_of, judge_answer};
ghost use Rattle.judge.specs.Inner.{start_meets, turn_meets};

use unit::{FunctionUnit, Refusal, Tag};

// Whether the first `count` bytes of a list are a cycle: 1 to 256 of them, all within the list, none of them 0.
fn is_cycle(list: &[u8], count: usize) -> bool
    ensures { result ≡ counted list.now count }
{
    if list.len() < count {
        return false;
    }
    if count < 1 {
        return false;
    }
    if 256 < count {
        return false;
    }
    !list[..count].contains(&0)
}

// The sum of the first `count` bytes of a list, which are a cycle.
fn sum_of(list: &[u8], count: usize) -> usize
    requires { counted list.now count ≡ true }
    ensures { (result ≡ total (take count list.now)) × (result ≤ 255 * count) × (count ≤ 256) }
{
    let mut sum: usize = 0;
    for latency in &list[..count] {
        sum += *latency as usize;
    }
    sum
}

// The leading part of one of two lists, as long as its count: the cycle of lower average, the first when they are equal. Where
// either is no cycle it is the empty part of the first. Averages are compared by products, so that nothing is rounded.
pub fn better_of_two<'a>(
    first: &'a [u8],
    first_count: usize,
    second: &'a [u8],
    second_count: usize,
) -> &'a [u8]
    ensures { result.now ≡ better_of first.now first_count second.now second_count }
{
    if !is_cycle(first, first_count) {
        return &first[..0];
    }
    if !is_cycle(second, second_count) {
        return &first[..0];
    }
    let first_sum = sum_of(first, first_count);
    let second_sum = sum_of(second, second_count);
    if second_sum * first_count < first_sum * second_count {
        return &second[..second_count];
    }
    &first[..first_count]
}

// Whether a word has a 1 for the interval from a start of a cycle to one of the 32 starts after it. Intervals grow from start to
// start, and a word has no bit for one above 32.
fn start_meets(vector: u32, cycle: &[u8], start: usize) -> bool
    requires { (good_cycle cycle.now ≡ true) × (start < length cycle.now) }
    ensures { result ≡ start_meets vector cycle.now start }
{
    let mut interval: u32 = 0;
    for step in 0..32 {
        interval += cycle[(start + step) % cycle.len()] as u32;
        if 32 < interval {
            return false;
        }
        if words::test(vector, interval - 1) {
            return true;
        }
    }
    false
}

// The same for some start of the first turn. The starts of later turns lie at the same intervals from one another.
fn turn_meets(vector: u32, cycle: &[u8]) -> bool
    requires { good_cycle cycle.now ≡ true }
    ensures { result ≡ turn_meets vector cycle.now }
{
    for start in 0..cycle.len() {
        if start_meets(vector, cycle, start) {
            return true;
        }
    }
    false
}

// Whether a cycle, repeated without end, never collides: the intervals between its starts, those that span several turns too,
// are tested against the collision vector.
pub fn judge(u: FunctionUnit, tag: Tag, cycle: &[u8]) -> Result<bool, Refusal>
    ensures { result ≡ judge_answer u tag.0 cycle.now }
{
    let word = collision::vector(u, tag)?;
    if !is_cycle(cycle, cycle.len()) {
        return Err(Refusal::BadCycle);
    }
    Ok(!turn_meets(word, cycle))
}
