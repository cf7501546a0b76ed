// The states of a loop listed, with the table of the arcs between them.

ghost use Rattle.std.specs.Prelude.{◌≡◌, ◌+◌, ◌*◌, ◌-◌, ◌≤◌, ◌<◌, length, set};
ghost use Rattle.loops.specs.Inner.{masked, Led, Turned, Listable, Followed, Explored};

use crate::store::{get, include, put};
use crate::{Rules, State};
use controller::Bank;

// Lists the state to which a latency leads, where the word of the state grants it, and answers its place; 0 where it does not.
fn lead(work: &mut [u32], count: usize, rules: &Rules, s: State, word: u32, latency: u32) -> usize
    requires position_bound { (s.position < 8) × ((1 ≤ latency) × (latency ≤ 32)) }
    requires le_count { (1 ≤ count) × ((count ≤ 256) × (11264 ≤ length work.old)) }
    ensures { Led work.old work.new rules.now count s word latency result }
{
    if rules.width + 1 < latency {
        return 0;
    }
    if words::test(word, latency - 1) {
        return 0;
    }
    let next = rules.advance(s, latency);
    include(work, count, next)
}

// Writes where a latency leads from a state into the table.
fn note(work: &mut [u32], at: usize, latency: u32, x: usize)
    requires { (at < 256) × ((1 ≤ latency) × ((latency ≤ 32) × ((x < 256) × (11264 ≤ length work.old)))) }
    ensures { work.new ≡ set work.old (1791 + at * 32 + latency) x }
{
    let slot = 1791 + at * 32 + latency as usize;
    work[slot] = x as u32;
}

// One latency of the state at a place: lists where it leads, notes it, and answers how many states there are then. The 257th is counted, and not written.
fn turn(
    work: &mut [u32],
    count: usize,
    rules: &Rules,
    s: State,
    word: u32,
    at: usize,
    latency: u32,
) -> usize
    requires position_bound { (s.position < 8) × ((1 ≤ latency) × (latency ≤ 32)) }
    requires at_lt_count { (at < count) × ((count ≤ 256) × (11264 ≤ length work.old)) }
    requires word_value { word ≡ masked rules.now s }
    ensures { Turned work.old work.new rules.now count s at latency result }
{
    let x = lead(work, count, rules, s, word, latency);
    if x < count {
        note(work, at, latency, x);
        return count;
    }
    if 255 < count {
        return 257;
    }
    note(work, at, latency, x);
    count + 1
}

// All latencies of the state at a place. Its word says afterwards which it grants.
fn follow(work: &mut [u32], count: usize, rules: &Rules, at: usize) -> usize
    requires listable { Listable work.old count at }
    ensures { Followed work.old work.new rules.now count at result }
{
    let s = get(work, at);
    let word = rules.mask(s);
    work[at] = word;
    let mut found = count;
    for latency in 1..=32 {
        found = turn(work, found, rules, s, word, at, latency);
        if 256 < found {
            return found;
        }
    }
    found
}

// Lists all states from the first on, with the table of arcs, and answers how many there are; it ends with the 257th.
pub fn explore(work: &mut [u32], rules: &Rules) -> usize
    requires in_bounds { 11264 ≤ length work.old }
    ensures { Explored work.old work.new rules.now result }
{
    let bank = Bank {
        r1: 0,
        r2: 0,
        r3: 0,
        r4: 0,
    };
    let first = rules.started(0, 0, bank);
    put(work, 0, first);
    let mut count = 1;
    let mut at = 0;
    // A while: the list grows as it is walked.
    while at < count {
        count = follow(work, count, rules, at);
        if 256 < count {
            return count;
        }
        at += 1;
    }
    count
}
