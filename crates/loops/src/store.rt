// The states of a loop in the working words: of state i the position at 9984 + i, the registers at 10240 + i, 10496 + i, 10752 + i and 11008 + i.

ghost use Rattle.std.specs.Prelude.{◌≡◌, ◌+◌, ◌≤◌, ◌<◌, length};
ghost use Rattle.loops.specs.Steps.{same_state};
ghost use Rattle.loops.specs.Inner.{state_of, put_state, Placed, Included};

use crate::State;
use controller::Bank;

// Whether two states are the same.
pub fn same(a: State, b: State) -> bool
    ensures { result ≡ same_state a b }
{
    let x = a.bank;
    let y = b.bank;
    if a.position != b.position {
        return false;
    }
    if x.r1 != y.r1 {
        return false;
    }
    if x.r2 != y.r2 {
        return false;
    }
    if x.r3 != y.r3 {
        return false;
    }
    if x.r4 != y.r4 {
        return false;
    }
    true
}

// State i.
pub fn get(work: &[u32], i: usize) -> State
    requires { (i < 256) × (11264 ≤ length work.now) }
    ensures { result ≡ state_of work.now i }
{
    let bank = Bank {
        r1: work[10240 + i],
        r2: work[10496 + i],
        r3: work[10752 + i],
        r4: work[11008 + i],
    };
    State {
        position: work[9984 + i],
        bank,
    }
}

// Makes it state i.
pub fn put(work: &mut [u32], i: usize, s: State)
    requires { (i < 256) × (11264 ≤ length work.old) }
    ensures { work.new ≡ put_state work.old i s }
{
    let bank = s.bank;
    work[9984 + i] = s.position;
    work[10240 + i] = bank.r1;
    work[10496 + i] = bank.r2;
    work[10752 + i] = bank.r3;
    work[11008 + i] = bank.r4;
}

// The place of a state among the first `count`, or `count` where it is not listed.
fn find(work: &[u32], count: usize, s: State) -> usize
    requires { (count ≤ 256) × (11264 ≤ length work.now) }
    ensures { Placed work.now count s result }
{
    for i in 0..count {
        let t = get(work, i);
        if same(t, s) {
            return i;
        }
    }
    count
}

// Lists a state unless it is listed, and answers its place. The 257th is not written.
pub fn include(work: &mut [u32], count: usize, s: State) -> usize
    requires { (count ≤ 256) × (11264 ≤ length work.old) }
    ensures { Included work.old work.new count s result }
{
    let at = find(work, count, s);
    if at < count {
        return at;
    }
    if count < 256 {
        put(work, count, s);
    }
    count
}
