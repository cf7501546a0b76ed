// The state diagram of a collision vector: its states listed in working words, with an index by which a state's place is found.
// Every function here is proved, and the crate assumes nothing of its own. No public function has a `requires`.
#![tactic(auto)]

ghost use Rattle.std.specs.Prelude.{◌≡◌, false, [], ◌∷◌, ◌++◌, ◌+◌, ◌-◌, ◌≤◌, ◌<◌, length, take, drop};
ghost use Rattle.words.specs.Bits.{is_set};
ghost use Rattle.diagram.specs.Diagram.{width, longest};
ghost use Rattle.diagram.specs.States.{add, expand, states};
ghost use Rattle.diagram.specs.Work.{state_in, bucket, place_in, Indexed, Enlisted};
ghost use Rattle.diagram.specs.Inner.{Cleared, Held, Grown, Ready, visited};

// n of a collision vector: its largest column with a 1, or 0.
pub fn width_of(vector: u32) -> u32
    ensures { result ≡ width vector }
{
    32 - u32::leading_zeros(vector)
}

// The bucket of a state: the highest 8 of the 32 low bits of a product, which depend on every bit of the state.
fn bucket_of(state: u32) -> usize
    ensures { result ≡ bucket state }
{
    ((state as u64) * 2654435769 / 16777216 % 256) as usize
}

// The place of a state among the first `count` of the working words, by way of their index; `count` where it is not listed.
pub fn place(work: &[u32], count: usize, state: u32) -> usize
    ensures { result ≡ place_in work.now count state }
{
    if work.len() < 768 {
        return count;
    }
    let first = bucket_of(state);
    let mut at = work[256 + first] as usize;
    if 256 < at {
        return count;
    }
    // A while: the next place is a link, not a count.
    while 0 < at {
        let last = at - 1;
        if work[last] == state {
            return last;
        }
        let link = work[512 + last] as usize;
        if at <= link {
            return count;
        }
        at = link;
    }
    count
}

// Makes every bucket empty.
fn clear(work: &mut [u32])
    requires { 768 ≤ length work.old }
    ensures { Cleared work.old work.new }
{
    work[256..512].fill(0);
}

// Lists one more state, as the last of its bucket.
fn insert(work: &mut [u32], count: usize, state: u32)
    requires { (count < 256) × Indexed work.old count }
    ensures { Grown work.old work.new (take count work.old ++ (state ∷ [])) (count + 1) }
{
    let slot = 256 + bucket_of(state);
    let head = work[slot];
    work[count] = state;
    work[512 + count] = head;
    work[slot] = (count + 1) as u32;
}

// Lists a state unless it is listed, and answers how many there are then. The 257th is counted, and not written.
fn include(work: &mut [u32], count: usize, state: u32) -> usize
    requires { Indexed work.old count }
    ensures { Grown work.old work.new (add state (take count work.old)) result }
{
    if place(work, count, state) < count {
        return count;
    }
    if 255 < count {
        return 257;
    }
    insert(work, count, state);
    count + 1
}

// Lists the state to which a latency leads that the state permits, and answers how many there are then.
fn visit(work: &mut [u32], count: usize, vector: u32, state: u32, latency: u32) -> usize
    requires { (latency < 64) × ((is_set state (latency - 1) ≡ false) × Indexed work.old count) }
    ensures { Grown work.old work.new (visited vector state latency (take count work.old)) result }
{
    include(work, count, words::shift(state, latency) | vector)
}

// Lists the states to which the arcs of one state lead, by rising latency, and answers how many there are then; it ends with the 257th.
// No state has a 1 beyond the vector's columns, so the latency after the last column passes the test of every other. Columns that are 1 are
// passed over in one step.
fn follow(work: &mut [u32], count: usize, vector: u32, columns: u32, at: usize) -> usize
    requires { Ready work.old count columns at }
    ensures { Grown work.old work.new (expand 1 columns vector (state_in work.old at) 1 (longest 1 columns) (take count work.old)) result }
{
    let state = work[at];
    let mut found = count;
    let mut latency = words::zero_from(state, 0) + 1;
    // A while: the next latency is found at the next column that is 0.
    while latency <= columns + 1 {
        found = visit(work, found, vector, state, latency);
        if 256 < found {
            return found;
        }
        latency = words::zero_from(state, latency) + 1;
    }
    found
}

// Lists all states from the first on, each in turn with its arcs, and answers how many there are; it ends with the 257th.
fn explore(work: &mut [u32], vector: u32) -> usize
    requires { Held work.old 1 (vector ∷ []) }
    ensures { Grown work.old work.new (states 256 1 (width vector) vector) result }
{
    let columns = width_of(vector);
    let mut count = 1;
    let mut at = 0;
    // A while: the list grows as it is walked.
    while at < count {
        count = follow(work, count, vector, columns, at);
        if 256 < count {
            return count;
        }
        at += 1;
    }
    count
}

// Lists the states of a vector's diagram in the first 256 words, with their index in the 512 after them, and answers how many there are:
// 0 for more than 256, or where the words are fewer than 768.
pub fn enlist(vector: u32, work: &mut [u32]) -> usize
    ensures { Enlisted 1 vector work.old work.new result }
{
    if work.len() < 768 {
        return 0;
    }
    clear(work);
    insert(work, 0, vector);
    let count = explore(work, vector);
    if 256 < count {
        return 0;
    }
    count
}
