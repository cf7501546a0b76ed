// The search on a listed diagram, in words of which the first 768 hold the listing (crate diagram) and stay as they are.
// Of node v the gain stands at 768 + v, the parent at 1024 + v (256: none), the label of the arc from the parent at 1280 + v;
// the latencies of the best cycle stand from 1536 on. The words from 1792 on are never changed. Where the graph has a table of arcs, it stands
// there: the node to which the latency t leads from v at 1792 + v * 32 + (t - 1). Then word v has no other sense than which latencies v permits.

ghost use Rattle.std.specs.Prelude.{◌≡◌, false, ◌+◌, ◌≤◌, ◌<◌, ◌^◌, length, set};
ghost use Rattle.words.specs.Bits.{zero_from};
ghost use Rattle.diagram.specs.Diagram.{Permits};
ghost use Rattle.diagram.specs.Work.{state_in};
ghost use Rattle.mean_cycle.specs.Nodes.{Arc, Least};
ghost use Rattle.mean_cycle.specs.Inner.{Listing, Tree, Ready, Ends, Climbed, Cleared, Traceable, Traced, Stepped, Visited, Swept, Rounded};

use crate::Cycle;
use crate::greedy::first_cycle;

// What is searched: nodes, numbered from 0, of which word v says in its columns which latencies v permits, up to one more than the width. Where
// they lead is told by a table of arcs, or else the words are the listed states of a collision vector.
#[derive(Clone, Copy)]
pub struct Graph {
    pub nodes: usize,
    pub width: u32,
    pub vector: u32,
    pub table: bool,
}

// What a part of a round left: whether a better cycle stands in the words (then best is that cycle), and how often a gain grew.
#[derive(Clone, Copy)]
pub struct Outcome {
    pub found: bool,
    pub moved: usize,
    pub best: Cycle,
}

// The first latency after t whose column of a state is 0.
pub fn next_latency(state: u32, t: usize) -> usize
    requires { t ≤ 64 }
    ensures { result ≡ zero_from state t + 1 }
{
    words::zero_from(state, t as u32) as usize + 1
}

// The node to which a latency t that node v permits leads.
pub fn target(work: &[u32], graph: Graph, v: usize, t: usize) -> usize
    requires listing { Listing work.now graph }
    requires v_lt_nodes { (v < graph.nodes) × Permits 1 graph.width (state_in work.now v) t }
    ensures { Arc work.now graph v t result }
{
    if graph.table {
        let at = 1791 + v * 32 + t;
        return work[at] as usize;
    }
    let next = words::shift(work[v], t as u32) | graph.vector;
    diagram::place(work, graph.nodes, next)
}

// All gains 0, all links none.
pub fn reset(work: &mut [u32], nodes: usize)
    requires { (nodes ≤ 256) × (2048 ≤ length work.old) }
    ensures { Cleared work.old work.new nodes }
{
    for y in 0..nodes {
        work[768 + y] = 0;
        work[1024 + y] = 256;
    }
}

// How many links lead from v up to x, or the number of nodes where x is not met.
fn climb(work: &[u32], nodes: usize, v: usize, x: usize) -> usize
    requires nodes_bound { (nodes ≤ 256) × ((2048 ≤ length work.now) × (v < nodes)) }
    requires ends { Ends work.now nodes v }
    ensures { Climbed work.now nodes v x result }
{
    let mut y = v;
    for k in 0..nodes {
        if y == x {
            return k;
        }
        let p = work[1024 + y] as usize;
        if nodes <= p {
            return nodes;
        }
        y = p;
    }
    nodes
}

// Writes the labels of the k links from v up, last first, and t after them; returns their sum.
fn trace(work: &mut [u32], v: usize, t: usize, k: usize) -> usize
    requires { Traceable work.old v t k }
    ensures { Traced work.old work.new v t k result }
{
    let mut sum = t;
    let mut y = v;
    for j in (0..k).rev() {
        let l = work[1280 + y] as usize;
        let p = work[1024 + y] as usize;
        work[1536 + j] = l as u32;
        sum += l;
        y = p;
    }
    work[1536 + k] = t as u32;
    sum
}

// Links x to v by t, with the gain g.
fn relink(work: &mut [u32], x: usize, v: usize, t: usize, g: usize)
    requires { (x < 256) × ((v < 256) × ((t ≤ 32) × ((g < 2 ^ 32) × (2048 ≤ length work.old)))) }
    ensures { work.new ≡ set (set (set work.old (768 + x) g) (1024 + x) v) (1280 + x) t }
{
    work[768 + x] = g as u32;
    work[1024 + x] = v as u32;
    work[1280 + x] = t as u32;
}

// Nothing found, nothing moved.
fn still(best: Cycle) -> Outcome
    ensures { (result.found ≡ false) × (result.moved ≡ 0) }
{
    Outcome {
        found: false,
        moved: 0,
        best,
    }
}

// One arc, from v by a latency t that it permits. Where it asks for a greater gain of its target x, x is linked to v; but where x is met
// going up from v, the links from x down to v and this arc are a better cycle.
fn step(work: &mut [u32], graph: Graph, best: Cycle, v: usize, t: usize) -> Outcome
    requires ready { Ready work.old graph best }
    requires tree { Tree work.old graph best }
    requires v_lt_nodes { (v < graph.nodes) × Permits 1 graph.width (state_in work.old v) t }
    ensures { Stepped work.old work.new graph best v t result.found result.moved result.best }
{
    let nodes = graph.nodes;
    let count = best.count;
    let sum = best.sum;
    let x = target(work, graph, v, t);
    let up = work[768 + v] as usize + sum;
    let cost = count * t;
    let down = work[768 + x] as usize + cost;
    if up <= down {
        return still(best);
    }
    let k = climb(work, nodes, v, x);
    if k < nodes {
        let s = trace(work, v, t, k);
        return Outcome {
            found: true,
            moved: 1,
            best: Cycle {
                count: k + 1,
                sum: s,
                start: x,
            },
        };
    }
    relink(work, x, v, t, up - cost);
    Outcome {
        found: false,
        moved: 1,
        best,
    }
}

// The arcs of one node by rising latency, up to the first better cycle. Columns that are 1 have no arc and are passed over in one step.
// Gains are at least 0: from the first latency on that costs as much as the node's gain can bring, no arc asks for a greater gain,
// whatever its target.
fn visit(work: &mut [u32], graph: Graph, best: Cycle, v: usize) -> Outcome
    requires ready { Ready work.old graph best }
    requires tree { Tree work.old graph best }
    requires v_lt_nodes { v < graph.nodes }
    ensures { Visited work.old work.new graph best v result.found result.moved result.best }
{
    let count = best.count;
    let sum = best.sum;
    let last = graph.width as usize + 1;
    let state = work[v];
    let mut t = next_latency(state, 0);
    let mut moved = 0;
    // A while: the next latency is found at the next column that is 0.
    while t <= last {
        let up = work[768 + v] as usize + sum;
        if up <= count * t {
            return Outcome {
                found: false,
                moved,
                best,
            };
        }
        let s = step(work, graph, best, v, t);
        let found = s.found;
        if found {
            return s;
        }
        moved = moved + s.moved;
        t = next_latency(state, t);
    }
    Outcome {
        found: false,
        moved,
        best,
    }
}

// Every node once, or up to the first better cycle.
fn sweep(work: &mut [u32], graph: Graph, best: Cycle) -> Outcome
    requires ready { Ready work.old graph best }
    requires tree { Tree work.old graph best }
    ensures { Swept work.old work.new graph best result.found result.moved result.best }
{
    let nodes = graph.nodes;
    let mut moved = 0;
    for v in 0..nodes {
        let s = visit(work, graph, best, v);
        let found = s.found;
        if found {
            return s;
        }
        moved = moved + s.moved;
    }
    Outcome {
        found: false,
        moved,
        best,
    }
}

// Sweeps over fresh gains until a better cycle is found or nothing changes.
fn round(work: &mut [u32], graph: Graph, best: Cycle) -> Outcome
    requires { Ready work.old graph best }
    ensures { Rounded work.old work.new graph best result.found result.best }
{
    reset(work, graph.nodes);
    // A loop: how many sweeps there are is not counted.
    loop {
        let s = sweep(work, graph, best);
        let found = s.found;
        let moved = s.moved;
        if found {
            return s;
        }
        if moved == 0 {
            return s;
        }
    }
}

// The least mean cycle of a listed diagram: rounds until none finds a better cycle. Then the gains bound every walk.
pub fn search_listed(work: &mut [u32], graph: Graph) -> Cycle
    requires { Listing work.old graph }
    ensures { Least work.old work.new graph result }
{
    let mut best = first_cycle(work, graph);
    // A loop: how many rounds there are is not counted.
    loop {
        let s = round(work, graph, best);
        let found = s.found;
        if !found {
            return best;
        }
        best = s.best;
    }
}
