// Whether words hold a graph with a table of arcs.

ghost use Rattle.std.specs.Prelude.{◌*◌, ◌+◌, ◌≤◌, ◌<◌, length};
ghost use Rattle.mean_cycle.specs.Table.{NarrowWords, TargetsInside};
ghost use Rattle.mean_cycle.specs.Inner.{Says};

// Whether no node's word has a column beyond the width.
pub fn narrow_words(work: &[u32], nodes: usize, width: u32) -> bool
    requires { (nodes ≤ 256) × (2048 ≤ length work.now) }
    ensures { Says result (NarrowWords work.now nodes width) }
{
    work[..nodes]
        .iter()
        .all(|word| diagram::width_of(*word) <= width)
}

// Whether every word of the table is a node.
pub fn targets_inside(work: &[u32], nodes: usize) -> bool
    requires { (nodes ≤ 256) × (9984 ≤ length work.now) }
    ensures { Says result (TargetsInside work.now nodes) }
{
    let end = 1792 + nodes * 32;
    work[1792..end].iter().all(|x| (*x as usize) < nodes)
}
