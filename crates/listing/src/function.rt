// The lines of one function.
ghost use Rattle.std.specs.Prelude.{◌≡◌, ◌++◌, ◌+◌, ◌≤◌, length};
ghost use Rattle.unit.specs.Unit.{marked};
ghost use Rattle.collision.specs.Vector.{constant_of};
ghost use Rattle.cycles.specs.Greedy.{greedy_of};
ghost use Rattle.listing.specs.Lines.{number_line, cycle_line, vector_line, bound_line, state_lines, function_text};
ghost use Rattle.text.specs.Wrote.{Put};
ghost use Rattle.listing.specs.Inner.{value_of, Function, Small, Told};

use unit::{FunctionUnit, Refusal, Tag};

// The value of a call that a tag of a sound unit is answered.
fn value_of(asked: Result<u32, Refusal>) -> u32
    ensures { result ≡ value_of asked }
{
    let Ok(value) = asked else {
        return 0;
    };
    value
}

fn put_vector_line(out: &mut [u8], at: usize, u: FunctionUnit, tag: Tag) -> usize
    requires { Function u tag.0 × (at + 40 ≤ length out.old) }
    ensures { Put 40 out.old at (vector_line (marked u) tag.0) out.new result }
{
    let vector = value_of(collision::vector(u, tag));
    let after_word = text::put(out, at, b"vector ");
    let after_vector = crate::lines::put_vector(out, after_word, vector);
    text::put(out, after_vector, b"\n")
}

fn put_bound_line(out: &mut [u8], at: usize, u: FunctionUnit, tag: Tag) -> usize
    requires { Function u tag.0 × (at + 34 ≤ length out.old) }
    ensures { Put 34 out.old at (bound_line (marked u) tag.0) out.new result }
{
    let bound = value_of(measures::bound(u, tag));
    let upper = value_of(measures::upper(u, tag));
    let after_word = text::put(out, at, b"bound ");
    let after_bound = text::put_number(out, after_word, bound);
    crate::lines::put_line(out, after_bound, b" upper ", upper)
}

fn put_constant_line(out: &mut [u8], at: usize, u: FunctionUnit, tag: Tag) -> usize
    requires { Function u tag.0 × (at + 20 ≤ length out.old) }
    ensures { Put 20 out.old at (number_line "constant " (constant_of (marked u) tag.0)) out.new result }
{
    let constant = value_of(measures::constant(u, tag));
    crate::lines::put_line(out, at, b"constant ", constant)
}

fn put_greedy(out: &mut [u8], at: usize, u: FunctionUnit, tag: Tag) -> usize
    requires { Small u tag.0 × (at + 1046 ≤ length out.old) }
    ensures { Put 1046 out.old at (cycle_line "greedy" (greedy_of 1 (marked u) tag.0)) out.new result }
{
    let mut work = [0u32; 16000];
    let mut cycle = [0u8; 256];
    let found = cycles::greedy(u, tag, &mut work, &mut cycle);
    let Ok(counted) = found else {
        return at;
    };
    let count = counted.count as usize;
    crate::lines::put_cycle(out, at, b"greedy", &cycle[..count], counted.sum)
}

fn put_best(out: &mut [u8], at: usize, u: FunctionUnit, tag: Tag) -> usize
    requires { Small u tag.0 × (at + 1044 ≤ length out.old) }
    ensures { Told 1044 (cycle_line "best") u tag.0 out.old at out.new result }
{
    let mut work = [0u32; 16000];
    let found = planner::search(u, tag, &mut work);
    let unit = found.unit;
    let plan = unit.plan;
    let latencies = plan.latencies;
    let count = plan.count as usize;
    crate::lines::put_cycle(out, at, b"best", &latencies[..count], plan.sum as u32)
}

// The lines about the states, or that there are too many.
fn put_states(out: &mut [u8], at: usize, u: FunctionUnit, tag: Tag) -> usize
    requires { Function u tag.0 × (at + 2108 ≤ length out.old) }
    ensures { Told 2108 (state_lines (marked u) tag.0) u tag.0 out.old at out.new result }
{
    let mut list = [0u32; 256];
    let counted = state_list::states(u, tag, &mut list);
    let Ok(count) = counted else {
        return text::put(out, at, b"refused 7\n");
    };
    let after_states = crate::lines::put_line(out, at, b"states ", count);
    let after_greedy = put_greedy(out, after_states, u, tag);
    put_best(out, after_greedy, u, tag)
}

// All the lines of a function.
pub fn put_function(out: &mut [u8], at: usize, u: FunctionUnit, tag: Tag) -> usize
    requires { Function u tag.0 × (at + 2222 ≤ length out.old) }
    ensures { Told 2222 (function_text (marked u) tag.0) u tag.0 out.old at out.new result }
{
    let after_tag = crate::lines::put_line(out, at, b"function ", tag.0 as u32);
    let after_vector = put_vector_line(out, after_tag, u, tag);
    let after_bound = put_bound_line(out, after_vector, u, tag);
    let after_states = put_states(out, after_bound, u, tag);
    put_constant_line(out, after_states, u, tag)
}
