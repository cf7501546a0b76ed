// The rules of a loop, from the unit and its list of tags.

ghost use Rattle.std.specs.Prelude.{◌≡◌, ◌+◌, ◌≤◌, max, length};
ghost use Rattle.words.specs.Below.{max_below, span_below};
ghost use Rattle.unit.specs.Unit.{marked};
ghost use Rattle.collision.specs.Vector.{collides, largest_column};
ghost use Rattle.loops.specs.Answers.{all_tags};
ghost use Rattle.loops.specs.Inner.{RowsOf, TagsOf, RulesOf};

use crate::Rules;
use unit::{FunctionUnit, Tag};

fn larger(a: u32, b: u32) -> u32
    ensures { result ≡ max a b }
{
    if a < b {
        return b;
    }
    a
}

// The largest column with a 1 in row q of the matrix M_r, or 0.
fn span(u: FunctionUnit, q: u8, r: u8) -> u32
    ensures { result ≡ span_below 32 (λ k. collides (marked u) q r (k + 1)) }
{
    let later = columns::columns_of(u, Tag(q));
    let earlier = columns::columns_of(u, Tag(r));
    let row = collision::row_of(later, earlier);
    diagram::width_of(row)
}

// The largest column with a 1 in row q of any matrix, or 0.
fn span_of(u: FunctionUnit, q: u8) -> u32
    ensures { result ≡ max_below 5 (λ r. span_below 32 (λ k. collides (marked u) q r (k + 1))) }
{
    let mut best = 0;
    for r in 0..5 {
        let one = span(u, q, r);
        best = larger(one, best);
    }
    best
}

// n: the largest column with a 1 in any matrix, or 0.
fn widest(u: FunctionUnit) -> u32
    ensures { result ≡ largest_column (marked u) }
{
    let mut best = 0;
    for q in 0..5 {
        let one = span_of(u, q);
        best = larger(one, best);
    }
    best
}

// Whether every tag of a list is one of the unit's.
pub fn known_tags(u: FunctionUnit, tags: &[u8]) -> bool
    ensures { result ≡ all_tags u tags.now }
{
    tags.iter().all(|tag| 0 < *tag && *tag <= u.functions)
}

// For each position the rows that its tag brings into the four registers.
fn rows_of(u: FunctionUnit, tags: &[u8]) -> [u32; 32]
    requires { length tags.now ≤ 8 }
    ensures { RowsOf u tags.now result }
{
    let end = tags.len() * 4;
    let mut rows = [0u32; 32];
    for a in 0..end {
        let q = tags[a / 4];
        let r = (a % 4 + 1) as u8;
        rows[a] = controller::row_for(u, Tag(q), Tag(r));
    }
    rows
}

// The tags, with zeros after them.
fn tags_of(tags: &[u8]) -> [u8; 8]
    requires { length tags.now ≤ 8 }
    ensures { TagsOf tags.now result }
{
    let mut copied = [0u8; 8];
    copied[..tags.len()].copy_from_slice(tags);
    copied
}

pub fn rules_of(u: FunctionUnit, tags: &[u8]) -> Rules
    requires { (1 ≤ length tags.now) × (length tags.now ≤ 8) }
    ensures { RulesOf u tags.now result }
{
    let rows = rows_of(u, tags);
    let copied = tags_of(tags);
    let width = widest(u);
    let count = tags.len() as u32;
    Rules {
        rows,
        tags: copied,
        count,
        width,
    }
}
