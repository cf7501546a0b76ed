// What collides: the collision vector of a function, and the rows of the collision matrices. Every function here is proved, and every
// public one is total and without a `requires`; the crate assumes nothing of its own.
#![tactic(auto)]

ghost use Rattle.std.specs.Prelude.{◌≡◌, ◌<◌, length};
ghost use Rattle.unit.specs.Unit.{marked};
ghost use Rattle.collision.specs.Vector.{row_of_columns, row_word};
ghost use Rattle.collision.specs.Answers.{tags_answer, vector_answer, row_answer};
ghost use Rattle.collision.specs.Inner.{SameWords, Joins, Common};

use unit::{FunctionUnit, Refusal, Tag};

// The columns of a function, with as many empty ones after them.
fn padded(columns: [u16; 32]) -> [u16; 64]
    ensures { SameWords columns result }
{
    let mut wide = [0u16; 64];
    for (i, word) in columns.iter().enumerate() {
        wide[i] = *word;
    }
    wide
}

// Adds to word t what a column of the later function shares with the column of the earlier one that is t further on. The loop has
// no branch and a constant bound, so that the machine takes several words at a time.
fn join_column(common: &mut [u16; 32], earlier: &[u16; 64], column: usize, word: u16)
    requires { (column < 32) × (length common.old ≡ 32) }
    ensures { Joins earlier.now column word common.old common.new }
{
    for apart in 0..32 {
        common[apart] = common[apart] | (word & earlier[column + apart]);
    }
}

// Word t has the segments in which a task of the later function, started t after one of the earlier, would collide with it. Every
// column is taken, also one without marks: the cost is the same for all units, and that of the worst is lowest so. Inlined into a caller
// that tests the words one by one, they would be held apart and no longer be taken several at a time.
#[inline(never)]
fn common_segments(later: [u16; 32], earlier: [u16; 32]) -> [u16; 32]
    ensures { Common later earlier result }
{
    let wide = padded(earlier);
    let mut common = [0u16; 32];
    for (passed, word) in later.iter().enumerate() {
        join_column(&mut common, &wide, passed, *word);
    }
    common
}

// The row of a matrix, from the marks of two functions by column as `columns::columns_of` hands them out: column t of the row is
// bit t - 1, and is 1 where the later function, started t after the earlier, would collide. Marks are at most 31 columns apart.
pub fn row_of(later: [u16; 32], earlier: [u16; 32]) -> u32
    ensures { result ≡ row_of_columns later earlier }
{
    let common = common_segments(later, earlier);
    let mut row: u32 = 0;
    for latency in 1..32 {
        if common[latency as usize] != 0 {
            row = words::set(row, latency - 1);
        }
    }
    row
}

// The row of two functions of a unit; of one function twice, its collision vector.
fn row_of_tags(u: FunctionUnit, later: Tag, earlier: Tag) -> u32
    ensures { result ≡ row_word (marked u) later.0 earlier.0 }
{
    let later_columns = columns::columns_of(u, later);
    let earlier_columns = columns::columns_of(u, earlier);
    row_of(later_columns, earlier_columns)
}

// What a question about two functions tries first: the unit, then either tag.
fn check_tags(u: FunctionUnit, one: Tag, other: Tag) -> Result<(), Refusal>
    ensures { result ≡ tags_answer u one.0 other.0 }
{
    unit::check_tag(u, one)?;
    unit::check_tag(u, other)
}

// The collision vector of a function: bit t - 1 is 1 exactly where the latency t is forbidden.
pub fn vector(u: FunctionUnit, tag: Tag) -> Result<u32, Refusal>
    ensures { result ≡ vector_answer u tag.0 }
{
    unit::check_tag(u, tag)?;
    Ok(row_of_tags(u, tag, tag))
}

// Row q of the matrix M_r: bit t - 1 is 1 exactly where q, started t after r, would collide with it.
pub fn matrix_row(u: FunctionUnit, q: Tag, r: Tag) -> Result<u32, Refusal>
    ensures { result ≡ row_answer u q.0 r.0 }
{
    check_tags(u, q, r)?;
    Ok(row_of_tags(u, q, r))
}
