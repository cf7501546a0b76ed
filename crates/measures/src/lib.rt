// The measures of a function: marks, bound, upper and constant. Every function here is proved, and every public one is total and without a
// `requires`; the crate assumes nothing of its own.
#![tactic(auto)]

ghost use Rattle.std.specs.Prelude.{◌≡◌, ◌≤◌};
ghost use Rattle.words.specs.Bits.{is_set};
ghost use Rattle.collision.specs.Answers.{marks_answer, bound_answer, upper_answer, constant_answer};
ghost use Rattle.measures.specs.Inner.{marks_at, most_marks, free_of, least_free};

use unit::{FunctionUnit, Refusal, Tag};

// Whether a column has a mark at the bit.
fn has_mark(column: u16, bit: u32) -> bool
    ensures { result ≡ is_set column bit }
{
    words::test(column as u32, bit)
}

// How many marks a segment has, given as its bit in the columns.
fn marks_at(columns: [u16; 32], bit: u32) -> u32
    ensures { result ≡ marks_at columns bit }
{
    let mut marks: u32 = 0;
    for column in &columns {
        if has_mark(*column, bit) {
            marks += 1;
        }
    }
    marks
}

// The largest number of marks at one bit of the columns.
fn most_marks(columns: [u16; 32]) -> u32
    ensures { result ≡ most_marks columns }
{
    let mut most: u32 = 0;
    for bit in 0..16 {
        let marks = marks_at(columns, bit);
        if most < marks {
            most = marks;
        }
    }
    most
}

// The largest number of marks that the function has in one segment.
pub fn marks(u: FunctionUnit, tag: Tag) -> Result<u32, Refusal>
    ensures { result ≡ marks_answer u tag.0 }
{
    unit::check_tag(u, tag)?;
    let columns = columns::columns_of(u, tag);
    Ok(most_marks(columns))
}

// The size of the largest set of whole numbers in which every two differ by a forbidden latency.
pub fn bound(u: FunctionUnit, tag: Tag) -> Result<u32, Refusal>
    ensures { result ≡ bound_answer u tag.0 }
{
    let word = collision::vector(u, tag)?;
    Ok(clique_size::largest(word))
}

// The number of 1s in the collision vector, plus 1.
pub fn upper(u: FunctionUnit, tag: Tag) -> Result<u32, Refusal>
    ensures { result ≡ upper_answer u tag.0 }
{
    let word = collision::vector(u, tag)?;
    Ok(words::ones(word) + 1)
}

// Whether no column of the vector that is a multiple of m is 1.
fn free_of_multiples(vector: u32, m: u32) -> bool
    requires { (1 ≤ m) × (m ≤ 32) }
    ensures { result ≡ free_of vector m }
{
    for multiple in (m..33).step_by(m as usize) {
        if words::test(vector, multiple - 1) {
            return false;
        }
    }
    true
}

// The least m of which no multiple is 1 in the vector.
fn least_free(vector: u32) -> u32
    ensures { result ≡ least_free vector }
{
    for m in 1..33 {
        if free_of_multiples(vector, m) {
            return m;
        }
    }
    33
}

// The least latency of which no multiple is forbidden.
pub fn constant(u: FunctionUnit, tag: Tag) -> Result<u32, Refusal>
    ensures { result ≡ constant_answer u tag.0 }
{
    let forbidden = collision::vector(u, tag)?;
    Ok(least_free(forbidden))
}
