// A function's marks, column by column: handed out, and given anew. With crate `unit`, whose test of a unit reads them, these calls know how marks are
// laid out; the crates above go by `marked` (unit, specs/Unit.antt) and by the columns that they hand out.
// Every public function here is proved, total and without a `requires`.
#![tactic(auto)]

ghost use Rattle.std.specs.Prelude.{◌≡◌};
ghost use Rattle.unit.specs.Inner.{Somewhere};
ghost use Rattle.unit.specs.Unit.{place, columns_of};
ghost use Rattle.unit.specs.Calls.{with_word, column_answer, column_of};

use unit::{FunctionUnit, Outcome, Refusal, Tag};

// The index of the word of a tag in a column.
fn place_of(tag: u8, column: u8) -> usize
    requires { Somewhere tag column }
    ensures { result ≡ place tag column }
{
    (tag as usize - 1) * 32 + (column as usize - 1)
}

// The unit with another word for a tag in a column, and without plan.
fn with_word(u: FunctionUnit, tag: u8, column: u8, word: u16) -> FunctionUnit
    requires { Somewhere tag column }
    ensures { result ≡ with_word u tag column word }
{
    let i = place_of(tag, column);
    let mut marks = u.marks;
    marks[i] = word;
    let kept = unit::no_plan();
    FunctionUnit {
        functions: u.functions,
        segments: u.segments,
        columns: u.columns,
        marks,
        plan: kept,
    }
}

// Whether a column's word can be given to a function.
fn check_column(u: FunctionUnit, tag: Tag, column: u8, word: u16) -> Result<(), Refusal>
    ensures { result ≡ column_answer u tag.0 column word }
{
    unit::check_tag(u, tag)?;
    let top: u32 = 1 << u.segments;
    if top <= (word as u32) {
        return Err(Refusal::NoSuchSegment);
    }
    if !words::is_inside(column, u.columns) {
        return Err(Refusal::NoSuchColumn);
    }
    Ok(())
}

// Gives a function all its marks in one column at once, bit r - 1 for segment r, and drops the plan.
pub fn with_column(u: FunctionUnit, tag: Tag, column: u8, word: u16) -> Outcome
    ensures { result ≡ column_of u tag.0 column word }
{
    let answer = check_column(u, tag, column, word);
    match answer {
        Err(why) => Outcome {
            answer: Err(why),
            unit: u,
        },
        Ok(()) => {
            let filled = with_word(u, tag.0, column, word);
            Outcome {
                answer: Ok(()),
                unit: filled,
            }
        }
    }
}

// The marks of a function by column: word column - 1 holds the column's marks, bit r - 1 for segment r. A tag outside 1 to 4
// has none.
pub fn columns_of(u: FunctionUnit, tag: Tag) -> [u16; 32]
    ensures { result ≡ columns_of u tag.0 }
{
    let mut columns = [0u16; 32];
    if !words::is_inside(tag.0, 4) {
        return columns;
    }
    let first = (tag.0 as usize - 1) * 32;
    for i in 0..32 {
        columns[i] = u.marks[first + i];
    }
    columns
}
