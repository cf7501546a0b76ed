// Every small table: one function, 1 or 2 segments, 1 to 6 columns. Each has a number, and a caller who counts from 0 on up to the count of a size meets
// every table of it, each once (`EachOnce`, `EachMade`, specs/Claims.antt).
// Every function here is proved, and every public one is total and without a `requires`; the crate assumes nothing of its own.
#![tactic(auto)]

ghost use Rattle.std.specs.Prelude.{◌≡◌, ◌≤◌};
ghost use Rattle.unit.specs.Calls.{unit_of};
ghost use Rattle.table_numbers.specs.Tables.{small_size, count_answer, small_table, small_table_answer, small_table_of};
ghost use Rattle.table_numbers.specs.Inner.{Sized, column_word};

use unit::{FunctionUnit, Outcome, Refusal, Tag};

// Whether there are small tables of so many segments and columns.
fn is_size(segments: u8, columns: u8) -> bool
    ensures { result ≡ small_size segments columns }
{
    words::is_inside(segments, 2) && words::is_inside(columns, 6)
}

// How many tables of a size there are: their numbers are those below it. Of a size outside there are none.
pub fn count(segments: u8, columns: u8) -> u32
    ensures { result ≡ count_answer segments columns }
{
    if !is_size(segments, columns) {
        return 0;
    }
    1 << (segments as u32 * columns as u32)
}

// Whether a number has a table of the size.
fn check_number(segments: u8, columns: u8, number: u32) -> Result<(), Refusal>
    ensures { result ≡ small_table_answer segments columns number }
{
    if number < count(segments, columns) {
        return Ok(());
    }
    Err(Refusal::NoSmallTable)
}

// The marks of a column, bit r - 1 for segment r.
fn column_word(segments: u8, columns: u8, number: u32, column: u8) -> u16
    requires { Sized segments columns × ((1 ≤ column) × (column ≤ columns)) }
    ensures { result ≡ column_word segments columns number column }
{
    let mut marks: u32 = 0;
    for i in 0..segments {
        let place = i as u32 * columns as u32 + (column as u32 - 1);
        if words::test(number, place) {
            marks = words::set(marks, i as u32);
        }
    }
    marks as u16
}

// The unit of a table, column by column.
fn fill(segments: u8, columns: u8, number: u32) -> FunctionUnit
    requires { Sized segments columns }
    ensures { result ≡ unit_of 1 segments columns (small_table segments columns number) }
{
    let made = unit::fresh(1, segments, columns);
    let mut unit = made.unit;
    for column in 1..=columns {
        let word = column_word(segments, columns, number, column);
        let given = columns::with_column(unit, Tag(1), column, word);
        let filled = given.unit;
        unit = filled;
    }
    unit
}

// The table of a number as a unit of one function, without plan. A refused call hands out the unit of no counts, so that every call on it is
// refused.
pub fn table(segments: u8, columns: u8, number: u32) -> Outcome
    ensures { result ≡ small_table_of segments columns number }
{
    let answer = check_number(segments, columns, number);
    match answer {
        Err(why) => {
            let made = unit::fresh(0, 0, 0);
            let none = made.unit;
            Outcome {
                answer: Err(why),
                unit: none,
            }
        }
        Ok(()) => {
            let filled = fill(segments, columns, number);
            Outcome {
                answer: Ok(()),
                unit: filled,
            }
        }
    }
}
