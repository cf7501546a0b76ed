// Reads a unit from a file.
ghost use Rattle.std.specs.Prelude.{◌≡◌, ◌+◌, ◌≤◌, length};
ghost use Rattle.unit.specs.Calls.{unit_of};
ghost use Rattle.unit_file.specs.File.{offset_of, file_length};
ghost use Rattle.unit_file.specs.Read.{functions_in, segments_in, columns_in, word16, word32, file_table, good_header, marks_beyond, read_answer, read_of};
ghost use Rattle.unit_file.specs.InnerRead.{Counted, Whole, Clean, TagIn, ColumnIn, body_answer, column_word, unit_before};

use unit::{FunctionUnit, Outcome, Refusal, Tag};

// The word of 16 bits at a place.
fn half_at(file: &[u8], at: usize) -> u32
    requires { at + 2 ≤ length file.now }
    ensures { result ≡ word16 file.now at }
{
    let low = file[at] as u32;
    let high = file[at + 1] as u32;
    low + 256 * high
}

// The word of 32 bits at a place.
fn word_at(file: &[u8], at: usize) -> u32
    requires { at + 4 ≤ length file.now }
    ensures { result ≡ word32 file.now at }
{
    half_at(file, at) + 65536 * half_at(file, at + 2)
}

// How long a file of these counts is.
fn whole_length(file: &[u8]) -> usize
    requires { Counted file.now }
    ensures { result ≡ file_length (functions_in file.now) (segments_in file.now) }
{
    let functions = file[0] as usize;
    let segments = file[1] as usize;
    4 + 2 * functions + 4 * segments * functions
}

// Where the table of a tag begins.
fn table_at(file: &[u8], tag: u8) -> usize
    requires { Counted file.now × TagIn file.now tag }
    ensures { result ≡ offset_of (functions_in file.now) (segments_in file.now) tag }
{
    let functions = file[0] as usize;
    let segments = file[1] as usize;
    4 + 2 * functions + 4 * segments * (tag as usize - 1)
}

// Whether byte 3 is zero and each offset says where its table begins.
fn header_is_good(file: &[u8]) -> bool
    requires { Whole file.now }
    ensures { result ≡ good_header file.now }
{
    if file[3] != 0 {
        return false;
    }
    let functions = file[0];
    for i in 0..functions {
        let said = half_at(file, 4 + 2 * (i as usize));
        if said as usize != table_at(file, i + 1) {
            return false;
        }
    }
    true
}

// Whether some word of the tables, which stand one after the other, has a bit beyond the columns.
fn has_marks_beyond(file: &[u8]) -> bool
    requires { Whole file.now }
    ensures { result ≡ marks_beyond file.now }
{
    let functions = file[0] as usize;
    let segments = file[1] as usize;
    let top: u64 = 1 << file[2];
    let count = functions * segments;
    for i in 0..count {
        let word = word_at(file, 4 + 2 * functions + 4 * i);
        if top <= (word as u64) {
            return true;
        }
    }
    false
}

// What is tried of a file whose counts are good: its length, its header, its marks.
fn check_body(file: &[u8]) -> Result<(), Refusal>
    requires { Counted file.now }
    ensures { result ≡ body_answer file.now }
{
    if file.len() != whole_length(file) {
        return Err(Refusal::BadLength);
    }
    if !header_is_good(file) {
        return Err(Refusal::BadHeader);
    }
    if has_marks_beyond(file) {
        return Err(Refusal::MarkBeyondColumns);
    }
    Ok(())
}

// Whether the file says a unit.
fn check_file(file: &[u8]) -> Result<(), Refusal>
    ensures { result ≡ read_answer file.now }
{
    if file.len() < 4 {
        return Err(Refusal::BadLength);
    }
    let made = unit::fresh(file[0], file[1], file[2]);
    made.answer?;
    check_body(file)
}

// The marks of a function in one column, bit r - 1 for segment r: a bit of each word of its table.
fn column_word(file: &[u8], tag: u8, column: u8) -> u16
    requires { Whole file.now × TagIn file.now tag × ColumnIn file.now column }
    ensures { result ≡ column_word file.now tag column }
{
    let segments = file[1];
    let first = table_at(file, tag);
    let mut marks: u32 = 0;
    for i in 0..segments {
        let word = word_at(file, first + 4 * (i as usize));
        if words::test(word, column as u32 - 1) {
            marks = words::set(marks, i as u32);
        }
    }
    marks as u16
}

// Gives a function its columns in turn.
fn fill_function(u: FunctionUnit, file: &[u8], tag: u8) -> FunctionUnit
    requires { Clean file.now × TagIn file.now tag × (u ≡ unit_before file.now tag 1) }
    ensures { result ≡ unit_before file.now (tag + 1) 1 }
{
    let columns = file[2];
    let mut unit = u;
    for column in 1..=columns {
        let word = column_word(file, tag, column);
        let given = columns::with_column(unit, Tag(tag), column, word);
        let filled = given.unit;
        unit = filled;
    }
    unit
}

// Gives each function its columns.
fn fill(file: &[u8]) -> FunctionUnit
    requires { Clean file.now }
    ensures { result ≡ unit_of (functions_in file.now) (segments_in file.now) (columns_in file.now) (file_table file.now) }
{
    let functions = file[0];
    let made = unit::fresh(functions, file[1], file[2]);
    let mut unit = made.unit;
    for tag in 1..=functions {
        let filled = fill_function(unit, file, tag);
        unit = filled;
    }
    unit
}

// The unit that the file says, without plan.
pub fn read(file: &[u8]) -> Outcome
    ensures { result ≡ read_of file.now }
{
    let answer = check_file(file);
    match answer {
        Err(why) => {
            let made = unit::fresh(0, 0, 0);
            let none = made.unit;
            Outcome {
                answer: Err(why),
                unit: none,
            }
        }
        Ok(()) => {
            let filled = fill(file);
            Outcome {
                answer: Ok(()),
                unit: filled,
            }
        }
    }
}
