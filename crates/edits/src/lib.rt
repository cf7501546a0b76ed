// The edits of a unit: one mark set or cleared, which drops the plan. They go by the columns that crate `columns` hands out and takes. Every function here is proved; the public ones are total and without a `requires`.
#![tactic(auto)]

ghost use Rattle.std.specs.Prelude.{◌≡◌, ◌-◌, ◌≤◌};
ghost use Rattle.words.specs.Bits.{set_bit, clear_bit};
ghost use Rattle.unit.specs.Calls.{spot_answer, mark_of, unmark_of};

use unit::{FunctionUnit, Outcome, Refusal, Segment, Tag};

// A column's word with the mark of a segment.
fn with_mark(word: u16, segment: u8) -> u16
    requires { (1 ≤ segment) × (segment ≤ 16) }
    ensures { result ≡ set_bit word (segment - 1) }
{
    words::set(word as u32, segment as u32 - 1) as u16
}

// A column's word without the mark of a segment.
fn without_mark(word: u16, segment: u8) -> u16
    requires { (1 ≤ segment) × (segment ≤ 16) }
    ensures { result ≡ clear_bit word (segment - 1) }
{
    words::clear(word as u32, segment as u32 - 1) as u16
}

// Whether the mark of a tag at a segment in a column can be edited.
fn check_spot(u: FunctionUnit, tag: Tag, segment: Segment, column: u8) -> Result<(), Refusal>
    ensures { result ≡ spot_answer u tag.0 segment.0 column }
{
    unit::check_tag(u, tag)?;
    if !words::is_inside(segment.0, u.segments) {
        return Err(Refusal::NoSuchSegment);
    }
    if !words::is_inside(column, u.columns) {
        return Err(Refusal::NoSuchColumn);
    }
    Ok(())
}

// Sets one mark and drops the plan.
pub fn mark(u: FunctionUnit, tag: Tag, segment: Segment, column: u8) -> Outcome
    ensures { result ≡ mark_of u tag.0 segment.0 column }
{
    let answer = check_spot(u, tag, segment, column);
    let Ok(()) = answer else {
        return Outcome { answer, unit: u };
    };
    let marks = columns::columns_of(u, tag);
    let word = marks[column as usize - 1];
    let marked = with_mark(word, segment.0);
    columns::with_column(u, tag, column, marked)
}

// Clears one mark and drops the plan.
pub fn unmark(u: FunctionUnit, tag: Tag, segment: Segment, column: u8) -> Outcome
    ensures { result ≡ unmark_of u tag.0 segment.0 column }
{
    let answer = check_spot(u, tag, segment, column);
    let Ok(()) = answer else {
        return Outcome { answer, unit: u };
    };
    let marks = columns::columns_of(u, tag);
    let word = marks[column as usize - 1];
    let cleared = without_mark(word, segment.0);
    columns::with_column(u, tag, column, cleared)
}
