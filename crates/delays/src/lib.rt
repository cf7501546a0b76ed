// Delay columns for a wanted constant latency: the columns of a function are placed further apart, so that the latency never collides.
// Every function here is proved, and every public one is total and without a `requires`; the crate assumes nothing of its own.
#![tactic(auto)]

ghost use Rattle.std.specs.Prelude.{◌≡◌, ◌&&◌, ◌||◌, ◌+◌, ◌*◌, ◌%◌, ◌≤◌, ◌<◌, leb, eqb, get_or, Ok};
ghost use Rattle.words.specs.Below.{some_below};
ghost use Rattle.unit.specs.Unit.{inside, marked};
ghost use Rattle.unit.specs.Calls.{tag_answer, unit_of};
ghost use Rattle.collision.specs.Vector.{meet, marks_of};
ghost use Rattle.delays.specs.Delays.{places, moved_table, delays_of};
ghost use Rattle.delays.specs.Inner.{column_marks, two_in, taken_at, first_for, place_for, Placing, Placed, Movable, left, Suited, placed_of};

use unit::{FunctionUnit, Outcome, Refusal, Tag};

// Whether a column has two marks.
fn has_two(word: u16) -> bool
    ensures { result ≡ two_in word }
{
    1 < words::ones(word as u32)
}

// Whether some column has two marks.
fn is_crowded(columns: [u16; 32]) -> bool
    ensures { result ≡ some_below 32 (λ i. two_in (get_or columns i 0)) }
{
    columns.iter().any(|word| has_two(*word))
}

// Whether a place is taken where one more column is looked at: by it, where it has a mark in a segment of the column to be placed and its place has the
// same remainder, or by one before it.
fn is_taken_more(before: bool, one: u16, word: u16, spot: u16, rest: u16, latency: u16) -> bool
    requires { 1 ≤ latency }
    ensures { result ≡ (meet one word && eqb (spot % latency) rest || before) }
{
    if one & word == 0 {
        return before;
    }
    if spot % latency == rest {
        return true;
    }
    before
}

// Whether an earlier mark of the segment of the column after the first `count` has a place's remainder.
fn is_taken(columns: [u16; 32], spots: [u16; 32], count: usize, place: u16, latency: u16) -> bool
    requires { (count < 32) × (1 ≤ latency) }
    ensures { result ≡ taken_at columns spots count latency place }
{
    let word = columns[count];
    let rest = place % latency;
    let mut taken = false;
    for i in 0..count {
        taken = is_taken_more(taken, columns[i], word, spots[i], rest, latency);
    }
    taken
}

// The first place after the predecessor's.
fn first_for(spots: [u16; 32], count: usize) -> u16
    requires { (count < 32) × (first_for spots count ≤ 33 * count + 1) }
    ensures { result ≡ first_for spots count }
{
    if count == 0 {
        return 1;
    }
    spots[count - 1] + 1
}

// The place of the column after the first `count`: the first, or, where its segment bars it, a later one.
fn place_for(columns: [u16; 32], spots: [u16; 32], count: usize, latency: u16) -> u16
    requires { Placing spots count latency }
    ensures { (result ≡ place_for columns spots count latency) × (result ≤ 33 * count + 33) }
{
    let first = first_for(spots, count);
    for place in first..first + latency {
        if !is_taken(columns, spots, count, place, latency) {
            return place;
        }
    }
    first + latency
}

// The places of the first `count` columns.
fn places_of(columns: [u16; 32], count: usize, latency: u16) -> [u16; 32]
    requires { (count ≤ 32) × (1 ≤ latency) × (latency ≤ 32) }
    ensures { Placed (column_marks columns) latency count result }
{
    let mut spots = [0u16; 32];
    for i in 0..count {
        let place = place_for(columns, spots, i, latency);
        spots[i] = place;
    }
    spots
}

// A one-function unit with the marks of the first `count` columns, each at its place.
fn moved_unit(
    columns: [u16; 32],
    spots: [u16; 32],
    latency: u16,
    count: usize,
    segments: u8,
    width: u8,
) -> FunctionUnit
    requires { Movable columns spots latency count segments width }
    ensures { result ≡ unit_of 1 segments width (moved_table (column_marks columns) (places (column_marks columns) latency count)) }
{
    let made = unit::fresh(1, segments, width);
    let mut unit = made.unit;
    for i in 0..count {
        let given = columns::with_column(unit, Tag(1), spots[i] as u8, columns[i]);
        let filled = given.unit;
        unit = filled;
    }
    unit
}

// Whether a latency can be wanted of a function: it is 1 to 32, and no less than the largest number of marks in a segment.
fn is_latency(u: FunctionUnit, tag: Tag, latency: u8) -> bool
    requires { tag_answer u tag.0 ≡ Ok tt }
    ensures { result ≡ inside latency 32 && leb (marks_of (marked u) tag.0) latency }
{
    if !words::is_inside(latency, 32) {
        return false;
    }
    let most = measures::marks(u, tag);
    match most {
        Err(_) => false,
        Ok(count) => count <= latency as u32,
    }
}

// The unit, and why it has no delays.
fn refused(u: FunctionUnit, why: Refusal) -> Outcome
    ensures { result ≡ left u why }
{
    Outcome {
        answer: Err(why),
        unit: u,
    }
}

// What is tried of a function with at most one mark per column and a latency that suits it: its places.
fn place_all(u: FunctionUnit, columns: [u16; 32], latency: u16) -> Outcome
    requires { Suited u columns latency }
    ensures { result ≡ placed_of u columns latency }
{
    let count = u.columns as usize;
    let spots = places_of(columns, count, latency);
    let width = spots[count - 1];
    if 32 < width {
        return refused(u, Refusal::PlaceBeyond);
    }
    let made = moved_unit(columns, spots, latency, count, u.segments, width as u8);
    Outcome {
        answer: Ok(()),
        unit: made,
    }
}

// The one-function unit in which a function's columns are placed so that the latency never collides; the unit itself where that is refused.
pub fn delays(u: FunctionUnit, tag: Tag, latency: u8) -> Outcome
    ensures { result ≡ delays_of u tag.0 latency }
{
    let checked = unit::check_tag(u, tag);
    match checked {
        Err(why) => refused(u, why),
        Ok(()) => {
            let columns = columns::columns_of(u, tag);
            if is_crowded(columns) {
                return refused(u, Refusal::TwoMarks);
            }
            if !is_latency(u, tag, latency) {
                return refused(u, Refusal::BadInterval);
            }
            place_all(u, columns, latency as u16)
        }
    }
}
