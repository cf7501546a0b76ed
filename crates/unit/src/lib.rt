// A function unit: which segments a task of a function occupies in which column, and the plan that was last searched for.
// Every function here is proved, total and without a `requires`. Only this crate knows how the marks are laid out: the
// crates above go by `marked` (specs/Unit.antt) and by the columns that `columns_of` hands out.
#![tactic(auto)]

ghost use Rattle.std.specs.Prelude.{◌≡◌, ◌≤◌};
ghost use Rattle.unit.specs.Inner.{Between, Beyond, Joins, Tested, Somewhere};
ghost use Rattle.unit.specs.Numbers.{number_of, number_in};
ghost use Rattle.unit.specs.Unit.{inside, good_counts, sound_plan, sound_of, place, columns_of};
ghost use Rattle.unit.specs.Calls.{tested_by, no_plan, with_word, tag_answer, spot_answer, fresh_of, column_answer, column_of};

// The number of a function, 1 to 4.
#[derive(Clone, Copy)]
pub struct Tag(pub u8);

// The number of a segment, 1 to 16.
#[derive(Clone, Copy)]
pub struct Segment(pub u8);

// A cycle of latencies for the function of the tag: count of them, their sum, and the latencies, after which all bytes
// are 0. A tag of 0 means no plan, whatever the other fields hold.
#[derive(Clone, Copy)]
pub struct Plan {
    pub tag: u8,
    pub count: u16,
    pub sum: u16,
    pub latencies: [u8; 256],
}

// Word (tag - 1) * 32 + (column - 1) holds the marks of a tag in a column, bit r - 1 for segment r.
#[derive(Clone, Copy)]
pub struct FunctionUnit {
    pub functions: u8,
    pub segments: u8,
    pub columns: u8,
    pub marks: [u16; 128],
    pub plan: Plan,
}

// Why a call is refused: a case for each number that whoever is refused is told.
#[derive(Clone, Copy, PartialEq, Eq)]
pub enum Refusal {
    NotSound = 1,
    NoSuchTag = 2,
    NoSuchSegment = 3,
    NoSuchColumn = 4,
    ShortWork = 5,
    ShortOutput = 6,
    TooManyStates = 7,
    NoPlan = 8,
    BadCycle = 9,
    NotGranted = 10,
    BadLength = 11,
    BadHeader = 12,
    MarkBeyondColumns = 13,
    TooManyWait = 14,
    BadRecord = 15,
    BadLoop = 17,
    NoSuchCaller = 18,
    TwoMarks = 19,
    BadInterval = 20,
    PlaceBeyond = 21,
    NoSmallTable = 22,
}

// The answer to a call that makes a unit, and the unit that it leaves.
#[derive(Clone, Copy)]
pub struct Outcome {
    pub answer: Result<(), Refusal>,
    pub unit: FunctionUnit,
}

// The number that whoever is refused is told.
impl From<Refusal> for u8 {
    ghost from_gives = { λ why number. number ≡ number_of why };

    fn from(why: Refusal) -> u8 {
        why as u8
    }
}

impl From<Refusal> for u32 {
    ghost from_gives = { λ why number. number ≡ number_of why };

    fn from(why: Refusal) -> u32 {
        why as u32
    }
}

// The number that an answer tells: 0 where the call was accepted.
pub fn number_in(answer: Result<(), Refusal>) -> u8
    ensures { result ≡ number_in answer }
{
    match answer {
        Ok(()) => 0,
        Err(why) => u8::from(why),
    }
}

// The answer so far, and, where that is done, one more test.
pub fn tested(answer: Result<(), Refusal>, holds: bool, why: Refusal) -> Result<(), Refusal>
    ensures { result ≡ tested_by answer holds why }
{
    answer?;
    if holds { Ok(()) } else { Err(why) }
}

// No plan: tag, count, sum and all 256 bytes are 0.
pub fn no_plan() -> Plan
    ensures { result ≡ no_plan }
{
    Plan {
        tag: 0,
        count: 0,
        sum: 0,
        latencies: [0; 256],
    }
}

fn plan_is_sound(tag: u8, count: u16) -> bool
    ensures { result ≡ sound_plan tag count }
{
    tag == 0 || (1..=256).contains(&count)
}

// All the marks of the words from a place on, in one word. Neither this loop nor the next has a branch, so that the machine takes
// several words at a time.
fn joined_from(words: &[u16; 128], from: usize) -> u16
    requires { from ≤ 128 }
    ensures { Joins (Between from 128) words.now result }
{
    let mut all: u16 = 0;
    for i in from..128 {
        all |= words[i];
    }
    all
}

// All the marks that the four functions have after their first `columns` columns, in one word.
fn joined_beyond(words: &[u16; 128], columns: usize) -> u16
    requires { columns ≤ 32 }
    ensures { Joins (Beyond columns 32) words.now result }
{
    let mut all: u16 = 0;
    for column in columns..32 {
        all |= words[column] | words[column + 32] | words[column + 64] | words[column + 96];
    }
    all
}

// Whether no word has a mark outside the counts: in a segment, of a function or in a column that the unit does not have.
fn clean_marks(functions: u8, segments: u8, columns: u8, marks: [u16; 128]) -> bool
    requires { (functions ≤ 4) × (segments ≤ 16) × (columns ≤ 32) }
    ensures { Tested functions segments columns marks result }
{
    let top: u32 = 1 << segments;
    let all = joined_from(&marks, 0);
    if top <= (all as u32) {
        return false;
    }
    let absent = joined_from(&marks, functions as usize * 32);
    if absent != 0 {
        return false;
    }
    let beyond = joined_beyond(&marks, columns as usize);
    beyond == 0
}

fn counts(functions: u8, segments: u8, columns: u8) -> bool
    ensures { result ≡ good_counts functions segments columns }
{
    words::is_inside(functions, 4)
        && words::is_inside(segments, 16)
        && words::is_inside(columns, 32)
}

// Whether the counts are in their ranges, every mark lies within them, and the plan, if there is one, has 1 to 256 latencies.
pub fn sound(u: FunctionUnit) -> bool
    ensures { result ≡ sound_of u }
{
    if !counts(u.functions, u.segments, u.columns) {
        return false;
    }
    if !plan_is_sound(u.plan.tag, u.plan.count) {
        return false;
    }
    clean_marks(u.functions, u.segments, u.columns, u.marks)
}

// What every question about one function tries first: the unit, then the tag.
pub fn check_tag(u: FunctionUnit, tag: Tag) -> Result<(), Refusal>
    ensures { result ≡ tag_answer u tag.0 }
{
    if !sound(u) {
        return Err(Refusal::NotSound);
    }
    if !words::is_inside(tag.0, u.functions) {
        return Err(Refusal::NoSuchTag);
    }
    Ok(())
}

// The unit of the three counts, without marks or plan. Where a count is outside its range the unit that is handed out has
// the same counts, so that every call on it is refused.
pub fn fresh(functions: u8, segments: u8, columns: u8) -> Outcome
    ensures { result ≡ fresh_of functions segments columns }
{
    let plan = no_plan();
    let marks = [0u16; 128];
    let unit = FunctionUnit {
        functions,
        segments,
        columns,
        marks,
        plan,
    };
    let answer = if counts(functions, segments, columns) {
        Ok(())
    } else {
        Err(Refusal::NotSound)
    };
    Outcome { answer, unit }
}
