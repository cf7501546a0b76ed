// The lines of a chart.
ghost use Rattle.std.specs.Prelude.{◌+◌, ◌-◌, ◌*◌, ◌≤◌, ◌<◌, ◌≡◌, length};
ghost use Rattle.words.specs.Below.{list_below};
ghost use Rattle.text.specs.Text.{decimal, placed};
ghost use Rattle.text.specs.Wrote.{Wrote, Put};
ghost use Rattle.chart.specs.Cells.{letter, start_cell, next_cell};
ghost use Rattle.chart.specs.Text.{at_left, at_right, unit_digit, busy, busy_text, segment_line, top_lines, chart_of};
ghost use Rattle.chart.specs.Inner.{Ready, start_byte, row_in, cells_in, lines_text, top_length, line_length, row_from};

use unit::{FunctionUnit, Plan, Tag};

// The last digits of the numbers of the units.
fn put_units(out: &mut [u8], at: usize, units: usize) -> usize
    requires { (units < 4294967296) × (at + units ≤ length out.old) }
    ensures { Wrote out.old at (list_below units unit_digit) out.new result }
{
    for i in 0..units {
        out[at + i] = 48 + ((i + 1) % 10) as u8;
    }
    at + units
}

// The letter of a task.
fn letter_of(task: usize) -> u8
    ensures { result ≡ letter task }
{
    let turn = (task % 52) as u8;
    if turn < 26 {
        return 65 + turn;
    }
    71 + turn
}

// The byte of a unit in the row of starts.
fn start_cell(started: bool, tasks: usize) -> u8
    ensures { result ≡ start_byte started tasks }
{
    if started {
        return letter_of(tasks);
    }
    b'.'
}

// The row of starts, played step by step.
fn put_starts(out: &mut [u8], at: usize, u: FunctionUnit, plan: Plan, units: usize) -> usize
    requires { (units < 4294967296) × (at + units ≤ length out.old) }
    ensures { Wrote out.old at (list_below units (start_cell u plan)) out.new result }
{
    let mut position: u16 = 0;
    let mut bank = crate::empty_bank();
    let mut tasks: usize = 0;
    for i in 0..units {
        let next = simulator::step(u, plan, position, bank);
        out[at + i] = start_cell(next.started, tasks);
        tasks += next.started as usize;
        position = next.position;
        bank = next.bank;
    }
    at + units
}

// The first two lines.
fn put_top(out: &mut [u8], u: FunctionUnit, plan: Plan, units: usize) -> usize
    requires { (units < 4294967296) × (top_length units ≤ length out.old) }
    ensures { Put (top_length units) out.old 0 (top_lines units (start_cell u plan)) out.new result }
{
    let after_name = text::put(out, 0, b"unit    ");
    let after_units = put_units(out, after_name, units);
    let after_line = text::put(out, after_units, b"\n");
    let after_word = text::put(out, after_line, b"starts  ");
    let after_starts = put_starts(out, after_word, u, plan, units);
    text::put(out, after_starts, b"\n")
}

// The task that occupies a segment in a unit, with one more column looked at: that of the start so many units before, if the segment is marked in it.
fn next_cell(bytes: &[u8], from: usize, i: usize, c: usize, marked: bool, cell: u8) -> u8
    requires { from + i < length bytes.now }
    ensures { result ≡ next_cell marked (row_in bytes.now from) i c cell }
{
    if i < c {
        return cell;
    }
    if !marked {
        return cell;
    }
    let start = bytes[from + (i - c)];
    if start == b'.' {
        return cell;
    }
    start
}

// The task that occupies a segment, counted from 0, in a unit: looked for in the row of starts.
fn cell_at(
    bytes: &[u8],
    from: usize,
    i: usize,
    marks: [u16; 32],
    columns: usize,
    segment: u32,
) -> u8
    requires { (columns ≤ 32) × (from + i < length bytes.now) }
    ensures { result ≡ cells_in bytes.now from marks columns segment i }
{
    let mut cell = b'.';
    for (c, word) in marks[..columns].iter().enumerate() {
        let is_marked = words::test(*word as u32, segment);
        cell = next_cell(bytes, from, i, c, is_marked, cell);
    }
    cell
}

// The cells of a segment; answers how many have a task.
fn put_cells(
    out: &mut [u8],
    at: usize,
    from: usize,
    units: usize,
    marks: [u16; 32],
    columns: usize,
    segment: u32,
) -> usize
    requires { (columns ≤ 32) × (from + units ≤ at) × (at + units ≤ length out.old) }
    ensures value { result ≡ busy units (cells_in out.old from marks columns segment) }
    ensures out_after { out.new ≡ placed out.old at (list_below units (cells_in out.old from marks columns segment)) }
{
    let mut count: usize = 0;
    for i in 0..units {
        let cell = cell_at(out, from, i, marks, columns, segment);
        out[at + i] = cell;
        count += (cell != b'.') as usize;
    }
    count
}

// How many more digits one number has than another.
fn spaces_before(number: u32, most: u32) -> usize
    requires { number ≤ most }
    ensures { result ≡ length (decimal most) - length (decimal number) }
{
    let mut rest = number;
    let mut room = most;
    let mut spaces: usize = 0;
    // A while: both numbers lose a digit in each turn, and none is counted up to.
    while 10 <= room {
        if rest < 10 {
            spaces += 1;
        }
        rest = rest / 10;
        room = room / 10;
    }
    spaces
}

// A number at the right of as many bytes as another has digits.
fn put_at_right(out: &mut [u8], at: usize, number: u32, most: u32) -> usize
    requires { (number ≤ most) × (at + length (decimal most) ≤ length out.old) }
    ensures { Put (length (decimal most)) out.old at (at_right (length (decimal most)) (decimal number)) out.new result }
{
    let blank = [32u8; 10];
    let spaces = spaces_before(number, most);
    let after_blank = text::put(out, at, &blank[..spaces]);
    text::put_number(out, after_blank, number)
}

// How many of the units are busy.
fn put_count(out: &mut [u8], at: usize, number: u32, units: u32) -> usize
    requires { (number ≤ units) × (at + (2 * length (decimal units) + 8) ≤ length out.old) }
    ensures { Put (2 * length (decimal units) + 8) out.old at (busy_text number units) out.new result }
{
    let after_word = text::put(out, at, b" busy ");
    let after_number = put_at_right(out, after_word, number, units);
    let after_stroke = text::put(out, after_number, b"/");
    let after_units = text::put_number(out, after_stroke, units);
    text::put(out, after_units, b"\n")
}

// The number of a segment at the left of its field.
fn put_name(out: &mut [u8], at: usize, number: u32) -> usize
    requires { (number < 100) × (at + 8 ≤ length out.old) }
    ensures { Put 8 out.old at (at_left 8 (decimal number)) out.new result }
{
    let after_number = text::put_number(out, at, number);
    if number < 10 {
        return text::put(out, after_number, b"       ");
    }
    text::put(out, after_number, b"      ")
}

// The line of a segment, counted from 0.
fn put_segment(
    out: &mut [u8],
    at: usize,
    units: u32,
    marks: [u16; 32],
    columns: usize,
    segment: u32,
) -> usize
    requires { (columns ≤ 32) × (segment < 16) × (row_from units + units ≤ at) × (at + line_length units ≤ length out.old) }
    ensures { Put (line_length units) out.old at (segment_line units (cells_in out.old (row_from units) marks columns segment) (segment + 1)) out.new result }
{
    let count = units as usize;
    let after_name = put_name(out, at, segment + 1);
    let tasks = put_cells(out, after_name, count + 17, count, marks, columns, segment);
    put_count(out, after_name + count, tasks as u32, units)
}

// The lines of the segments.
fn put_segments(
    out: &mut [u8],
    at: usize,
    units: u32,
    marks: [u16; 32],
    columns: usize,
    segments: u32,
) -> usize
    requires { (columns ≤ 32) × (segments ≤ 16) × (row_from units + units ≤ at) × (at + line_length units * segments ≤ length out.old) }
    ensures { Put (line_length units * segments) out.old at (lines_text out.old (row_from units) marks columns units segments) out.new result }
{
    let mut end = at;
    for segment in 0..segments {
        end = put_segment(out, end, units, marks, columns, segment);
    }
    end
}

// The whole chart.
pub fn put_chart(out: &mut [u8], u: FunctionUnit, plan: Plan, units: u32) -> usize
    requires { (Ready u plan) × (top_length units + line_length units * u.segments ≤ length out.old) }
    ensures { Put (top_length units + line_length units * u.segments) out.old 0 (chart_of u plan units) out.new result }
{
    let marks = columns::columns_of(u, Tag(plan.tag));
    let after_top = put_top(out, u, plan, units as usize);
    put_segments(
        out,
        after_top,
        units,
        marks,
        u.columns as usize,
        u.segments as u32,
    )
}

// How many bytes a chart has.
pub fn length_of(segments: u8, units: u32) -> usize
    ensures { result ≡ top_length units + line_length units * segments }
{
    let digits = spaces_before(0, units) + 1;
    let count = units as usize;
    2 * count + 18 + (count + 2 * digits + 16) * (segments as usize)
}
