// The reservation table, line by line and cell by cell.
ghost use Rattle.std.specs.Prelude.{◌+◌, ◌*◌, ◌≤◌, ◌<◌, ◌≡◌, length};
ghost use Rattle.words.specs.Below.{join_below};
ghost use Rattle.text.specs.Text.{decimal};
ghost use Rattle.text.specs.Wrote.{Put};
ghost use Rattle.drawing.specs.Tables.{cell, mark_text, head_text};
ghost use Rattle.drawing.specs.Inner.{number_cell, mark_cell, line_text, line_length, lines_text};

// A number below 100 at the right of a cell.
fn put_number_cell(out: &mut [u8], at: usize, number: u32) -> usize
    requires { (number < 100) × (at + 3 ≤ length out.old) }
    ensures { Put 3 out.old at (cell (decimal number)) out.new result }
{
    if number < 10 {
        let after_two = text::put(out, at, b"  ");
        return text::put_number(out, after_two, number);
    }
    let after_one = text::put(out, at, b" ");
    text::put_number(out, after_one, number)
}

// A mark, or none, at the right of a cell.
fn put_mark_cell(out: &mut [u8], at: usize, marked: bool) -> usize
    requires { at + 3 ≤ length out.old }
    ensures { Put 3 out.old at (cell (mark_text marked)) out.new result }
{
    if marked {
        return text::put(out, at, b"  x");
    }
    text::put(out, at, b"  .")
}

// The numbers of the columns.
fn put_numbers(out: &mut [u8], at: usize, columns: u32) -> usize
    requires { (columns ≤ 32) × (at + 3 * columns ≤ length out.old) }
    ensures { Put (3 * columns) out.old at (join_below columns number_cell) out.new result }
{
    let mut end = at;
    for column in 0..columns {
        end = put_number_cell(out, end, column + 1);
    }
    end
}

// An empty cell, and the numbers of the columns.
fn put_head(out: &mut [u8], columns: u32) -> usize
    requires { (columns ≤ 32) × (line_length columns ≤ length out.old) }
    ensures { Put (line_length columns) out.old 0 (head_text columns) out.new result }
{
    let after_cell = text::put(out, 0, b"   ");
    let after_numbers = put_numbers(out, after_cell, columns);
    text::put(out, after_numbers, b"\n")
}

// The marks of a segment, counted from 0, in each column.
fn put_marks(out: &mut [u8], at: usize, marks: [u16; 32], columns: u32, segment: u32) -> usize
    requires { (columns ≤ 32) × (at + 3 * columns ≤ length out.old) }
    ensures { Put (3 * columns) out.old at (join_below columns (mark_cell marks segment)) out.new result }
{
    let mut end = at;
    for word in &marks[..columns as usize] {
        end = put_mark_cell(out, end, words::test(*word as u32, segment));
    }
    end
}

// The line of a segment, counted from 0: its number, and its marks.
fn put_line(out: &mut [u8], at: usize, marks: [u16; 32], columns: u32, segment: u32) -> usize
    requires { (columns ≤ 32) × (segment < 16) × (at + line_length columns ≤ length out.old) }
    ensures { Put (line_length columns) out.old at (line_text marks columns segment) out.new result }
{
    let after_number = put_number_cell(out, at, segment + 1);
    let after_marks = put_marks(out, after_number, marks, columns, segment);
    text::put(out, after_marks, b"\n")
}

// The lines of the segments.
fn put_rows(out: &mut [u8], at: usize, marks: [u16; 32], segments: u32, columns: u32) -> usize
    requires { (segments ≤ 16) × (columns ≤ 32) × (at + line_length columns * segments ≤ length out.old) }
    ensures { Put (line_length columns * segments) out.old at (join_below segments (line_text marks columns)) out.new result }
{
    let mut end = at;
    for segment in 0..segments {
        end = put_line(out, end, marks, columns, segment);
    }
    end
}

// The whole table from the words of a function's columns.
pub fn put_lines(out: &mut [u8], marks: [u16; 32], segments: u32, columns: u32) -> usize
    requires { (segments ≤ 16) × (columns ≤ 32) × (line_length columns * (segments + 1) ≤ length out.old) }
    ensures { Put (line_length columns * (segments + 1)) out.old 0 (lines_text marks segments columns) out.new result }
{
    let after_head = put_head(out, columns);
    put_rows(out, after_head, marks, segments, columns)
}

// How many bytes a table has.
pub fn length_of(segments: u8, columns: u8) -> usize
    ensures { result ≡ line_length columns * (segments + 1) }
{
    (3 * (columns as usize) + 4) * (segments as usize + 1)
}
