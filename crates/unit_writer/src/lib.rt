// Writes a unit as a file (the definitions and laws are in crate unit_file). Each word and each table goes to the front of a part of the output that is lent to its writer.
// Every function here is proved; the public one is total and without a `requires`.
#![tactic(auto)]

ghost use Rattle.std.specs.Prelude.{◌≡◌, ◌+◌, ◌*◌, ◌≤◌, length};
ghost use Rattle.words.specs.Bits.{is_set};
ghost use Rattle.unit.specs.Unit.{marked};
ghost use Rattle.unit_file.specs.File.{bytes16, bytes32, offset_bytes, file_length};
ghost use Rattle.unit_file.specs.InnerWrite.{in_front, in_from, head_bytes, Counts, after_tables, columns_word, columns_bytes, tables_bytes};
ghost use Rattle.unit_file.specs.Write.{write_answer, write_out};

use unit::{FunctionUnit, Refusal, Tag};

// Whether a column's word has the mark of a segment, counted from 0.
fn has_mark(word: u16, segment: u8) -> bool
    ensures { result ≡ is_set word segment }
{
    words::test(word as u32, segment as u32)
}

// The word of a segment, counted from 0: bit c - 1 for column c, from the words of the columns.
fn segment_word(columns: [u16; 32], segment: u8) -> u32
    ensures { result ≡ columns_word columns segment }
{
    let mut word: u32 = 0;
    for (column, marks) in columns.iter().enumerate() {
        if has_mark(*marks, segment) {
            word = words::set(word, column as u32);
        }
    }
    word
}

// Writes a word of 16 bits, the lowest byte first.
fn put_half(out: &mut [u8], half: u16)
    requires { 2 ≤ length out.old }
    ensures { out.new ≡ in_front (bytes16 half) out.old }
{
    out[0] = (half % 256) as u8;
    out[1] = (half / 256 % 256) as u8;
}

// Writes a word of 32 bits, the lowest byte first.
fn put_word(out: &mut [u8], word: u32)
    requires { 4 ≤ length out.old }
    ensures { out.new ≡ in_front (bytes32 word) out.old }
{
    out[0] = (word % 256) as u8;
    out[1] = (word / 256 % 256) as u8;
    out[2] = (word / 65536 % 256) as u8;
    out[3] = (word / 16777216 % 256) as u8;
}

// Where the table begins that has so many before it. After all tables the file ends.
fn table_start(functions: u8, segments: u8, before: u8) -> usize
    requires counts { Counts functions segments }
    requires before_bound { before ≤ 4 }
    ensures { result ≡ after_tables functions segments before }
{
    4 + 2 * (functions as usize) + 4 * (segments as usize) * (before as usize)
}

// Writes the counts.
fn write_header(out: &mut [u8], functions: u8, segments: u8, columns: u8)
    requires { 4 ≤ length out.old }
    ensures { out.new ≡ in_front (head_bytes functions segments columns) out.old }
{
    out[0] = functions;
    out[1] = segments;
    out[2] = columns;
    out[3] = 0;
}

// Writes where each table begins.
fn write_offsets(out: &mut [u8], functions: u8, segments: u8)
    requires counts { Counts functions segments }
    requires functions_in_bounds { 2 * functions ≤ length out.old }
    ensures { out.new ≡ in_front (offset_bytes functions segments) out.old }
{
    for before in 0..functions {
        let offset = table_start(functions, segments, before) as u16;
        let at = 2 * (before as usize);
        put_half(&mut out[at..], offset);
    }
}

// Writes a table: the words of a function's segments, from its columns.
fn write_table(out: &mut [u8], columns: [u16; 32], segments: u8)
    requires { 4 * segments ≤ length out.old }
    ensures { out.new ≡ in_front (columns_bytes columns segments) out.old }
{
    for segment in 0..segments {
        let word = segment_word(columns, segment);
        let at = 4 * (segment as usize);
        put_word(&mut out[at..], word);
    }
}

// Writes the tables: each function's words go in from that function's offset onward.
fn write_tables(out: &mut [u8], u: FunctionUnit)
    requires counts { Counts u.functions u.segments }
    requires segments_in_bounds { file_length u.functions u.segments ≤ length out.old }
    ensures { out.new ≡ in_from (4 + 2 * u.functions) (tables_bytes (marked u) u.segments u.functions) out.old }
{
    let functions = u.functions;
    let segments = u.segments;
    for before in 0..functions {
        let columns = columns::columns_of(u, Tag(before + 1));
        let offset = table_start(functions, segments, before);
        write_table(&mut out[offset..], columns, segments);
    }
}

// Writes the file of the unit to the front of the lent bytes; the others stay as before.
pub fn write(u: FunctionUnit, out: &mut [u8]) -> Result<u32, Refusal>
    ensures value { result ≡ write_answer u (length out.old) }
    ensures out_after { out.new ≡ write_out u out.old }
{
    if !unit::sound(u) {
        return Err(Refusal::NotSound);
    }
    let size = table_start(u.functions, u.segments, u.functions);
    if out.len() < size {
        return Err(Refusal::ShortOutput);
    }
    write_header(out, u.functions, u.segments, u.columns);
    write_offsets(&mut out[4..], u.functions, u.segments);
    write_tables(out, u);
    Ok(size as u32)
}
