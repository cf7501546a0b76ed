// Units made and edited in a lent unit file. A call answers 0 or the number of its refusal. Every function here is proved; the public
// ones are total and without a `requires`.
#![tactic(auto)]

ghost use Rattle.std.specs.Prelude.{◌≡◌, length};
ghost use Rattle.words.specs.Bytes.{narrow};
ghost use Rattle.unit.specs.Numbers.{number_in};
ghost use Rattle.unit.specs.Calls.{and_then, handed};
ghost use Rattle.unit_file.specs.File.{file_length};
ghost use Rattle.unit_file.specs.Write.{file_in_front, write_out};
ghost use Rattle.file_edits.specs.Edits.{fresh_refusal, fresh_file, edit_refusal, marked_file, unmarked_file};

use unit::{Outcome, Refusal, Segment, Tag};
use words::byte;

// Writes the file of a unit without marks to the front of the lent bytes, and hands out its length.
pub fn fresh(functions: u32, segments: u32, columns: u32, out: &mut [u8], size: &mut u32) -> u32
    ensures value { result ≡ number_in (fresh_refusal functions segments columns (length out.old)) }
    ensures out_after { out.new ≡ file_in_front (fresh_refusal functions segments columns (length out.old)) (fresh_file functions segments columns) out.old }
    ensures size_after { size.new ≡ handed (fresh_refusal functions segments columns (length out.old)) (file_length (narrow functions) (narrow segments)) size.old }
{
    let made = unit::fresh(byte(functions), byte(segments), byte(columns));
    let written = unit_writer::write(made.unit, out);
    match written {
        Ok(bytes) => {
            *size = bytes;
            0
        }
        Err(why) => u32::from(why),
    }
}

// Writes an edited unit over its file. A refused file stays as it was, and so does that of a refused edit.
fn write_back(read: Result<(), Refusal>, made: Outcome, file: &mut [u8]) -> u32
    ensures value { result ≡ number_in (and_then read made.answer) }
    ensures file_after { file.new ≡ handed (and_then read made.answer) (write_out made.unit file.old) file.old }
{
    if let Err(why) = read.and(made.answer) {
        return u32::from(why);
    }
    let _ = unit_writer::write(made.unit, file);
    0
}

// Sets one mark in the file.
pub fn mark(file: &mut [u8], tag: u32, segment: u32, column: u32) -> u32
    ensures value { result ≡ number_in (edit_refusal file.old tag segment column) }
    ensures file_after { file.new ≡ handed (edit_refusal file.old tag segment column) (marked_file file.old tag segment column) file.old }
{
    let mut u = unit_file::read(file);
    let read = u.answer;
    u = edits::mark(u.unit, Tag(byte(tag)), Segment(byte(segment)), byte(column));
    write_back(read, u, file)
}

// Clears one mark in the file.
pub fn unmark(file: &mut [u8], tag: u32, segment: u32, column: u32) -> u32
    ensures value { result ≡ number_in (edit_refusal file.old tag segment column) }
    ensures file_after { file.new ≡ handed (edit_refusal file.old tag segment column) (unmarked_file file.old tag segment column) file.old }
{
    let mut u = unit_file::read(file);
    let read = u.answer;
    u = edits::unmark(u.unit, Tag(byte(tag)), Segment(byte(segment)), byte(column));
    write_back(read, u, file)
}
