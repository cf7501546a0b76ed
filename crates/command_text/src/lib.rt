// The line that says a command of the designer's console, and the line that says what was expected. A command that is written so and parsed is the
// command again (proofs/RoundTrip.antt). Every public function here is proved, total and without a `requires`.
#![tactic(auto)]

ghost use Rattle.std.specs.Prelude.{◌≡◌, ◌+◌, ◌≤◌, length};
ghost use Rattle.text.specs.Text.{spaced, put_in, put_end};
ghost use Rattle.text.specs.Wrote.{Wrote};
ghost use Rattle.command_table.specs.Commands.{name_at};
ghost use Rattle.command_text.specs.Written.{expected, trouble_text};

use command::Trouble;

// Puts the command of a row of the table: its name, and its numbers in decimal, each after a space. The name, or the numbers, are left out where they
// do not fit.
pub fn put_command(out: &mut [u8], at: usize, row: usize, numbers: &[u32]) -> usize
    ensures value { result ≡ put_end (put_in out.old at (name_at row)) (put_end out.old at (name_at row)) (spaced numbers.now) }
    ensures out_after { out.new ≡ put_in (put_in out.old at (name_at row)) (put_end out.old at (name_at row)) (spaced numbers.now) }
{
    let end = command_table::put_name(out, at, row);
    text::put_words(out, end, numbers)
}

// The usage of a command.
fn put_usage(out: &mut [u8], at: usize, row: usize) -> usize
    requires { at + 54 ≤ length out.old }
    ensures { Wrote out.old at (expected (Trouble.Usage row)) out.new result }
{
    let after_word = text::put(out, at, b"expected ");
    command_table::put_usage(out, after_word, row)
}

// What was expected.
fn put_expected(out: &mut [u8], at: usize, trouble: Trouble) -> usize
    requires { at + 54 ≤ length out.old }
    ensures { Wrote out.old at (expected trouble) out.new result }
{
    match trouble {
        Trouble::TooLong => text::put(out, at, b"too long"),
        Trouble::NoCommand => text::put(out, at, b"expected a command"),
        Trouble::Usage(row) => put_usage(out, at, row),
    }
}

// The whole line, in bytes that have room for it.
fn write_trouble(line: &mut [u8], number: u32, trouble: Trouble) -> usize
    requires { 72 ≤ length line.old }
    ensures { Wrote line.old 0 (trouble_text number trouble) line.new result }
{
    let after_word = text::put(line, 0, b"line ");
    let after_number = text::put_number(line, after_word, number);
    let after_colon = text::put(line, after_number, b": ");
    let after_text = put_expected(line, after_colon, trouble);
    text::put(line, after_text, b"\n")
}

// Puts `line N: ` and what was expected, and the end of the line. A text that does not fit is left out.
pub fn put_trouble(out: &mut [u8], at: usize, number: u32, trouble: Trouble) -> usize
    ensures value { result ≡ put_end out.old at (trouble_text number trouble) }
    ensures out_after { out.new ≡ put_in out.old at (trouble_text number trouble) }
{
    let mut line = [0u8; 72];
    let end = write_trouble(&mut line, number, trouble);
    text::put(out, at, &line[..end])
}
