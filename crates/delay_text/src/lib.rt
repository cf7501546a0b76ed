// What the console does with delay columns: the table of the unit that they make, and its unit file.
// Every public function here is proved, total and without a `requires`.
#![tactic(auto)]

ghost use Rattle.std.specs.Prelude.{◌≡◌, length};
ghost use Rattle.delay_text.specs.Shown.{delayed_table_answer, delayed_table_out, delayed_file_answer, delayed_file_out};

use unit::{FunctionUnit, Refusal, Tag};

// The table of the unit with delays, in front of the lent bytes; the others stay as before.
pub fn draw(u: FunctionUnit, tag: Tag, latency: u8, out: &mut [u8]) -> Result<u32, Refusal>
    ensures value { result ≡ delayed_table_answer u tag.0 latency (length out.old) }
    ensures out_after { out.new ≡ delayed_table_out u tag.0 latency out.old }
{
    let made = delays::delays(u, tag, latency);
    made.answer?;
    drawing::table(made.unit, Tag(1), out)
}

// The file of the unit with delays, in front of the lent bytes; the others stay as before.
pub fn write(u: FunctionUnit, tag: Tag, latency: u8, out: &mut [u8]) -> Result<u32, Refusal>
    ensures value { result ≡ delayed_file_answer u tag.0 latency (length out.old) }
    ensures out_after { out.new ≡ delayed_file_out u tag.0 latency out.old }
{
    let delayed = delays::delays(u, tag, latency);
    delayed.answer?;
    unit_writer::write(delayed.unit, out)
}
