// The drawing of a function's reservation table as text in a lent area.
// Every public function here is proved, total and without a `requires`.
#![tactic(auto)]

mod tables;

ghost use Rattle.std.specs.Prelude.{◌≡◌, length};
ghost use Rattle.drawing.specs.Answers.{table_answer, table_out};

use unit::{FunctionUnit, Refusal, Tag};

// An area of this length suffices for every table.
pub const TABLE: usize = 1700;

// The reservation table of a function.
pub fn table(u: FunctionUnit, tag: Tag, out: &mut [u8]) -> Result<u32, Refusal>
    ensures value { result ≡ table_answer u tag.0 (length out.old) }
    ensures out_after { out.new ≡ table_out u tag.0 out.old }
{
    unit::check_tag(u, tag)?;
    if out.len() < tables::length_of(u.segments, u.columns) {
        return Err(Refusal::ShortOutput);
    }
    let marks = columns::columns_of(u, tag);
    let end = tables::put_lines(out, marks, u.segments as u32, u.columns as u32);
    Ok(end as u32)
}
