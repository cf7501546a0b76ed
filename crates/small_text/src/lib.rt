// What the console's `small` does: it tells the totals of a size of small tables, or takes the table of a number as the unit.
// Every public function here is proved, total and without a `requires`.
#![tactic(auto)]

ghost use Rattle.std.specs.Prelude.{◌++◌, ◌+◌, ◌≤◌, length};
ghost use Rattle.text.specs.Text.{decimal};
ghost use Rattle.text.specs.Wrote.{Wrote, Put};
ghost use Rattle.session.specs.Sessions.{Line};
ghost use Rattle.small_text.specs.Told.{totals_line, totalled_line, TotalsTold, SmallOn};

use command::Request;
use session::{Reply, Session};
use table_totals::SizeTotals;
use unit::Refusal;
use words::byte;

// A word and the number after it.
fn put_labelled(line: &mut [u8], at: usize, word: &[u8], number: u32) -> usize
    requires { (length word.now ≤ 10) × (at + 20 ≤ length line.old) }
    ensures { Put 20 line.old at (word.now ++ decimal number) line.new result }
{
    let after_word = text::put(line, at, word);
    text::put_number(line, after_word, number)
}

// The totals in one line.
fn write_totals(line: &mut [u8], totals: SizeTotals) -> usize
    requires { 128 ≤ length line.old }
    ensures { Wrote line.old 0 (totals_line totals) line.new result }
{
    let after_tables = put_labelled(line, 0, b"tables ", totals.tables);
    let after_reaching = put_labelled(line, after_tables, b" at bound ", totals.reaching);
    let after_numerator = put_labelled(line, after_reaching, b" largest ", totals.numerator);
    let after_denominator = put_labelled(line, after_numerator, b"/", totals.denominator);
    let after_first = put_labelled(line, after_denominator, b" first ", totals.first);
    text::put(line, after_first, b"\n")
}

fn put_line(out: &mut [u8], totals: SizeTotals) -> usize
    ensures { Line (totals_line totals) out.old out.new result }
{
    let mut line = [0u8; 128];
    let end = write_totals(&mut line, totals);
    text::put(out, 0, &line[..end])
}

// The totals, or `refused` and the number.
pub fn put_totals(out: &mut [u8], totalled: Result<SizeTotals, Refusal>) -> usize
    ensures { Line (totalled_line totalled) out.old out.new result }
{
    match totalled {
        Ok(totals) => put_line(out, totals),
        Err(why) => session::put_answer(out, Err(why)),
    }
}

// Tells the totals of a size, found in working words of its own.
fn tell(session: Session, request: Request, out: &mut [u8]) -> Reply
    ensures { TotalsTold session request out.old out.new result }
{
    let mut work = [0u32; 16000];
    let totalled = table_totals::totals(byte(request.first), byte(request.second), &mut work);
    let end = put_totals(out, totalled);
    Reply { session, end }
}

// The totals of a size, or, where there is a third number, its table as the unit.
pub fn answer(session: Session, request: Request, out: &mut [u8]) -> Reply
    ensures { SmallOn session request out.old out.new result }
{
    if request.count < 3 {
        return tell(session, request, out);
    }
    let made = table_numbers::table(byte(request.first), byte(request.second), request.third);
    session::take_unit(session, made, out)
}
