// The listing of a unit, or of a unit file, as text in a lent area: for each function its collision vector, bound and upper, the number of
// states, the greedy and the best cycle, and the constant latency. Every public function here is proved, total and without a `requires`.
#![tactic(auto)]

mod function;
mod lines;

ghost use Rattle.std.specs.Prelude.{◌≡◌, true, ◌≤◌, length};
ghost use Rattle.unit.specs.Unit.{sound_of};
ghost use Rattle.listing.specs.Lines.{refused_line};
ghost use Rattle.listing.specs.Listing.{room_answer, Printed, UnitListed, FileListed};
ghost use Rattle.listing.specs.Inner.{ToldAll};

use unit::{FunctionUnit, Refusal, Tag};

// A text area of this length suffices for every unit and every file.
pub const AREA: usize = 8888;

// The lines of all functions of a sound unit.
fn put_functions(out: &mut [u8], u: FunctionUnit) -> usize
    requires { (sound_of u ≡ true) × (8888 ≤ length out.old) }
    ensures { ToldAll u u.functions out.old out.new result }
{
    let mut at = 0;
    for tag in 0..u.functions {
        at = function::put_function(out, at, u, Tag(tag + 1));
    }
    at
}

// Copies the text to the front of the area, if it has the room.
fn hand_out(words: &[u8], out: &mut [u8]) -> Result<u32, Refusal>
    requires { length words.now ≤ 8888 }
    ensures { Printed (room_answer words.now (length out.old)) words.now out.old out.new result }
{
    if out.len() < words.len() {
        return Err(Refusal::ShortOutput);
    }
    text::put(out, 0, words);
    let length = words.len() as u32;
    Ok(length)
}

// The one line of a refused file.
fn list_refusal(why: Refusal, out: &mut [u8]) -> Result<u32, Refusal>
    ensures { Printed (room_answer (refused_line why) (length out.old)) (refused_line why) out.old out.new result }
{
    let mut line = [0u8; 32];
    let end = lines::put_line(&mut line, 0, b"refused ", u32::from(why));
    hand_out(&line[..end], out)
}

// Lists a unit.
pub fn list_unit(u: FunctionUnit, out: &mut [u8]) -> Result<u32, Refusal>
    ensures { UnitListed u out.old out.new result }
{
    if !unit::sound(u) {
        return Err(Refusal::NotSound);
    }
    let mut all = [0u8; AREA];
    let end = put_functions(&mut all, u);
    hand_out(&all[..end], out)
}

// Lists the unit of a file; a file that is refused has one line, with the number of the refusal.
pub fn list_file(file: &[u8], out: &mut [u8]) -> Result<u32, Refusal>
    ensures { FileListed file.now out.old out.new result }
{
    let outcome = unit_file::read(file);
    let answer = outcome.answer;
    match answer {
        Err(why) => list_refusal(why, out),
        Ok(()) => list_unit(outcome.unit, out),
    }
}
