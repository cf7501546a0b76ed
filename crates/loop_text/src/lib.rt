// The line that answers the console's `loop`: the latencies of a loop over several functions, or why there are none.
// Every public function here is proved, total and without a `requires`.
#![tactic(auto)]

ghost use Rattle.std.specs.Prelude.{◌++◌, ◌≤◌, length};
ghost use Rattle.text.specs.Text.{ascii, decimal, spaced};
ghost use Rattle.text.specs.Wrote.{Wrote};
ghost use Rattle.listing.specs.Lines.{newline};
ghost use Rattle.command.specs.Lines.{tags_in};
ghost use Rattle.session.specs.Sessions.{Line};
ghost use Rattle.loop_text.specs.Told.{LoopTold};
ghost use Rattle.loop_text.specs.Inner.{held_line};

use unit::{FunctionUnit, Plan};

// The latencies of a loop, and their sum.
fn write_loop(line: &mut [u8], latencies: &[u8], sum: u32) -> usize
    requires { (length latencies.now ≤ 256) × (2048 ≤ length line.old) }
    ensures { Wrote line.old 0 (ascii "loop cycle" ++ spaced latencies.now ++ ascii " sum " ++ decimal sum ++ newline) line.new result }
{
    let after_word = text::put(line, 0, b"loop cycle");
    let after_latencies = text::put_bytes(line, after_word, latencies);
    let after_name = text::put(line, after_latencies, b" sum ");
    let after_sum = text::put_number(line, after_name, sum);
    text::put(line, after_sum, b"\n")
}

// The latencies that a plan holds.
fn put_loop(out: &mut [u8], plan: Plan) -> usize
    requires { plan.count ≤ 256 }
    ensures { Line (held_line plan) out.old out.new result }
{
    let mut line = [0u8; 2048];
    let latencies = plan.latencies;
    let count = plan.count as usize;
    let end = write_loop(&mut line, &latencies[..count], plan.sum as u32);
    text::put(out, 0, &line[..end])
}

// The latencies for some tags, found in working words of its own.
fn tell(u: FunctionUnit, tags: &[u8], out: &mut [u8]) -> usize
    ensures { LoopTold u tags.now out.old out.new result }
{
    let mut work = [0u32; 16000];
    match loops::search(u, tags, &mut work) {
        Err(why) => session::put_answer(out, Err(why)),
        Ok(plan) => put_loop(out, plan),
    }
}

// Puts the line that answers a `loop` with the tags of a line. Nine of them suffice, since more than eight are refused.
pub fn answer(u: FunctionUnit, line: &[u8], out: &mut [u8]) -> usize
    ensures { LoopTold u (tags_in line.now) out.old out.new result }
{
    let mut tags = [0u8; 9];
    let count = command::tags(line, &mut tags);
    tell(u, &tags[..count], out)
}
