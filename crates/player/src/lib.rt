// Plays a list of mark, unmark, search and read calls over the calls themselves, so that the claim over every list of calls (`EveryList`, crate
// planner) speaks of running code. A call is four bytes and a reply 262 (specs/Play.antt); what was written is what the sheet says
// (proofs/PlayedLaws.antt). Every function here is proved, and no public function has a `requires`.
#![tactic(auto)]

ghost use Rattle.std.specs.Prelude.{◌≡◌, ◌∷◌, min, length};
ghost use Rattle.player.specs.Play.{plan_bytes, call_of, Played};
ghost use Rattle.player.specs.Inner.{Told, Turned};

use unit::{FunctionUnit, Outcome, Plan, Segment, Tag};

// What one call leaves: the refusal's number or 0, the plan that was handed out or no plan, and the unit.
#[derive(Clone, Copy)]
struct Turn {
    number: u8,
    plan: Plan,
    unit: FunctionUnit,
}

fn smaller(a: usize, b: usize) -> usize
    ensures { result ≡ min a b }
{
    if a < b { a } else { b }
}

// What a call that hands out no plan leaves.
fn told(outcome: Outcome) -> Turn
    ensures { Told outcome result.number result.plan result.unit }
{
    let answer = outcome.answer;
    let left = outcome.unit;
    let number = unit::number_in(answer);
    let plan = unit::no_plan();
    Turn {
        number,
        plan,
        unit: left,
    }
}

// Plays one call.
fn one(u: FunctionUnit, kind: u8, tag: u8, segment: u8, column: u8, work: &mut [u32]) -> Turn
    ensures { Turned u (call_of (length work.old) kind tag segment column) work.old work.new result.number result.plan result.unit }
{
    if kind == 0 {
        return told(edits::mark(u, Tag(tag), Segment(segment), column));
    }
    if kind == 1 {
        return told(edits::unmark(u, Tag(tag), Segment(segment), column));
    }
    if kind == 2 {
        return told(planner::search(u, Tag(tag), work));
    }
    match planner::read(u) {
        Ok(plan) => Turn {
            number: 0,
            plan,
            unit: u,
        },
        Err(why) => Turn {
            number: u8::from(why),
            plan: unit::no_plan(),
            unit: u,
        },
    }
}

// Writes a reply: its number, then the plan's tag, K and S, low byte first, and the plan's bytes.
fn put_reply(out: &mut [u8], number: u8, plan: Plan)
    requires { length out.old ≡ 262 }
    ensures { out.new ≡ number ∷ plan_bytes plan }
{
    let latencies = plan.latencies;
    out[0] = number;
    out[1] = plan.tag;
    out[2] = (plan.count % 256) as u8;
    out[3] = (plan.count / 256) as u8;
    out[4] = (plan.sum % 256) as u8;
    out[5] = (plan.sum / 256) as u8;
    out[6..].copy_from_slice(&latencies);
}

// Plays as many of the calls as have room for their replies, from a fresh unit of the three counts, each on the unit as
// the one before left it. Where the counts are refused, every call is. It answers how many it played.
pub fn play(
    functions: u8,
    segments: u8,
    columns: u8,
    calls: &[u8],
    work: &mut [u32],
    out: &mut [u8],
) -> usize
    ensures { Played functions segments columns calls.now out.old out.new work.old work.new result }
{
    let fresh = unit::fresh(functions, segments, columns);
    let most = smaller(calls.len() / 4, out.len() / 262);
    let mut u = fresh.unit;
    for n in 0..most {
        let kind = calls[n * 4];
        let tag = calls[n * 4 + 1];
        let segment = calls[n * 4 + 2];
        let column = calls[n * 4 + 3];
        let played = one(u, kind, tag, segment, column, work);
        let number = played.number;
        let plan = played.plan;
        let left = played.unit;
        let at = n * 262;
        let end = at + 262;
        put_reply(&mut out[at..end], number, plan);
        u = left;
    }
    most
}
