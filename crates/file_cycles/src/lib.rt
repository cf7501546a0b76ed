// The greedy and the best cycle of a function of a lent unit file. A call answers 0 or the number of its refusal. Every function here is
// proved; the public ones are total and without a `requires`.
#![tactic(auto)]

ghost use Rattle.std.specs.Prelude.{◌≡◌, ◌≤◌, length, Ok};
ghost use Rattle.words.specs.Bytes.{narrow};
ghost use Rattle.unit.specs.Numbers.{number_in};
ghost use Rattle.unit.specs.Calls.{handed};
ghost use Rattle.unit_file.specs.Read.{table_in};
ghost use Rattle.collision.specs.Pipeline.{total};
ghost use Rattle.diagram.specs.Answers.{written};
ghost use Rattle.cycles.specs.Greedy.{greedy_of, WorkAfter};
ghost use Rattle.file_cycles.specs.Cycles.{cycle_refusal, SearchHanded};
ghost use Rattle.file_cycles.specs.Inner.{read_then, cycle_told, cycle_count, cycle_sum, search_check, plan_front};

use cycles::Counted;
use unit::{Plan, Refusal, Tag};
use words::byte;

// Hands out a cycle's count and sum, or answers the number of the refusal: the file's, else that of the cycle.
fn hand_cycle(
    read: Result<(), Refusal>,
    found: Result<Counted, Refusal>,
    count: &mut u32,
    sum: &mut u32,
) -> u32
    ensures value { result ≡ cycle_told (read_then read found) }
    ensures count_after { count.new ≡ cycle_count (read_then read found) count.old }
    ensures sum_after { sum.new ≡ cycle_sum (read_then read found) sum.old }
{
    match read.and(found) {
        Ok(counted) => {
            *count = counted.count;
            *sum = counted.sum;
            0
        }
        Err(why) => u32::from(why),
    }
}

// The greedy cycle: its latencies, their number and their sum. A refused file's unit is refused too, so that nothing is written.
pub fn greedy(
    file: &[u8],
    tag: u32,
    work: &mut [u32],
    out: &mut [u8],
    count: &mut u32,
    sum: &mut u32,
) -> u32
    ensures value { result ≡ number_in (cycle_refusal file.now tag (length work.old) (length out.old)) }
    ensures out_after { out.new ≡ written (cycle_refusal file.now tag (length work.old) (length out.old)) (greedy_of 1 (table_in file.now) (narrow tag)) out.old }
    ensures count_after { count.new ≡ handed (cycle_refusal file.now tag (length work.old) (length out.old)) (length (greedy_of 1 (table_in file.now) (narrow tag))) count.old }
    ensures sum_after { sum.new ≡ handed (cycle_refusal file.now tag (length work.old) (length out.old)) (total (greedy_of 1 (table_in file.now) (narrow tag))) sum.old }
    ensures work_after { WorkAfter (cycle_refusal file.now tag (length work.old) (length out.old)) work.old work.new }
{
    let back = unit_file::read(file);
    let read = back.answer;
    let found = cycles::greedy(back.unit, Tag(byte(tag)), work, out);
    hand_cycle(read, found, count, sum)
}

// What the search tries before it is made: the file, the tag, the working words and the room for the cycle.
fn check_search(
    read: Result<(), Refusal>,
    tagged: Result<(), Refusal>,
    work: usize,
    out: usize,
) -> Result<(), Refusal>
    ensures { result ≡ search_check read tagged work out }
{
    read?;
    tagged?;
    if work < 16000 {
        return Err(Refusal::ShortWork);
    }
    if out < 256 {
        return Err(Refusal::ShortOutput);
    }
    Ok(())
}

// Hands out the cycle of a plan that was found: its latencies, their number and their sum.
fn hand_plan(
    answer: Result<(), Refusal>,
    plan: Plan,
    out: &mut [u8],
    count: &mut u32,
    sum: &mut u32,
) -> u32
    requires { answer ≡ Ok tt → plan.count ≤ length plan.latencies }
    ensures value { result ≡ number_in answer }
    ensures out_after { out.new ≡ handed answer (plan_front plan out.old) out.old }
    ensures count_after { count.new ≡ handed answer plan.count count.old }
    ensures sum_after { sum.new ≡ handed answer plan.sum sum.old }
{
    let Ok(()) = answer else {
        return unit::number_in(answer) as u32;
    };
    let latencies = plan.latencies;
    let length = plan.count as usize;
    text::put(out, 0, &latencies[..length]);
    *count = plan.count as u32;
    *sum = plan.sum as u32;
    0
}

// The best cycle: its latencies, their number and their sum.
pub fn search(
    file: &[u8],
    tag: u32,
    work: &mut [u32],
    out: &mut [u8],
    count: &mut u32,
    sum: &mut u32,
) -> u32
    ensures { SearchHanded file.now tag work.old work.new out.old out.new count.old count.new sum.old sum.new result }
{
    let mut held = unit_file::read(file);
    let mut answer = held.answer;
    let asked = Tag(byte(tag));
    let tagged = unit::check_tag(held.unit, asked);
    answer = check_search(answer, tagged, work.len(), out.len());
    let Ok(()) = answer else {
        return unit::number_in(answer) as u32;
    };
    held = planner::search(held.unit, asked, work);
    answer = held.answer;
    hand_plan(answer, held.unit.plan, out, count, sum)
}
