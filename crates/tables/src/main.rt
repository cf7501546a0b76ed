// Runs the calls on the tables of the papers and prints a line for each answer. The file stdout beside it holds the answers
// that follow from the papers, worked out by hand.
#![tactic(auto)]

ghost use Rattle.std.specs.Prelude.{◌≡◌, length};

use callers::{Counts, Shared};
use controller::{Bank, Event};
use queue::{Joined, Queue, Waiting};
use simulator::UnitPlayed;
use std::io;
use std::io::Print;
use table_totals::SizeTotals;
use unit::{FunctionUnit, Outcome, Plan, Refusal, Segment, Tag};

// Printing.

fn end_line(rt: &impl Print) -> io::Result<()> {
    rt.write_all(b"\n")
}

// The number comes after a word, so a space is in front of it.
fn print_number(rt: &impl Print, number: u32) -> io::Result<()> {
    print!(rt; " {number}")
}

fn print_refusal(rt: &impl Print, why: Refusal) -> io::Result<()> {
    rt.write_all(b" refused")?;
    print_number(rt, u32::from(why))
}

fn print_answer(rt: &impl Print, answer: Result<(), Refusal>) -> io::Result<()> {
    match answer {
        Ok(()) => { rt.write_all(b" done") }
        Err(why) => print_refusal(rt, why),
    }
}

fn print_asked(rt: &impl Print, asked: Result<u32, Refusal>) -> io::Result<()> {
    match asked {
        Ok(number) => print_number(rt, number),
        Err(why) => print_refusal(rt, why),
    }
}

fn print_verdict(rt: &impl Print, verdict: Result<bool, Refusal>) -> io::Result<()> {
    match verdict {
        Ok(true) => { rt.write_all(b" yes") }
        Ok(false) => { rt.write_all(b" no") }
        Err(why) => print_refusal(rt, why),
    }
}

fn print_column(rt: &impl Print, word: u32, index: u32) -> io::Result<()> {
    if words::test(word, index) {
        rt.write_all(b"1")
    } else {
        rt.write_all(b"0")
    }
}

// The columns of a vector or a row, the highest first.
fn print_columns(rt: &impl Print, word: u32, columns: u32) -> io::Result<()> {
    rt.write_all(b" ")?;
    for index in (0..columns).rev() {
        print_column(rt, word, index)?;
    }
    Ok(())
}

fn print_vector(rt: &impl Print, asked: Result<u32, Refusal>) -> io::Result<()> {
    match asked {
        Ok(word) => {
            if word == 0 {
                rt.write_all(b" -")
            } else {
                print_columns(rt, word, diagram::width_of(word))
            }
        }
        Err(why) => print_refusal(rt, why),
    }
}

fn print_row(rt: &impl Print, asked: Result<u32, Refusal>) -> io::Result<()> {
    match asked {
        Ok(word) => print_columns(rt, word, 4),
        Err(why) => print_refusal(rt, why),
    }
}

fn print_byte(rt: &impl Print, byte: u8) -> io::Result<()> {
    print_number(rt, byte as u32)
}

fn print_cycle(rt: &impl Print, cycle: &[u8]) -> io::Result<()> {
    for latency in cycle {
        print_byte(rt, *latency)?;
    }
    Ok(())
}

// The first latencies of a list and their sum.
fn print_counted(rt: &impl Print, list: &[u8], count: usize, sum: u32) -> io::Result<()> {
    if count <= list.len() {
        print_cycle(rt, &list[..count])?;
        rt.write_all(b" sum")?;
        print_number(rt, sum)?;
    }
    Ok(())
}

fn print_plan(rt: &impl Print, plan: Plan) -> io::Result<()> {
    let latencies = plan.latencies;
    print_counted(rt, &latencies, plan.count as usize, plan.sum as u32)
}

// Units.

fn unit_of(functions: u8, segments: u8, columns: u8) -> FunctionUnit {
    let made = unit::fresh(functions, segments, columns);
    made.unit
}

fn with_mark(u: FunctionUnit, tag: u8, segment: u8, column: u8) -> FunctionUnit {
    let made = edits::mark(u, Tag(tag), Segment(segment), column);
    made.unit
}

// Adds the marks of a function in one segment, from the list of their columns.
fn with_row(u: FunctionUnit, tag: u8, segment: u8, columns: &[u8]) -> FunctionUnit {
    let mut made = u;
    for column in columns {
        made = with_mark(made, tag, segment, *column);
    }
    made
}

fn figure_1() -> FunctionUnit {
    let mut u = unit_of(1, 5, 9);
    u = with_row(u, 1, 1, b"\x01\x09");
    u = with_row(u, 1, 2, b"\x02\x03\x08");
    u = with_row(u, 1, 3, b"\x04");
    u = with_row(u, 1, 4, b"\x05\x06");
    with_row(u, 1, 5, b"\x07\x08")
}

// A has the tag 1, B the tag 2.
fn figure_2() -> FunctionUnit {
    let mut u = unit_of(2, 3, 5);
    u = with_row(u, 1, 1, b"\x01\x04");
    u = with_row(u, 1, 2, b"\x02");
    u = with_row(u, 1, 3, b"\x03\x05");
    u = with_row(u, 2, 1, b"\x02\x05");
    u = with_row(u, 2, 2, b"\x04");
    with_row(u, 2, 3, b"\x01\x03")
}

fn three_segments() -> FunctionUnit {
    let mut u = unit_of(1, 3, 7);
    u = with_row(u, 1, 1, b"\x01\x03");
    u = with_row(u, 1, 2, b"\x01\x04");
    with_row(u, 1, 3, b"\x01\x07")
}

// A unit of one function and one segment, from the columns of its marks.
fn one_segment(columns: &[u8]) -> FunctionUnit {
    with_row(unit_of(1, 1, 16), 1, 1, columns)
}

// Questions about the function of tag 1: each prints one line, the name of the table first.

fn begin(rt: &impl Print, name: &[u8], question: &[u8]) -> io::Result<()> {
    rt.write_all(name)?;
    rt.write_all(question)
}

fn show_vector(rt: &impl Print, name: &[u8], u: FunctionUnit) -> io::Result<()> {
    begin(rt, name, b" vector")?;
    print_vector(rt, collision::vector(u, Tag(1)))?;
    end_line(rt)
}

fn show_bound(rt: &impl Print, name: &[u8], u: FunctionUnit) -> io::Result<()> {
    begin(rt, name, b" bound")?;
    print_asked(rt, measures::bound(u, Tag(1)))?;
    rt.write_all(b" most marks")?;
    print_asked(rt, measures::marks(u, Tag(1)))?;
    end_line(rt)
}

fn show_bounds(rt: &impl Print, name: &[u8], u: FunctionUnit) -> io::Result<()> {
    begin(rt, name, b" bound")?;
    print_asked(rt, measures::bound(u, Tag(1)))?;
    rt.write_all(b" upper")?;
    print_asked(rt, measures::upper(u, Tag(1)))?;
    end_line(rt)
}

fn show_constant(rt: &impl Print, name: &[u8], u: FunctionUnit) -> io::Result<()> {
    begin(rt, name, b" constant")?;
    print_asked(rt, measures::constant(u, Tag(1)))?;
    end_line(rt)
}

fn show_states(rt: &impl Print, name: &[u8], u: FunctionUnit) -> io::Result<()> {
    let mut states = [0u32; 256];
    let asked = state_list::states(u, Tag(1), &mut states);
    begin(rt, name, b" states")?;
    print_asked(rt, asked)?;
    end_line(rt)
}

// The working words that a search and the greedy walk ask for.
fn room() -> [u32; 16000]
    ensures { 16000 ≡ length result }
{
    [0; 16000]
}

// One word too few.
fn short_room() -> [u32; 15999]
    ensures { 15999 ≡ length result }
{
    [0; 15999]
}

fn show_greedy(rt: &impl Print, name: &[u8], u: FunctionUnit) -> io::Result<()> {
    let mut work = room();
    let mut cycle = [0u8; 256];
    let asked = cycles::greedy(u, Tag(1), &mut work, &mut cycle);
    begin(rt, name, b" greedy")?;
    match asked {
        Ok(counted) => { print_counted(rt, &cycle, counted.count as usize, counted.sum)? }
        Err(why) => print_refusal(rt, why)?,
    }
    end_line(rt)
}

fn searched(u: FunctionUnit) -> Outcome {
    let mut work = room();
    planner::search(u, Tag(1), &mut work)
}

fn print_read(rt: &impl Print, u: FunctionUnit) -> io::Result<()> {
    match planner::read(u) {
        Ok(plan) => print_plan(rt, plan),
        Err(why) => print_refusal(rt, why),
    }
}

fn print_found(rt: &impl Print, found: Outcome) -> io::Result<()> {
    let answer = found.answer;
    let planned = found.unit;
    match answer {
        Ok(()) => print_read(rt, planned),
        Err(why) => print_refusal(rt, why),
    }
}

fn show_best(rt: &impl Print, name: &[u8], u: FunctionUnit) -> io::Result<()> {
    begin(rt, name, b" best")?;
    print_found(rt, searched(u))?;
    end_line(rt)
}

fn show_search(rt: &impl Print, name: &[u8], u: FunctionUnit) -> io::Result<()> {
    let found = searched(u);
    begin(rt, name, b" search")?;
    let answer = found.answer;
    print_answer(rt, answer)?;
    end_line(rt)
}

fn show_read(rt: &impl Print, name: &[u8], u: FunctionUnit) -> io::Result<()> {
    begin(rt, name, b" read")?;
    print_read(rt, u)?;
    end_line(rt)
}

fn print_judged(rt: &impl Print, u: FunctionUnit, list: &[u8], count: usize) -> io::Result<()> {
    if count <= list.len() {
        rt.write_all(b" judge")?;
        print_verdict(rt, judge::judge(u, Tag(1), &list[..count]))?;
    }
    Ok(())
}

// Where several cycles share the least average, the papers leave free which of them is the plan. They fix its average, and that
// it never collides.
fn print_average(rt: &impl Print, u: FunctionUnit, plan: Plan) -> io::Result<()> {
    let count = plan.count as u32;
    let sum = plan.sum as u32;
    if count == 0 {
        return Ok(());
    }
    print_number(rt, sum / count)?;
    rt.write_all(b" rest")?;
    print_number(rt, sum % count)?;
    let latencies = plan.latencies;
    print_judged(rt, u, &latencies, count as usize)
}

fn show_average(rt: &impl Print, name: &[u8], u: FunctionUnit) -> io::Result<()> {
    let found = searched(u);
    let planned = found.unit;
    let plan = planner::read(planned).unwrap_or(unit::no_plan());
    begin(rt, name, b" best average")?;
    print_average(rt, u, plan)?;
    end_line(rt)
}

fn show_judge(rt: &impl Print, name: &[u8], u: FunctionUnit, cycle: &[u8]) -> io::Result<()> {
    begin(rt, name, b" judge")?;
    if cycle.len() == 0 {
        rt.write_all(b" -")?;
    }
    print_cycle(rt, cycle)?;
    print_verdict(rt, judge::judge(u, Tag(1), cycle))?;
    end_line(rt)
}

fn show_mark(
    rt: &impl Print,
    name: &[u8],
    u: FunctionUnit,
    tag: u8,
    segment: u8,
    column: u8,
) -> io::Result<()> {
    let made = edits::mark(u, Tag(tag), Segment(segment), column);
    begin(rt, name, b" mark")?;
    print_byte(rt, tag)?;
    print_byte(rt, segment)?;
    print_byte(rt, column)?;
    let answer = made.answer;
    print_answer(rt, answer)?;
    end_line(rt)
}

// The tables.

fn try_figure_1(rt: &impl Print) -> io::Result<()> {
    let u = figure_1();
    show_vector(rt, b"fig 1", u)?;
    show_bounds(rt, b"fig 1", u)?;
    show_constant(rt, b"fig 1", u)?;
    show_states(rt, b"fig 1", u)?;
    show_greedy(rt, b"fig 1", u)?;
    show_best(rt, b"fig 1", u)
}

fn try_judge(rt: &impl Print) -> io::Result<()> {
    let u = figure_1();
    show_judge(rt, b"fig 1", u, b"\x03\x04")?;
    show_judge(rt, b"fig 1", u, b"\x02\x02\x07")?;
    show_judge(rt, b"fig 1", u, b"\x02")?;
    show_judge(rt, b"fig 1", u, b"")
}

fn show_row(
    rt: &impl Print,
    matrix: &[u8],
    row: &[u8],
    asked: Result<u32, Refusal>,
) -> io::Result<()> {
    begin(rt, b"fig 2 ", matrix)?;
    begin(rt, b" row ", row)?;
    print_row(rt, asked)?;
    end_line(rt)
}

fn try_figure_2(rt: &impl Print) -> io::Result<()> {
    let u = figure_2();
    show_row(rt, b"M_A", b"A", collision::matrix_row(u, Tag(1), Tag(1)))?;
    show_row(rt, b"M_A", b"B", collision::matrix_row(u, Tag(2), Tag(1)))?;
    show_row(rt, b"M_B", b"A", collision::matrix_row(u, Tag(1), Tag(2)))?;
    show_row(rt, b"M_B", b"B", collision::matrix_row(u, Tag(2), Tag(2)))
}

fn print_granted(rt: &impl Print, answer: Result<(), Refusal>) -> io::Result<()> {
    match answer {
        Ok(()) => { rt.write_all(b" granted") }
        Err(why) => print_refusal(rt, why),
    }
}

fn show_start(
    rt: &impl Print,
    u: FunctionUnit,
    bank: Bank,
    tag: u8,
    letter: &[u8],
) -> io::Result<Bank> {
    let stepped = controller::step(u, bank, Event::Start(Tag(tag)));
    begin(rt, b"fig 2 start ", letter)?;
    let answer = stepped.answer;
    print_granted(rt, answer)?;
    end_line(rt)?;
    Ok(stepped.bank)
}

fn show_tick(rt: &impl Print, u: FunctionUnit, bank: Bank) -> io::Result<Bank> {
    let stepped = controller::step(u, bank, Event::Tick);
    let answer = stepped.answer;
    begin(rt, b"fig 2", b" tick")?;
    if let Err(why) = answer {
        print_refusal(rt, why)?;
    }
    end_line(rt)?;
    Ok(stepped.bank)
}

fn empty_bank() -> Bank {
    Bank {
        r1: 0,
        r2: 0,
        r3: 0,
        r4: 0,
    }
}

// The cycle (B1, A3) of the figure: B one time unit after A, and A three after B, with starts tried in between.
fn try_controller(rt: &impl Print) -> io::Result<()> {
    let u = figure_2();
    let at_1 = show_start(rt, u, empty_bank(), 1, b"A")?;
    let at_2 = show_start(rt, u, at_1, 2, b"B")?;
    let same_2 = show_start(rt, u, at_2, 1, b"A")?;
    let still_2 = show_start(rt, u, same_2, 2, b"B")?;
    let at_3 = show_tick(rt, u, still_2)?;
    let same_3 = show_start(rt, u, at_3, 1, b"A")?;
    let at_4 = show_tick(rt, u, same_3)?;
    let same_4 = show_start(rt, u, at_4, 2, b"B")?;
    let at_5 = show_start(rt, u, same_4, 1, b"A")?;
    let same_5 = show_start(rt, u, at_5, 1, b"A")?;
    show_start(rt, u, same_5, 2, b"B")?;
    Ok(())
}

fn print_step(rt: &impl Print, played: UnitPlayed) -> io::Result<()> {
    let answer = played.answer;
    match answer {
        Err(why) => print_refusal(rt, why),
        Ok(()) => {
            if played.started {
                rt.write_all(b" start then")?;
            } else {
                rt.write_all(b" tick then")?;
            }
            print_number(rt, played.position as u32)
        }
    }
}

fn show_step(
    rt: &impl Print,
    what: &[u8],
    u: FunctionUnit,
    plan: Plan,
    position: u16,
    bank: Bank,
) -> io::Result<UnitPlayed> {
    let played = simulator::step(u, plan, position, bank);
    begin(rt, b"fig 1 step", what)?;
    print_step(rt, played)?;
    end_line(rt)?;
    Ok(played)
}

// The next step of a plan that is played.
fn show_next(
    rt: &impl Print,
    u: FunctionUnit,
    plan: Plan,
    before: UnitPlayed,
) -> io::Result<UnitPlayed> {
    show_step(rt, b"", u, plan, before.position, before.bank)
}

// A turn of the ring of 3 4, and the first unit of the next.
fn try_turn(rt: &impl Print, u: FunctionUnit, plan: Plan) -> io::Result<()> {
    let after_1 = show_step(rt, b"", u, plan, 0, empty_bank())?;
    let after_2 = show_next(rt, u, plan, after_1)?;
    let after_3 = show_next(rt, u, plan, after_2)?;
    let after_4 = show_next(rt, u, plan, after_3)?;
    let after_5 = show_next(rt, u, plan, after_4)?;
    let after_6 = show_next(rt, u, plan, after_5)?;
    let after_7 = show_next(rt, u, plan, after_6)?;
    show_next(rt, u, plan, after_7)?;
    show_step(rt, b" at 0 after a start", u, plan, 0, after_1.bank)?;
    Ok(())
}

// A plan of tag 0, whatever else it holds.
fn without_tag(plan: Plan) -> Plan {
    let latencies = plan.latencies;
    Plan {
        tag: 0,
        count: plan.count,
        sum: plan.sum,
        latencies,
    }
}

fn try_simulator(rt: &impl Print) -> io::Result<()> {
    let found = searched(figure_1());
    let u = found.unit;
    let plan = u.plan;
    try_turn(rt, u, plan)?;
    show_step(rt, b" at 7", u, plan, 7, empty_bank())?;
    show_step(rt, b" of tag 0", u, without_tag(plan), 7, empty_bank())?;
    let made = unit::fresh(5, 5, 9);
    show_step(
        rt,
        b" on no unit",
        made.unit,
        without_tag(plan),
        7,
        empty_bank(),
    )?;
    Ok(())
}

fn try_other_tables(rt: &impl Print) -> io::Result<()> {
    show_best(rt, b"marks 1 3 6", one_segment(b"\x01\x03\x06"))?;
    let u = three_segments();
    show_bound(rt, b"marks 1 3; 1 4; 1 7", u)?;
    show_best(rt, b"marks 1 3; 1 4; 1 7", u)?;
    let none = unit_of(1, 1, 1);
    show_vector(rt, b"no marks", none)?;
    show_bound(rt, b"no marks", none)?;
    show_best(rt, b"no marks", none)?;
    show_best(rt, b"marks 1 2", one_segment(b"\x01\x02"))
}

// Delay columns: the width that is reached, what is forbidden then, and whether the latency never collides.

fn print_delays(rt: &impl Print, made: Outcome, latency: u8) -> io::Result<()> {
    let answer = made.answer;
    let delayed = made.unit;
    match answer {
        Err(why) => print_refusal(rt, why),
        Ok(()) => {
            rt.write_all(b" columns")?;
            print_number(rt, delayed.columns as u32)?;
            rt.write_all(b" vector")?;
            print_vector(rt, collision::vector(delayed, Tag(1)))?;
            let cycle = [latency];
            print_judged(rt, delayed, &cycle, 1)
        }
    }
}

fn show_delays(
    rt: &impl Print,
    name: &[u8],
    u: FunctionUnit,
    tag: u8,
    latency: u8,
) -> io::Result<()> {
    begin(rt, name, b" delays")?;
    print_number(rt, latency as u32)?;
    print_delays(rt, delays::delays(u, Tag(tag), latency), latency)?;
    end_line(rt)
}

fn try_delays(rt: &impl Print) -> io::Result<()> {
    let u = with_row(unit_of(1, 1, 6), 1, 1, b"\x01\x03\x06");
    show_delays(rt, b"marks 1 3 6", u, 1, 3)?;
    show_delays(rt, b"marks 1 3 6", u, 1, 2)?;
    show_delays(rt, b"marks 1 3 6 of function 2", u, 2, 2)?;
    let crowded = with_row(unit_of(1, 2, 1), 1, 1, b"\x01");
    show_delays(rt, b"marks 1; 1", with_mark(crowded, 1, 2, 1), 1, 0)?;
    let wide = with_row(unit_of(1, 1, 32), 1, 1, b"\x01\x03");
    show_delays(rt, b"marks 1 3 of 32 columns", wide, 1, 2)?;
    let made = unit::fresh(5, 5, 9);
    show_delays(rt, b"no unit", made.unit, 1, 0)
}

// The queue at the issue port: how many wait after an arrival, and what a time unit starts.

fn queue_of(count: usize, tag: u8) -> Queue {
    Queue {
        list: [Waiting { tag, ticket: 7 }; 32],
        count,
    }
}

fn print_joined(rt: &impl Print, joined: Joined) -> io::Result<()> {
    let answer = joined.answer;
    let queue = joined.queue;
    match answer {
        Err(why) => print_refusal(rt, why),
        Ok(()) => {
            rt.write_all(b" wait ")?;
            rt.print(queue.count)
        }
    }
}

fn show_arrival(
    rt: &impl Print,
    name: &[u8],
    u: FunctionUnit,
    count: usize,
    waiting: u8,
    tag: u8,
) -> io::Result<()> {
    begin(rt, name, b" arrive")?;
    print_number(rt, tag as u32)?;
    let queue = queue_of(count, waiting);
    print_joined(rt, queue::join(u, queue, Waiting { tag, ticket: 8 }))?;
    end_line(rt)
}

fn print_passed(rt: &impl Print, passed: Result<Option<Waiting>, Refusal>) -> io::Result<()> {
    match passed {
        Err(why) => print_refusal(rt, why),
        Ok(None) => { rt.write_all(b" none") }
        Ok(Some(started)) => {
            rt.write_all(b" started")?;
            print_number(rt, started.tag as u32)?;
            print_number(rt, started.ticket)
        }
    }
}

fn show_pass(
    rt: &impl Print,
    name: &[u8],
    u: FunctionUnit,
    count: usize,
    waiting: u8,
    register: u32,
) -> io::Result<()> {
    begin(rt, name, b" pass")?;
    let bank = Bank {
        r1: register,
        r2: 0,
        r3: 0,
        r4: 0,
    };
    let queue = queue_of(count, waiting);
    let advanced = queue::advance(u, bank, queue);
    let passed = advanced.answer;
    print_passed(rt, passed)?;
    end_line(rt)
}

fn try_queue(rt: &impl Print) -> io::Result<()> {
    let u = one_segment(b"\x01\x02");
    let made = unit::fresh(5, 5, 9);
    show_arrival(rt, b"31 wait", u, 31, 1, 1)?;
    show_arrival(rt, b"32 wait", u, 32, 1, 1)?;
    show_arrival(rt, b"32 wait", u, 32, 1, 2)?;
    show_arrival(rt, b"33 of tag 2 wait", u, 33, 2, 1)?;
    show_arrival(rt, b"31 of tag 2 wait", u, 31, 2, 1)?;
    show_arrival(rt, b"no unit", made.unit, 33, 2, 2)?;
    show_pass(rt, b"one waits", u, 1, 1, 0)?;
    show_pass(rt, b"one waits for another", u, 1, 1, 1)?;
    show_pass(rt, b"none waits", u, 0, 2, 0)?;
    show_pass(rt, b"32 wait", u, 32, 1, 0)?;
    show_pass(rt, b"33 of tag 2 wait", u, 33, 2, 0)?;
    show_pass(rt, b"32 of tag 2 wait", u, 32, 2, 0)?;
    show_pass(rt, b"no unit", made.unit, 33, 2, 0)
}

// Callers in turn: how many wait after an arrival, what a time unit starts, and whose turn it is then. Caller 4's queue holds more than it has room for.

fn shared_of(callers: u8, turn: u8, count: usize, tag: u8) -> Shared {
    Shared {
        callers,
        turn,
        list: [Waiting { tag, ticket: 7 }; 32],
        counts: Counts {
            each: [0, count, 0, 9],
        },
    }
}

fn show_call(
    rt: &impl Print,
    name: &[u8],
    u: FunctionUnit,
    shared: Shared,
    caller: u8,
    tag: u8,
) -> io::Result<()> {
    begin(rt, name, b" call")?;
    print_number(rt, caller as u32)?;
    print_number(rt, tag as u32)?;
    let called = callers::call(u, shared, caller, Waiting { tag, ticket: 8 });
    let answer = called.answer;
    let after = called.shared;
    let counts = after.counts;
    let each = counts.each;
    match answer {
        Err(why) => print_refusal(rt, why)?,
        Ok(()) => {
            rt.write_all(b" wait ")?;
            rt.print(each[1])?
        }
    }
    end_line(rt)
}

fn print_served(rt: &impl Print, served: Result<Option<(u8, Waiting)>, Refusal>) -> io::Result<()> {
    match served {
        Err(why) => print_refusal(rt, why),
        Ok(None) => { rt.write_all(b" none") }
        Ok(Some((caller, started))) => {
            rt.write_all(b" started")?;
            print_number(rt, caller as u32)?;
            print_number(rt, started.tag as u32)?;
            print_number(rt, started.ticket)
        }
    }
}

fn show_turn(
    rt: &impl Print,
    name: &[u8],
    u: FunctionUnit,
    shared: Shared,
    register: u32,
) -> io::Result<()> {
    begin(rt, name, b" turn")?;
    print_number(rt, shared.turn as u32)?;
    let bank = Bank {
        r1: register,
        r2: 0,
        r3: 0,
        r4: 0,
    };
    let taken = callers::take_turn(u, bank, shared);
    let served = taken.answer;
    let after = taken.shared;
    print_served(rt, served)?;
    rt.write_all(b" then")?;
    print_number(rt, after.turn as u32)?;
    end_line(rt)
}

fn try_callers(rt: &impl Print) -> io::Result<()> {
    let u = one_segment(b"\x01\x02");
    let made = unit::fresh(5, 5, 9);
    show_call(rt, b"7 wait", u, shared_of(3, 1, 7, 1), 2, 1)?;
    show_call(rt, b"8 wait", u, shared_of(3, 1, 8, 1), 2, 1)?;
    show_call(rt, b"8 wait", u, shared_of(3, 1, 8, 1), 2, 2)?;
    show_call(rt, b"9 of tag 2 wait", u, shared_of(3, 1, 9, 2), 2, 1)?;
    show_call(rt, b"7 of tag 2 wait", u, shared_of(3, 1, 7, 2), 2, 1)?;
    show_call(rt, b"no such caller", u, shared_of(3, 1, 9, 2), 4, 2)?;
    show_call(rt, b"five callers", u, shared_of(5, 1, 9, 2), 2, 2)?;
    show_call(rt, b"no unit", made.unit, shared_of(5, 1, 9, 2), 9, 2)?;
    show_turn(rt, b"2 wait", u, shared_of(3, 1, 2, 1), 0)?;
    show_turn(rt, b"one waits for another", u, shared_of(3, 1, 1, 1), 1)?;
    show_turn(rt, b"none waits", u, shared_of(3, 3, 0, 2), 0)?;
    show_turn(rt, b"9 of caller 4 wait", u, shared_of(4, 3, 0, 1), 0)?;
    show_turn(rt, b"9 of tag 2 wait", u, shared_of(3, 1, 9, 2), 0)?;
    show_turn(rt, b"8 of tag 2 wait", u, shared_of(3, 1, 8, 2), 0)?;
    show_turn(rt, b"no such caller", u, shared_of(3, 4, 9, 2), 0)?;
    show_turn(rt, b"no callers", u, shared_of(0, 1, 9, 2), 0)?;
    show_turn(rt, b"no unit", made.unit, shared_of(0, 0, 9, 2), 0)
}

// Small tables: how many a size has, the marks of a table's first three columns, and the totals of a size.

fn begin_size(rt: &impl Print, segments: u8, columns: u8) -> io::Result<()> {
    rt.write_all(b"small")?;
    print_byte(rt, segments)?;
    print_byte(rt, columns)
}

fn show_count(rt: &impl Print, segments: u8, columns: u8) -> io::Result<()> {
    begin_size(rt, segments, columns)?;
    rt.write_all(b" count")?;
    print_number(rt, table_numbers::count(segments, columns))?;
    end_line(rt)
}

fn print_three(rt: &impl Print, marks: [u16; 32]) -> io::Result<()> {
    rt.write_all(b" columns")?;
    print_number(rt, marks[0] as u32)?;
    print_number(rt, marks[1] as u32)?;
    print_number(rt, marks[2] as u32)
}

fn show_small(rt: &impl Print, segments: u8, columns: u8, number: u32) -> io::Result<()> {
    begin_size(rt, segments, columns)?;
    print_number(rt, number)?;
    let made = table_numbers::table(segments, columns, number);
    let answer = made.answer;
    let table = made.unit;
    match answer {
        Err(why) => print_refusal(rt, why)?,
        Ok(()) => print_three(rt, columns::columns_of(table, Tag(1)))?,
    }
    end_line(rt)
}

fn print_totalled(rt: &impl Print, totalled: Result<SizeTotals, Refusal>) -> io::Result<()> {
    match totalled {
        Err(why) => print_refusal(rt, why)?,
        Ok(totals) => {
            print_number(rt, totals.tables)?;
            print_number(rt, totals.reaching)?;
            print_number(rt, totals.numerator)?;
            print_number(rt, totals.denominator)?;
            print_number(rt, totals.first)?
        }
    }
    end_line(rt)
}

fn show_totals(rt: &impl Print, segments: u8, columns: u8) -> io::Result<()> {
    begin_size(rt, segments, columns)?;
    rt.write_all(b" totals")?;
    let mut work = room();
    print_totalled(rt, table_totals::totals(segments, columns, &mut work))
}

fn show_short_totals(rt: &impl Print, segments: u8, columns: u8) -> io::Result<()> {
    begin_size(rt, segments, columns)?;
    rt.write_all(b" totals with 15999 words")?;
    let mut work = short_room();
    print_totalled(rt, table_totals::totals(segments, columns, &mut work))
}

fn try_small(rt: &impl Print) -> io::Result<()> {
    show_count(rt, 2, 6)?;
    show_count(rt, 3, 1)?;
    show_count(rt, 1, 7)?;
    show_small(rt, 2, 3, 19)?;
    show_small(rt, 2, 3, 63)?;
    show_small(rt, 2, 3, 64)?;
    show_small(rt, 0, 1, 0)?;
    show_small(rt, 1, 7, 0)?;
    show_totals(rt, 1, 1)?;
    show_totals(rt, 1, 2)?;
    show_totals(rt, 2, 0)?;
    show_short_totals(rt, 2, 6)?;
    show_short_totals(rt, 3, 1)
}

fn try_limit(rt: &impl Print) -> io::Result<()> {
    let full = one_segment(b"\x01\x0a");
    show_states(rt, b"marks 1 10", full)?;
    show_greedy(rt, b"marks 1 10", full)?;
    show_average(rt, b"marks 1 10", full)?;
    let beyond = one_segment(b"\x01\x0b");
    show_states(rt, b"marks 1 11", beyond)?;
    show_greedy(rt, b"marks 1 11", beyond)?;
    show_search(rt, b"marks 1 11", beyond)
}

// A mark that already stood drops the plan.
fn try_stale_plan(rt: &impl Print) -> io::Result<()> {
    let u = figure_1();
    show_read(rt, b"fig 1", u)?;
    let found = searched(u);
    let planned = found.unit;
    show_read(rt, b"fig 1", planned)?;
    show_mark(rt, b"fig 1", planned, 1, 1, 1)?;
    show_read(rt, b"fig 1", with_mark(planned, 1, 1, 1))
}

fn try_fresh(rt: &impl Print) -> io::Result<()> {
    let made = unit::fresh(5, 5, 9);
    rt.write_all(b"fresh 5 5 9")?;
    let answer = made.answer;
    print_answer(rt, answer)?;
    end_line(rt)
}

fn try_short_work(rt: &impl Print, u: FunctionUnit) -> io::Result<()> {
    let mut work = short_room();
    let found = planner::search(u, Tag(1), &mut work);
    rt.write_all(b"fig 1 search with 15999 words")?;
    let answer = found.answer;
    print_answer(rt, answer)?;
    end_line(rt)
}

fn try_short_output(rt: &impl Print, u: FunctionUnit) -> io::Result<()> {
    let mut states = [0u32; 255];
    let asked = state_list::states(u, Tag(1), &mut states);
    rt.write_all(b"fig 1 states with 255 words")?;
    print_asked(rt, asked)?;
    end_line(rt)
}

fn try_refusals(rt: &impl Print) -> io::Result<()> {
    try_fresh(rt)?;
    let u = figure_1();
    show_mark(rt, b"fig 1", u, 2, 1, 1)?;
    show_mark(rt, b"fig 1", u, 1, 6, 1)?;
    show_mark(rt, b"fig 1", u, 1, 1, 10)?;
    try_short_work(rt, u)?;
    try_short_output(rt, u)
}

fn show_better<'a>(rt: &impl Print, first: &'a [u8], second: &'a [u8]) -> io::Result<()> {
    rt.write_all(b"better of")?;
    print_cycle(rt, first)?;
    rt.write_all(b" and")?;
    print_cycle(rt, second)?;
    rt.write_all(b" is")?;
    print_cycle(
        rt,
        judge::better_of_two(first, first.len(), second, second.len()),
    )?;
    end_line(rt)
}

// The file of a unit.

fn show_written(rt: &impl Print, name: &[u8], written: Result<u32, Refusal>) -> io::Result<()> {
    rt.write_all(name)?;
    match written {
        Ok(length) => print_number(rt, length)?,
        Err(why) => print_refusal(rt, why)?,
    }
    end_line(rt)
}

fn try_writing(rt: &impl Print) -> io::Result<()> {
    let u = figure_2();
    let mut file = [0u8; 64];
    show_written(rt, b"fig 2 file length", unit_writer::write(u, &mut file))?;
    rt.write_all(b"fig 2 file offsets")?;
    print_byte(rt, file[4])?;
    print_byte(rt, file[5])?;
    print_byte(rt, file[6])?;
    print_byte(rt, file[7])?;
    end_line(rt)?;
    let mut short = [0u8; 31];
    show_written(
        rt,
        b"fig 2 file into 31 bytes",
        unit_writer::write(u, &mut short),
    )
}

fn main(rt: HostRuntime) -> io::Result<()> {
    try_figure_1(&rt)?;
    try_judge(&rt)?;
    try_figure_2(&rt)?;
    try_controller(&rt)?;
    try_simulator(&rt)?;
    try_other_tables(&rt)?;
    try_delays(&rt)?;
    try_queue(&rt)?;
    try_callers(&rt)?;
    try_small(&rt)?;
    try_limit(&rt)?;
    try_stale_plan(&rt)?;
    try_refusals(&rt)?;
    show_better(&rt, b"\x03\x04", b"\x02\x02\x07")?;
    show_better(&rt, b"\x02\x02\x07", b"\x03\x04")?;
    try_writing(&rt)
}
