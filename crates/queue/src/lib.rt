// A queue at the issue port: tasks that wait for the bank to grant their start, the oldest first.
// Every public function here is proved, total and without a `requires`.
#![tactic(auto)]

ghost use Rattle.std.specs.Prelude.{◌≡◌, length, take, Ok, None};
ghost use Rattle.queue.specs.Inner.{list_by, pass_by};
ghost use Rattle.queue.specs.Line.{tags_inside};
ghost use Rattle.queue.specs.Calls.{room, arrival_by, arrival_of, unit_by, arrival_list, pass_of, pass_list, empty_queue, join_of, advance_of};

use controller::{Bank, Event};
use unit::{FunctionUnit, Refusal, Tag};

// A task that waits: the tag of its function, and a ticket, which is a number chosen by its sender.
#[derive(Clone, Copy)]
pub struct Waiting {
    pub tag: u8,
    pub ticket: u32,
}

// The answer to an arrival, and how many wait then.
#[derive(Clone, Copy)]
pub struct Arrival {
    pub answer: Result<(), Refusal>,
    pub count: usize,
}

// The answer of a time unit, the bank that it leaves, and how many wait then.
#[derive(Clone, Copy)]
pub struct Pass {
    pub answer: Result<Option<Waiting>, Refusal>,
    pub bank: Bank,
    pub count: usize,
}

// A queue as a value, for whoever has no list to lend.
#[derive(Clone, Copy)]
pub struct Queue {
    pub list: [Waiting; 32],
    pub count: usize,
}

// The answer to an arrival, and the queue that it leaves.
#[derive(Clone, Copy)]
pub struct Joined {
    pub answer: Result<(), Refusal>,
    pub queue: Queue,
}

// The answer of a time unit, and the bank and the queue that it leaves.
#[derive(Clone, Copy)]
pub struct Advanced {
    pub answer: Result<Option<Waiting>, Refusal>,
    pub bank: Bank,
    pub queue: Queue,
}

// The tests of a list: the unit, and the length.
fn check_list(u: FunctionUnit, list: &[Waiting]) -> Result<(), Refusal>
    ensures { result ≡ list_by room u (length list.now) }
{
    if !unit::sound(u) {
        return Err(Refusal::NotSound);
    }
    if list.len() < 32 {
        return Err(Refusal::ShortOutput);
    }
    Ok(())
}

// Whether the records have tags of a unit with so many functions.
fn all_fit(line: &[Waiting], functions: u8) -> bool
    ensures { result ≡ tags_inside functions line.now }
{
    line.iter()
        .all(|waiting| words::is_inside(waiting.tag, functions))
}

// The tests of an arrival: the unit, the list, the tag offered, the room, and the tags that wait.
fn check_arrival(u: FunctionUnit, list: &[Waiting], count: usize, tag: u8) -> Result<(), Refusal>
    ensures { result ≡ arrival_by room u (length list.now) count tag (tags_inside u.functions (take count list.now)) }
{
    check_list(u, list)?;
    if !words::is_inside(tag, u.functions) {
        return Err(Refusal::NoSuchTag);
    }
    if 32 <= count {
        return Err(Refusal::TooManyWait);
    }
    if !all_fit(&list[..count], u.functions) {
        return Err(Refusal::NoSuchTag);
    }
    Ok(())
}

// The tests of a time unit: the unit, the list, the count, and the tags that wait.
fn check_unit(u: FunctionUnit, list: &[Waiting], count: usize) -> Result<(), Refusal>
    ensures { result ≡ unit_by room u (length list.now) count (tags_inside u.functions (take count list.now)) }
{
    check_list(u, list)?;
    if 32 < count {
        return Err(Refusal::TooManyWait);
    }
    if !all_fit(&list[..count], u.functions) {
        return Err(Refusal::NoSuchTag);
    }
    Ok(())
}

// A time unit in which nothing is started.
fn idled(u: FunctionUnit, bank: Bank, count: usize) -> Pass
    ensures { result ≡ pass_by u bank count (Ok None) }
{
    Pass {
        answer: Ok(None),
        bank: controller::step(u, bank, Event::Tick).bank,
        count,
    }
}

// An arrival: the record goes in behind those that wait.
pub fn arrive(u: FunctionUnit, list: &mut [Waiting], count: usize, offered: Waiting) -> Arrival
    ensures { (result ≡ arrival_of room u list.old count offered)
        × (list.new ≡ arrival_list room u list.old count offered) }
{
    if let Err(why) = check_arrival(u, list, count, offered.tag) {
        return Arrival {
            answer: Err(why),
            count,
        };
    }
    list[count] = offered;
    Arrival {
        answer: Ok(()),
        count: count + 1,
    }
}

// A time unit: the oldest record is started if the bank grants it, and otherwise the unit passes as a tick.
pub fn time_unit(u: FunctionUnit, bank: Bank, list: &mut [Waiting], count: usize) -> Pass
    ensures { (result ≡ pass_of room u bank list.old count)
        × (list.new ≡ pass_list room u bank list.old count) }
{
    if let Err(why) = check_unit(u, list, count) {
        return Pass {
            answer: Err(why),
            bank,
            count,
        };
    }
    if count == 0 {
        return idled(u, bank, count);
    }
    let first = list[0];
    let after = controller::step(u, bank, Event::Start(Tag(first.tag)));
    match after.answer {
        Err(_) => idled(u, bank, count),
        Ok(()) => {
            list.copy_within(1..count, 0);
            Pass {
                answer: Ok(Some(first)),
                bank: after.bank,
                count: count - 1,
            }
        }
    }
}

// The same on a queue as a value

// A queue in which nothing waits.
pub fn empty_queue() -> Queue
    ensures { result ≡ empty_queue }
{
    Queue {
        list: [Waiting { tag: 0, ticket: 0 }; 32],
        count: 0,
    }
}

// An arrival.
pub fn join(u: FunctionUnit, queue: Queue, offered: Waiting) -> Joined
    ensures { result ≡ join_of u queue offered }
{
    let mut joined = queue.list;
    let arrival = arrive(u, &mut joined, queue.count, offered);
    Joined {
        answer: arrival.answer,
        queue: Queue {
            list: joined,
            count: arrival.count,
        },
    }
}

// A time unit.
pub fn advance(u: FunctionUnit, bank: Bank, queue: Queue) -> Advanced
    ensures { result ≡ advance_of u bank queue }
{
    let mut rest = queue.list;
    let pass = time_unit(u, bank, &mut rest, queue.count);
    Advanced {
        answer: pass.answer,
        bank: pass.bank,
        queue: Queue {
            list: rest,
            count: pass.count,
        },
    }
}
