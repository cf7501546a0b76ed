// An issue port that up to 4 callers share: each has a queue of its own, and they start in turn. Here the queues are values; crate port has the same calls on a
// lent list.
// Every public function here is proved, total and without a `requires`.
#![tactic(auto)]

ghost use Rattle.std.specs.Prelude.{◌≡◌, ◌+◌, ◌≤◌, leb, take, drop, Ok, None};
ghost use Rattle.queue.specs.Calls.{oldest};
ghost use Rattle.queue.specs.Line.{tags_inside};
ghost use Rattle.callers.specs.Turn.{each_caller, round, next_turn, turn_now};
ghost use Rattle.callers.specs.Queues.{room, place_of, count_of, waiting_of, has_work};
ghost use Rattle.callers.specs.Calls.{one_of, caller_first, empty_shared, call_of, taken_of};
ghost use Rattle.callers.specs.Parts.{arrival_in, arrival_on_by, unit_in, on_by, unit_on_by};
ghost use Rattle.callers.specs.Inner.{Among, FewEach, started_by, Servable, Startable};

use controller::{Bank, Event};
use queue::{Arrival, Waiting};
use unit::{FunctionUnit, Refusal, Tag};

// How many wait in each caller's queue.
#[derive(Clone, Copy)]
pub struct Counts {
    pub each: [usize; 4],
}

// The answer of a time unit, and the bank, the turn and the counts that it leaves.
#[derive(Clone, Copy)]
pub struct Turned {
    pub answer: Result<Option<(u8, Waiting)>, Refusal>,
    pub bank: Bank,
    pub turn: u8,
    pub counts: Counts,
}

// A shared port as a value, for whoever has no list to lend: how many callers there are, whose turn it is, and their queues.
#[derive(Clone, Copy)]
pub struct Shared {
    pub callers: u8,
    pub turn: u8,
    pub list: [Waiting; 32],
    pub counts: Counts,
}

// The answer to an arrival, and the port that it leaves.
#[derive(Clone, Copy)]
pub struct Called {
    pub answer: Result<(), Refusal>,
    pub shared: Shared,
}

// The answer of a time unit, and the bank and the port that it leaves.
#[derive(Clone, Copy)]
pub struct Taken {
    pub answer: Result<Option<(u8, Waiting)>, Refusal>,
    pub bank: Bank,
    pub shared: Shared,
}

// The queues' records by value.
#[derive(Clone, Copy)]
pub struct Records {
    pub list: [Waiting; 32],
}

// An arrival, and the records that it leaves.
#[derive(Clone, Copy)]
pub struct ArrivalOn {
    pub arrival: Arrival,
    pub records: Records,
}

// A time unit, and the records that it leaves.
#[derive(Clone, Copy)]
pub struct UnitOn {
    pub turned: Turned,
    pub records: Records,
}

// The turn

// The caller after this one, going round.
fn round_to(callers: u8, caller: u8) -> u8
    requires { Among callers caller }
    ensures { result ≡ round callers caller }
{
    if caller == callers {
        return 1;
    }
    caller + 1
}

// Whether a record waits in the caller's queue.
fn has_work(counts: [usize; 4], caller: u8) -> bool
    requires { Among 4 caller }
    ensures { result ≡ has_work counts caller }
{
    let place = (caller - 1) as usize;
    counts[place] != 0
}

// The next caller with work, going round; where none has any, the turn stays.
fn next_turn(callers: u8, counts: [usize; 4], from: u8) -> u8
    requires { Among callers from }
    ensures { result ≡ next_turn callers (has_work counts) from }
{
    let mut caller = from;
    for _ in 0..callers {
        caller = round_to(callers, caller);
        if has_work(counts, caller) {
            return caller;
        }
    }
    from
}

// Whose turn it is in a time unit.
fn turn_now(callers: u8, counts: [usize; 4], turn: u8) -> u8
    requires { Among callers turn }
    ensures { result ≡ turn_now callers (has_work counts) turn }
{
    if has_work(counts, turn) {
        return turn;
    }
    next_turn(callers, counts, turn)
}

// The tests

// Whether there are 1 to 4 callers, and this is one of them.
fn named(callers: u8, caller: u8) -> bool
    ensures { result ≡ one_of callers caller }
{
    if words::is_inside(callers, 4) {
        return words::is_inside(caller, callers);
    }
    false
}

// Whether no more than 8 wait in each of the first queues.
fn all_few(counts: [usize; 4], callers: u8) -> bool
    requires { callers ≤ 4 }
    ensures { result ≡ each_caller callers (λ i. leb (count_of counts i) room) }
{
    counts[..callers as usize].iter().all(|count| *count <= 8)
}

// Whether some records have tags of the unit.
fn fits_from(list: [Waiting; 32], from: usize, count: usize, functions: u8) -> bool
    requires { from + count ≤ 32 }
    ensures { result ≡ tags_inside functions (take count (drop from list)) }
{
    list[from..from + count]
        .iter()
        .all(|waiting| words::is_inside(waiting.tag, functions))
}

// Whether the records that wait in the first queues have tags of the unit.
fn all_fit(list: [Waiting; 32], counts: [usize; 4], callers: u8, functions: u8) -> bool
    requires { FewEach callers counts }
    ensures { result ≡ each_caller callers (λ i. tags_inside functions (take (count_of counts i) (drop (place_of i) list))) }
{
    for (place, count) in counts[..callers as usize].iter().enumerate() {
        if !fits_from(list, 8 * place, *count, functions) {
            return false;
        }
    }
    true
}

// What each call tries first: the unit, and that the caller is one of them.
fn check_caller(u: FunctionUnit, callers: u8, caller: u8) -> Result<(), Refusal>
    ensures { result ≡ caller_first u callers caller (Ok tt) }
{
    if !unit::sound(u) {
        return Err(Refusal::NotSound);
    }
    if !named(callers, caller) {
        return Err(Refusal::NoSuchCaller);
    }
    Ok(())
}

// The tests of a time unit: the unit, the turn, the list, the counts, and the tags that wait.
fn check_unit(
    u: FunctionUnit,
    callers: u8,
    turn: u8,
    length: usize,
    list: [Waiting; 32],
    counts: [usize; 4],
) -> Result<(), Refusal>
    ensures { result ≡ unit_in u callers turn length list counts }
{
    check_caller(u, callers, turn)?;
    if length < 8 * (callers as usize) {
        return Err(Refusal::ShortOutput);
    }
    if !all_few(counts, callers) {
        return Err(Refusal::TooManyWait);
    }
    if !all_fit(list, counts, callers, u.functions) {
        return Err(Refusal::NoSuchTag);
    }
    Ok(())
}

// Where a caller's queue begins.
fn place_of(caller: u8) -> usize
    requires { Among 4 caller }
    ensures { result ≡ place_of caller }
{
    8 * ((caller - 1) as usize)
}

// The tests of an arrival: the unit, the caller, the list, the tag offered, the room, and the tags that wait.
fn check_arrival(
    u: FunctionUnit,
    callers: u8,
    caller: u8,
    length: usize,
    list: [Waiting; 32],
    count: usize,
    tag: u8,
) -> Result<(), Refusal>
    ensures { result ≡ arrival_in u callers caller length list count tag }
{
    check_caller(u, callers, caller)?;
    let from = place_of(caller);
    if length < from + 8 {
        return Err(Refusal::ShortOutput);
    }
    if !words::is_inside(tag, u.functions) {
        return Err(Refusal::NoSuchTag);
    }
    if 8 <= count {
        return Err(Refusal::TooManyWait);
    }
    if !fits_from(list, from, count, u.functions) {
        return Err(Refusal::NoSuchTag);
    }
    Ok(())
}

// An arrival on the records of a list of this length: the record goes in behind those that wait.
pub fn arrival_on(
    u: FunctionUnit,
    callers: u8,
    caller: u8,
    length: usize,
    records: Records,
    count: usize,
    offered: Waiting,
) -> ArrivalOn
    ensures { result ≡ arrival_on_by caller records.list count offered (arrival_in u callers caller length records.list count offered.tag) }
{
    let mut list = records.list;
    if let Err(why) = check_arrival(u, callers, caller, length, list, count, offered.tag) {
        return ArrivalOn {
            arrival: Arrival {
                answer: Err(why),
                count,
            },
            records,
        };
    }
    list[place_of(caller) + count] = offered;
    ArrivalOn {
        arrival: Arrival {
            answer: Ok(()),
            count: count + 1,
        },
        records: Records { list },
    }
}

// A time unit in which the turn is this caller's and nothing is started.
fn idled(u: FunctionUnit, bank: Bank, caller: u8, records: Records, counts: Counts) -> UnitOn
    requires { Among 4 caller }
    ensures { result ≡ on_by u bank 0 0 records.list counts.each caller (Ok None) }
{
    let after = controller::step(u, bank, Event::Tick);
    let later = after.bank;
    UnitOn {
        turned: Turned {
            answer: Ok(None),
            bank: later,
            turn: caller,
            counts,
        },
        records,
    }
}

// A time unit in which the caller's oldest record is started: it leaves the queue, and the turn goes round.
fn started(
    callers: u8,
    caller: u8,
    first: Waiting,
    bank: Bank,
    records: Records,
    counts: Counts,
) -> UnitOn
    requires { (Among callers caller) × (1 ≤ count_of counts.each caller) × (count_of counts.each caller ≤ 8) }
    ensures { result ≡ started_by callers caller first bank records.list counts.each }
{
    let mut list = records.list;
    let mut each = counts.each;
    let place = (caller - 1) as usize;
    let count = each[place];
    let start = place_of(caller);
    list.copy_within(start + 1..start + count, start);
    each[place] = count - 1;
    let next = next_turn(callers, each, caller);
    UnitOn {
        turned: Turned {
            answer: Ok(Some((caller, first))),
            bank,
            turn: next,
            counts: Counts { each },
        },
        records: Records { list },
    }
}

// A time unit in which the caller's oldest record is started if the bank grants it.
fn tried(
    u: FunctionUnit,
    bank: Bank,
    callers: u8,
    caller: u8,
    records: Records,
    counts: Counts,
) -> UnitOn
    requires { Startable u callers caller records.list counts.each }
    ensures { result ≡ on_by u bank callers 0 records.list counts.each caller (oldest bank (waiting_of records.list counts.each caller)) }
{
    let first = records.list[place_of(caller)];
    let after = controller::step(u, bank, Event::Start(Tag(first.tag)));
    let answer = after.answer;
    match answer {
        Err(_) => idled(u, bank, caller, records, counts),
        Ok(()) => {
            let later = after.bank;
            started(callers, caller, first, later, records, counts)
        }
    }
}

// A time unit whose tests passed.
fn turned_to(
    u: FunctionUnit,
    bank: Bank,
    callers: u8,
    turn: u8,
    records: Records,
    counts: Counts,
) -> UnitOn
    requires { Servable u callers turn records.list counts.each }
    ensures { result ≡ unit_on_by u bank callers turn records.list counts.each (Ok tt) }
{
    let each = counts.each;
    let caller = turn_now(callers, each, turn);
    if has_work(each, caller) {
        return tried(u, bank, callers, caller, records, counts);
    }
    idled(u, bank, caller, records, counts)
}

// A time unit on the records of a list of this length.
pub fn unit_on(
    u: FunctionUnit,
    bank: Bank,
    callers: u8,
    turn: u8,
    length: usize,
    records: Records,
    counts: Counts,
) -> UnitOn
    ensures { result ≡ unit_on_by u bank callers turn records.list counts.each (unit_in u callers turn length records.list counts.each) }
{
    if let Err(why) = check_unit(u, callers, turn, length, records.list, counts.each) {
        return UnitOn {
            turned: Turned {
                answer: Err(why),
                bank,
                turn,
                counts,
            },
            records,
        };
    }
    turned_to(u, bank, callers, turn, records, counts)
}

// The calls on a port as a value

// A port of so many callers: the turn is caller 1's, and nothing waits.
pub fn empty_shared(callers: u8) -> Shared
    ensures { result ≡ empty_shared callers }
{
    Shared {
        callers,
        turn: 1,
        list: [Waiting { tag: 0, ticket: 0 }; 32],
        counts: Counts { each: [0; 4] },
    }
}

// An arrival.
pub fn call(u: FunctionUnit, shared: Shared, caller: u8, offered: Waiting) -> Called
    ensures { result ≡ call_of u shared caller offered }
{
    if !words::is_inside(caller, 4) {
        return Called {
            answer: check_caller(u, shared.callers, caller),
            shared,
        };
    }
    let list = shared.list;
    let mut each = shared.counts.each;
    let place = (caller - 1) as usize;
    let count = each[place];
    let length = list.len();
    let after = arrival_on(
        u,
        shared.callers,
        caller,
        length,
        Records { list },
        count,
        offered,
    );
    let arrival = after.arrival;
    let records = after.records;
    let joined = records.list;
    each[place] = arrival.count;
    let answer = arrival.answer;
    Called {
        answer,
        shared: Shared {
            callers: shared.callers,
            turn: shared.turn,
            list: joined,
            counts: Counts { each },
        },
    }
}

// A time unit.
pub fn take_turn(u: FunctionUnit, bank: Bank, shared: Shared) -> Taken
    ensures { result ≡ taken_of u bank shared }
{
    let list = shared.list;
    let counts = shared.counts;
    let length = list.len();
    let after = unit_on(
        u,
        bank,
        shared.callers,
        shared.turn,
        length,
        Records { list },
        counts,
    );
    let turned = after.turned;
    let records = after.records;
    let rest = records.list;
    let answer = turned.answer;
    let later = turned.bank;
    let left = turned.counts;
    Taken {
        answer,
        bank: later,
        shared: Shared {
            callers: shared.callers,
            turn: turned.turn,
            list: rest,
            counts: left,
        },
    }
}
