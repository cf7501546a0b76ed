// The issue port that up to 4 callers share, on a lent list: caller i's queue is the part of 8 records from record 8 × (i - 1) on, counted from 0.
// Every public function here is proved, total and without a `requires`.
#![tactic(auto)]

ghost use Rattle.std.specs.Prelude.{◌≡◌, ◌≤◌, length, replicate};
ghost use Rattle.queue.specs.Line.{no_record};
ghost use Rattle.callers.specs.Calls.{arrival_of, arrival_list, unit_of, unit_list};
ghost use Rattle.callers.specs.Parts.{arrival_in, arrival_on_by, unit_in, unit_on_by};
ghost use Rattle.port.specs.Inner.{reach_of, loaded_of, stored_of};

use callers::{ArrivalOn, Counts, Records, Turned, UnitOn};
use controller::Bank;
use queue::{Arrival, Waiting};
use unit::FunctionUnit;

// How many records of a list hold the first queues; none where it does not reach their end.
fn reach(callers: u8, length: usize) -> usize
    ensures { result ≡ reach_of callers length }
{
    if 4 < callers {
        return 0;
    }
    let end = 8 * (callers as usize);
    if length < end {
        return 0;
    }
    end
}

// No record yet.
fn no_records() -> Records
    ensures { result.list ≡ replicate 32 no_record }
{
    Records {
        list: [Waiting { tag: 0, ticket: 0 }; 32],
    }
}

// The first records of a lent list, which stays as it is.
fn load(list: &mut [Waiting], count: usize) -> Records
    requires { (count ≤ 32) × (count ≤ length list.old) }
    ensures { (result.list ≡ loaded_of list.old count) × (list.new ≡ list.old) }
{
    let mut held = no_records().list;
    held[..count].copy_from_slice(&list[..count]);
    Records { list: held }
}

// The first records of a lent list become these.
fn store(list: &mut [Waiting], records: Records, count: usize)
    requires { (count ≤ 32) × (count ≤ length list.old) }
    ensures { list.new ≡ stored_of list.old records.list count }
{
    list[..count].copy_from_slice(&records.list[..count]);
}

// The calls on the records that were copied out of the list

fn arriving(
    u: FunctionUnit,
    callers: u8,
    caller: u8,
    length: usize,
    records: Records,
    count: usize,
    offered: Waiting,
) -> ArrivalOn
    ensures { result ≡ arrival_on_by caller records.list count offered (arrival_in u callers caller length records.list count offered.tag) }
{
    callers::arrival_on(u, callers, caller, length, records, count, offered)
}

fn passing(
    u: FunctionUnit,
    bank: Bank,
    callers: u8,
    turn: u8,
    length: usize,
    records: Records,
    counts: Counts,
) -> UnitOn
    ensures { result ≡ unit_on_by u bank callers turn records.list counts.each (unit_in u callers turn length records.list counts.each) }
{
    callers::unit_on(u, bank, callers, turn, length, records, counts)
}

// An arrival at a caller's queue: the record goes in behind those that wait there.
pub fn arrive(
    u: FunctionUnit,
    callers: u8,
    caller: u8,
    list: &mut [Waiting],
    count: usize,
    offered: Waiting,
) -> Arrival
    ensures { (result ≡ arrival_of u callers caller list.old count offered)
        × (list.new ≡ arrival_list u callers caller list.old count offered) }
{
    let n = reach(caller, list.len());
    let records = load(list, n);
    let after = arriving(u, callers, caller, list.len(), records, count, offered);
    store(list, after.records, n);
    after.arrival
}

// A time unit: the oldest record of the caller whose turn it is is started if the bank grants it, and otherwise the unit passes as a tick.
pub fn time_unit(
    u: FunctionUnit,
    bank: Bank,
    callers: u8,
    turn: u8,
    list: &mut [Waiting],
    counts: Counts,
) -> Turned
    ensures { (result ≡ unit_of u bank callers turn list.old counts.each)
        × (list.new ≡ unit_list u bank callers turn list.old counts.each) }
{
    let n = reach(callers, list.len());
    let records = load(list, n);
    let after = passing(u, bank, callers, turn, list.len(), records, counts);
    store(list, after.records, n);
    after.turned
}
