// The issue controller: a bank of four registers that says at each time unit which functions may start. Bit k of register r is
// 1 where a start of function r, k time units from now, would collide with a task that is already under way.
// Every function here is proved, total and without a `requires`; the crate assumes nothing of its own.
#![tactic(auto)]

ghost use Rattle.std.specs.Prelude.{◌≡◌, ◌/◌};
ghost use Rattle.std.specs.Int.Bits.{bit_or};
ghost use Rattle.controller.specs.Bank.{register, shifted, row_for, started, event_answer, step_of};

use unit::{FunctionUnit, Refusal, Tag};

// Register r belongs to the function of tag r.
#[derive(Clone, Copy)]
pub struct Bank {
    pub r1: u32,
    pub r2: u32,
    pub r3: u32,
    pub r4: u32,
}

// What happens in a time unit: nothing starts, or a function does.
#[derive(Clone, Copy)]
pub enum Event {
    Tick,
    Start(Tag),
}

// The answer to an event, and the bank that it leaves.
#[derive(Clone, Copy)]
pub struct Stepped {
    pub answer: Result<(), Refusal>,
    pub bank: Bank,
}

// The register of a tag; 0 for a number that is no tag.
pub fn register_of(bank: Bank, tag: u8) -> u32
    ensures { result ≡ register bank tag }
{
    match tag {
        1 => bank.r1,
        2 => bank.r2,
        3 => bank.r3,
        4 => bank.r4,
        _ => 0,
    }
}

// The bank one time unit later.
fn shifted_bank(bank: Bank) -> Bank
    ensures { result ≡ shifted bank }
{
    Bank {
        r1: bank.r1 / 2,
        r2: bank.r2 / 2,
        r3: bank.r3 / 2,
        r4: bank.r4 / 2,
    }
}

// Row r of the matrix M_q: where r would collide with a task of q that starts now. A tag that the unit does not have has none.
pub fn row_for(u: FunctionUnit, q: Tag, r: Tag) -> u32
    ensures { result ≡ row_for u q.0 r.0 }
{
    if u.functions < r.0 {
        return 0;
    }
    let later = columns::columns_of(u, r);
    let earlier = columns::columns_of(u, q);
    collision::row_of(later, earlier)
}

// A register one time unit later, with the row of the task that has started.
fn joined(register: u32, row: u32) -> u32
    ensures { result ≡ bit_or (register / 2) row }
{
    register / 2 | row
}

// The bank one time unit later, with the rows of a task of q that has started.
fn started_bank(u: FunctionUnit, q: Tag, bank: Bank) -> Bank
    ensures { result ≡ started u q.0 bank }
{
    let row1 = row_for(u, q, Tag(1));
    let row2 = row_for(u, q, Tag(2));
    let row3 = row_for(u, q, Tag(3));
    let row4 = row_for(u, q, Tag(4));
    Bank {
        r1: joined(bank.r1, row1),
        r2: joined(bank.r2, row2),
        r3: joined(bank.r3, row3),
        r4: joined(bank.r4, row4),
    }
}

// A tick by value. It builds no row.
fn ticked(u: FunctionUnit, bank: Bank) -> Stepped
    ensures { (result.answer ≡ event_answer u bank Event.Tick) × (result.bank ≡ (step_of u bank Event.Tick).bank) }
{
    if !unit::sound(u) {
        return Stepped {
            answer: Err(Refusal::NotSound),
            bank,
        };
    }
    let later = shifted_bank(bank);
    Stepped {
        answer: Ok(()),
        bank: later,
    }
}

// Whether a function can start now: the unit, then the tag, then the lowest bit of its register.
fn check_start(u: FunctionUnit, bank: Bank, q: Tag) -> Result<(), Refusal>
    ensures { result ≡ event_answer u bank (Event.Start q) }
{
    unit::check_tag(u, q)?;
    let register = register_of(bank, q.0);
    if register % 2 == 1 {
        return Err(Refusal::NotGranted);
    }
    Ok(())
}

// A start by value. The rows are built only where it is granted.
fn start(u: FunctionUnit, bank: Bank, q: Tag) -> Stepped
    ensures { result ≡ step_of u bank (Event.Start q) }
{
    let answer = check_start(u, bank, q);
    match answer {
        Err(why) => Stepped {
            answer: Err(why),
            bank,
        },
        Ok(()) => {
            let next = started_bank(u, q, bank);
            Stepped {
                answer: Ok(()),
                bank: next,
            }
        }
    }
}

// One event: the answer, and the bank moved on by one time unit, or, where the event is refused, as it was.
pub fn step(u: FunctionUnit, bank: Bank, event: Event) -> Stepped
    ensures { result ≡ step_of u bank event }
{
    match event {
        Event::Tick => ticked(u, bank),
        Event::Start(q) => start(u, bank, q),
    }
}

// A tick on a lent bank.
pub fn tick(u: FunctionUnit, bank: &mut Bank) -> Result<(), Refusal>
    ensures { (result ≡ event_answer u bank.old Event.Tick) × (bank.new ≡ (step_of u bank.old Event.Tick).bank) }
{
    let after = ticked(u, *bank);
    *bank = after.bank;
    after.answer
}
