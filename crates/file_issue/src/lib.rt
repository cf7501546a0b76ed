// The issue controller over lent registers, for the unit of a lent unit file. A call answers 0 or the number of its refusal. Every function
// here is proved; the public ones are total and without a `requires`.
#![tactic(auto)]

ghost use Rattle.std.specs.Prelude.{◌≡◌, ◌≤◌, length};
ghost use Rattle.words.specs.Bytes.{narrow};
ghost use Rattle.unit.specs.Numbers.{number_in};
ghost use Rattle.unit.specs.Calls.{and_then, handed};
ghost use Rattle.unit_file.specs.Read.{unit_in};
ghost use Rattle.controller.specs.Bank.{shifted, started};
ghost use Rattle.file_issue.specs.Issue.{bank_in, bank_over, tick_refusal, start_refusal};
ghost use Rattle.file_issue.specs.Inner.{step_refusal, step_words};

use controller::{Bank, Event};
use unit::{FunctionUnit, Refusal, Tag};

// The number of the refusal of too few words.
const SHORT_OUTPUT: u32 = 6;

// Stores the registers.
fn store(bank: Bank, words: &mut [u32])
    requires { 4 ≤ length words.old }
    ensures { words.new ≡ bank_over bank words.old }
{
    words[0] = bank.r1;
    words[1] = bank.r2;
    words[2] = bank.r3;
    words[3] = bank.r4;
}

// The registers.
fn load(words: &[u32]) -> Bank
    requires { 4 ≤ length words.now }
    ensures { result ≡ bank_in words.now }
{
    Bank {
        r1: words[0],
        r2: words[1],
        r3: words[2],
        r4: words[3],
    }
}

// The first refusal of two.
fn first(read: Result<(), Refusal>, tagged: Result<(), Refusal>) -> Result<(), Refusal>
    ensures { result ≡ and_then read tagged }
{
    match read {
        Ok(()) => tagged,
        Err(why) => Err(why),
    }
}

// One event on the registers, where what was tried before passed. They are stored again also where the event is refused.
fn step(tried: Result<(), Refusal>, u: FunctionUnit, words: &mut [u32], event: Event) -> u32
    ensures value { result ≡ number_in (step_refusal tried u words.old event) }
    ensures words_after { words.new ≡ step_words tried u event words.old }
{
    let Ok(()) = tried else {
        return unit::number_in(tried) as u32;
    };
    if words.len() < 4 {
        return SHORT_OUTPUT;
    }
    let stepped = controller::step(u, load(words), event);
    let answer = stepped.answer;
    store(stepped.bank, words);
    unit::number_in(answer) as u32
}

// A time unit passes.
pub fn tick(file: &[u8], bank: &mut [u32]) -> u32
    ensures value { result ≡ number_in (tick_refusal file.now (length bank.old)) }
    ensures bank_after { bank.new ≡ handed (tick_refusal file.now (length bank.old)) (bank_over (shifted (bank_in bank.old)) bank.old) bank.old }
{
    let back = unit_file::read(file);
    let read = back.answer;
    step(read, back.unit, bank, Event::Tick)
}

// A function starts, if it would collide with no task that is under way.
pub fn start(file: &[u8], bank: &mut [u32], tag: u32) -> u32
    ensures value { result ≡ number_in (start_refusal file.now tag bank.old) }
    ensures bank_after { bank.new ≡ handed (start_refusal file.now tag bank.old) (bank_over (started (unit_in file.now) (narrow tag) (bank_in bank.old)) bank.old) bank.old }
{
    let back = unit_file::read(file);
    let read = back.answer;
    let asked = Tag(words::byte(tag));
    let tagged = unit::check_tag(back.unit, asked);
    step(first(read, tagged), back.unit, bank, Event::Start(asked))
}
