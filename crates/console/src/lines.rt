// The lines that tell a plan and a bank. Each is put together first, and then put whole in front of the lent bytes.
ghost use Rattle.std.specs.Prelude.{◌++◌, ◌+◌, ◌*◌, ◌≤◌, length};
ghost use Rattle.text.specs.Text.{ascii, decimal, spaced};
ghost use Rattle.text.specs.Wrote.{Wrote};
ghost use Rattle.session.specs.Sessions.{Line};
ghost use Rattle.listing.specs.Lines.{newline};
ghost use Rattle.console.specs.Turns.{plan_line, bank_line};

use controller::Bank;
use unit::Plan;

// A word and a number.
fn put_value(line: &mut [u8], at: usize, word: &[u8], number: u32) -> usize
    requires { at + length word.now + 10 ≤ length line.old }
    ensures { Wrote line.old at (word.now ++ decimal number) line.new result }
{
    let after_word = text::put(line, at, word);
    text::put_number(line, after_word, number)
}

// The four registers.
fn write_bank(line: &mut [u8], bank: Bank) -> usize
    requires { 64 ≤ length line.old }
    ensures { Wrote line.old 0 (bank_line bank) line.new result }
{
    let after_1 = text::put_number(line, 0, bank.r1);
    let after_2 = put_value(line, after_1, b" ", bank.r2);
    let after_3 = put_value(line, after_2, b" ", bank.r3);
    let after_4 = put_value(line, after_3, b" ", bank.r4);
    text::put(line, after_4, b"\n")
}

// The latencies of a cycle, and their sum.
fn write_cycle(line: &mut [u8], at: usize, cycle: &[u8], sum: u32) -> usize
    requires { at + 4 * length cycle.now + 22 ≤ length line.old }
    ensures { Wrote line.old at (ascii " cycle" ++ (spaced cycle.now ++ (ascii " sum " ++ (decimal sum ++ newline)))) line.new result }
{
    let after_word = text::put(line, at, b" cycle");
    let after_cycle = text::put_bytes(line, after_word, cycle);
    let after_sum = put_value(line, after_cycle, b" sum ", sum);
    text::put(line, after_sum, b"\n")
}

// The plan's tag, its cycle and its sum.
fn write_plan(line: &mut [u8], plan: Plan) -> usize
    requires { (plan.count ≤ 256) × (2048 ≤ length line.old) }
    ensures { Wrote line.old 0 (plan_line plan) line.new result }
{
    let latencies = plan.latencies;
    let count = plan.count as usize;
    let after_tag = put_value(line, 0, b"plan ", plan.tag as u32);
    write_cycle(line, after_tag, &latencies[..count], plan.sum as u32)
}

pub fn put_bank(out: &mut [u8], bank: Bank) -> usize
    ensures { Line (bank_line bank) out.old out.new result }
{
    let mut line = [0u8; 64];
    let end = write_bank(&mut line, bank);
    text::put(out, 0, &line[..end])
}

pub fn put_plan(out: &mut [u8], plan: Plan) -> usize
    requires { plan.count ≤ 256 }
    ensures { Line (plan_line plan) out.old out.new result }
{
    let mut line = [0u8; 2048];
    let end = write_plan(&mut line, plan);
    text::put(out, 0, &line[..end])
}
