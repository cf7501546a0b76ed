// The console's commands at the issue port: a task arrives, a time unit passes, and the tasks that wait are told.
// Every public function here is proved, total and without a `requires`.
#![tactic(auto)]

ghost use Rattle.std.specs.Prelude.{◌≡◌, ◌++◌, ◌*◌, ◌≤◌, min, length, take};
ghost use Rattle.text.specs.Text.{ascii, decimal, spaced};
ghost use Rattle.text.specs.Wrote.{Wrote};
ghost use Rattle.listing.specs.Lines.{newline};
ghost use Rattle.session.specs.Sessions.{Line};
ghost use Rattle.queue_text.specs.Told.{started_line, passed_line, flat, queue_line, Issued};

use command::Request;
use command_table::Issue;
use queue::{Queue, Waiting};
use session::{Reply, Session};
use unit::Refusal;
use words::byte;

// The tags and tickets of the first records of an array, one after the other.
fn numbers_of(list: [Waiting; 32], count: usize) -> [u32; 64]
    requires { count ≤ 32 }
    ensures { (take (2 * count) result ≡ flat (take count list)) × (length result ≡ 64) × (length list ≡ 32) }
{
    let mut numbers = [0u32; 64];
    for (i, waiting) in list[..count].iter().enumerate() {
        numbers[2 * i] = waiting.tag as u32;
        numbers[2 * i + 1] = waiting.ticket;
    }
    numbers
}

// How many records wait: of an array of 32, no more than 32.
fn waiting_of(count: usize) -> usize
    ensures { result ≡ min count 32 }
{
    if 32 < count {
        return 32;
    }
    count
}

// The records that wait: how many there are, and their tags and tickets.
fn write_queue(line: &mut [u8], numbers: &[u32], count: u32) -> usize
    requires { (length numbers.now ≤ 64) × (1024 ≤ length line.old) }
    ensures { Wrote line.old 0 (ascii "queue " ++ decimal count ++ ascii ":" ++ spaced numbers.now ++ newline) line.new result }
{
    let after_word = text::put(line, 0, b"queue ");
    let after_count = text::put_number(line, after_word, count);
    let after_colon = text::put(line, after_count, b":");
    let after_numbers = text::put_words(line, after_colon, numbers);
    text::put(line, after_numbers, b"\n")
}

fn put_queue(out: &mut [u8], queue: Queue) -> usize
    ensures { Line (queue_line queue) out.old out.new result }
{
    let mut line = [0u8; 1024];
    let list = queue.list;
    let count = waiting_of(queue.count);
    let numbers = numbers_of(list, count);
    let used = 2 * count;
    let end = write_queue(&mut line, &numbers[..used], count as u32);
    text::put(out, 0, &line[..end])
}

// The record that was started.
fn write_started(line: &mut [u8], started: Waiting) -> usize
    requires { 64 ≤ length line.old }
    ensures { Wrote line.old 0 (started_line started) line.new result }
{
    let after_word = text::put(line, 0, b"started ");
    let after_tag = text::put_number(line, after_word, started.tag as u32);
    let after_space = text::put(line, after_tag, b" ");
    let after_ticket = text::put_number(line, after_space, started.ticket);
    text::put(line, after_ticket, b"\n")
}

fn put_started(out: &mut [u8], started: Waiting) -> usize
    ensures { Line (started_line started) out.old out.new result }
{
    let mut line = [0u8; 64];
    let end = write_started(&mut line, started);
    text::put(out, 0, &line[..end])
}

// What a time unit did.
fn put_passed(out: &mut [u8], passed: Result<Option<Waiting>, Refusal>) -> usize
    ensures { Line (passed_line passed) out.old out.new result }
{
    match passed {
        Ok(Some(started)) => put_started(out, started),
        Ok(None) => text::put(out, 0, b"none\n"),
        Err(why) => session::put_answer(out, Err(why)),
    }
}

// A task arrives; the second number is its ticket.
fn arrive(session: Session, request: Request, out: &mut [u8]) -> Reply
    ensures { Issued Issue.Arrive session request out.old out.new result }
{
    let unit = session.unit;
    let bank = session.bank;
    let queue = session.queue;
    let task = Waiting {
        tag: byte(request.first),
        ticket: request.second,
    };
    let after = queue::join(unit, queue, task);
    let answer = after.answer;
    let end = session::put_answer(out, answer);
    let joined = after.queue;
    let shared = session.shared;
    let next = session::with_port(session, bank, joined, shared);
    Reply { session: next, end }
}

// A time unit passes.
fn pass(session: Session, request: Request, out: &mut [u8]) -> Reply
    ensures { Issued Issue.Pass session request out.old out.new result }
{
    let unit = session.unit;
    let bank = session.bank;
    let queue = session.queue;
    let after = queue::advance(unit, bank, queue);
    let answer = after.answer;
    let end = put_passed(out, answer);
    let later = after.bank;
    let rest = after.queue;
    let shared = session.shared;
    let next = session::with_port(session, later, rest, shared);
    Reply { session: next, end }
}

// Tells the tasks that wait.
fn tell(session: Session, request: Request, out: &mut [u8]) -> Reply
    ensures { Issued Issue.Queue session request out.old out.new result }
{
    let queue = session.queue;
    let end = put_queue(out, queue);
    Reply { session, end }
}

// One command at the issue port of a session's unit.
pub fn answer(session: Session, what: Issue, request: Request, out: &mut [u8]) -> Reply
    ensures { Issued what session request out.old out.new result }
{
    match what {
        Issue::Arrive => arrive(session, request, out),
        Issue::Pass => pass(session, request, out),
        Issue::Queue => tell(session, request, out),
    }
}
