// The console's commands at a port that callers share: how many callers there are, a task arrives at one of them, and a time unit passes.
// Every public function here is proved, total and without a `requires`.
#![tactic(auto)]

ghost use Rattle.std.specs.Prelude.{◌≡◌, ◌≤◌, length};
ghost use Rattle.text.specs.Wrote.{Wrote};
ghost use Rattle.unit.specs.Calls.{tested_by};
ghost use Rattle.session.specs.Sessions.{Line};
ghost use Rattle.caller_text.specs.Told.{started_line, served_line, shared_then, SharedOn};

use callers::Shared;
use command::Request;
use command_table::Share;
use queue::Waiting;
use session::{Reply, Session};
use unit::Refusal;
use words::byte;

// The caller and the record that were started.
fn write_started(line: &mut [u8], caller: u8, started: Waiting) -> usize
    requires { 64 ≤ length line.old }
    ensures { Wrote line.old 0 (started_line caller started) line.new result }
{
    let after_word = text::put(line, 0, b"started ");
    let after_caller = text::put_number(line, after_word, caller as u32);
    let after_first = text::put(line, after_caller, b" ");
    let after_tag = text::put_number(line, after_first, started.tag as u32);
    let after_second = text::put(line, after_tag, b" ");
    let after_ticket = text::put_number(line, after_second, started.ticket);
    text::put(line, after_ticket, b"\n")
}

fn put_started(out: &mut [u8], caller: u8, started: Waiting) -> usize
    ensures { Line (started_line caller started) out.old out.new result }
{
    let mut line = [0u8; 64];
    let end = write_started(&mut line, caller, started);
    text::put(out, 0, &line[..end])
}

// What a time unit did.
fn put_served(out: &mut [u8], served: Result<Option<(u8, Waiting)>, Refusal>) -> usize
    ensures { Line (served_line served) out.old out.new result }
{
    match served {
        Ok(Some((caller, started))) => put_started(out, caller, started),
        Ok(None) => text::put(out, 0, b"none\n"),
        Err(why) => session::put_answer(out, Err(why)),
    }
}

// The port for so many callers, or the one that was there.
fn shared_then(answer: Result<(), Refusal>, callers: u8, before: Shared) -> Shared
    ensures { result ≡ shared_then answer callers before }
{
    match answer {
        Err(_) => before,
        Ok(()) => callers::empty_shared(callers),
    }
}

// So many callers from now on, with empty queues; the turn is the first one's.
fn open(session: Session, request: Request, out: &mut [u8]) -> Reply
    ensures { SharedOn Share.Callers session request out.old out.new result }
{
    let callers = byte(request.first);
    let some = words::is_inside(callers, 4);
    let answer = unit::tested(Ok(()), some, Refusal::NoSuchCaller);
    let end = session::put_answer(out, answer);
    let before = session.shared;
    let shared = shared_then(answer, callers, before);
    let bank = session.bank;
    let queue = session.queue;
    let next = session::with_port(session, bank, queue, shared);
    Reply { session: next, end }
}

// A task arrives at a caller's queue; the third number is its ticket.
fn call(session: Session, request: Request, out: &mut [u8]) -> Reply
    ensures { SharedOn Share.Call session request out.old out.new result }
{
    let unit = session.unit;
    let before = session.shared;
    let caller = byte(request.first);
    let task = Waiting {
        tag: byte(request.second),
        ticket: request.third,
    };
    let after = callers::call(unit, before, caller, task);
    let answer = after.answer;
    let end = session::put_answer(out, answer);
    let shared = after.shared;
    let bank = session.bank;
    let queue = session.queue;
    let next = session::with_port(session, bank, queue, shared);
    Reply { session: next, end }
}

// A time unit passes.
fn turn(session: Session, request: Request, out: &mut [u8]) -> Reply
    ensures { SharedOn Share.Turn session request out.old out.new result }
{
    let unit = session.unit;
    let bank = session.bank;
    let before = session.shared;
    let after = callers::take_turn(unit, bank, before);
    let answer = after.answer;
    let end = put_served(out, answer);
    let later = after.bank;
    let shared = after.shared;
    let queue = session.queue;
    let next = session::with_port(session, later, queue, shared);
    Reply { session: next, end }
}

// One command at the port that callers share.
pub fn answer(session: Session, what: Share, request: Request, out: &mut [u8]) -> Reply
    ensures { SharedOn what session request out.old out.new result }
{
    match what {
        Share::Callers => open(session, request, out),
        Share::Call => call(session, request, out),
        Share::Turn => turn(session, request, out),
    }
}
