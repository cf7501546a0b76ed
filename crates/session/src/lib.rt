// A designer's session: the unit, the bank, the queue and the callers' queues that commands work on; how it opens, and how a fresh unit or one from a file is taken into it.
// Every public function here is proved, total and without a `requires`.
#![tactic(auto)]

ghost use Rattle.std.specs.Prelude.{◌≡◌, ◌≤◌, length};
ghost use Rattle.text.specs.Wrote.{Wrote};
ghost use Rattle.unit_file.specs.Read.{read_of};
ghost use Rattle.listing.specs.Lines.{refused_line};
ghost use Rattle.session.specs.Sessions.{opening, with_port, answer_line, Line, fresh_asked, Made};

use callers::Shared;
use command::Request;
use controller::Bank;
use queue::Queue;
use unit::{FunctionUnit, Outcome, Refusal};

// Whether there is a unit, the unit, and what is at its issue port: the bank, the queue, and the port that callers share.
#[derive(Clone, Copy)]
pub struct Session {
    pub present: bool,
    pub unit: FunctionUnit,
    pub bank: Bank,
    pub queue: Queue,
    pub shared: Shared,
}

// The session after a command, and how many bytes the answer has.
#[derive(Clone, Copy)]
pub struct Reply {
    pub session: Session,
    pub end: usize,
}

// A session without a unit.
pub fn open() -> Session
    ensures { result ≡ opening }
{
    let made = unit::fresh(0, 0, 0);
    let unit = made.unit;
    let bank = Bank {
        r1: 0,
        r2: 0,
        r3: 0,
        r4: 0,
    };
    let queue = queue::empty_queue();
    let shared = callers::empty_shared(0);
    Session {
        present: false,
        unit,
        bank,
        queue,
        shared,
    }
}

// The session with this at its unit's issue port.
pub fn with_port(session: Session, bank: Bank, queue: Queue, shared: Shared) -> Session
    ensures { result ≡ with_port session bank queue shared }
{
    let unit = session.unit;
    Session {
        present: session.present,
        unit,
        bank,
        queue,
        shared,
    }
}

// Lines that answer

// `refused` and the number of the refusal.
fn write_refused(line: &mut [u8], why: Refusal) -> usize
    requires { 64 ≤ length line.old }
    ensures { Wrote line.old 0 (refused_line why) line.new result }
{
    let after_word = text::put(line, 0, b"refused ");
    let after_number = text::put_number(line, after_word, u32::from(why));
    text::put(line, after_number, b"\n")
}

fn put_refused(out: &mut [u8], why: Refusal) -> usize
    ensures { Line (refused_line why) out.old out.new result }
{
    let mut line = [0u8; 64];
    let end = write_refused(&mut line, why);
    text::put(out, 0, &line[..end])
}

// `ok`, or `refused` and the number.
pub fn put_answer(out: &mut [u8], answer: Result<(), Refusal>) -> usize
    ensures { Line (answer_line answer) out.old out.new result }
{
    match answer {
        Ok(()) => text::put(out, 0, b"ok\n"),
        Err(why) => put_refused(out, why),
    }
}

// Takes the unit that was made or edited, with an empty bank and empty queues, for as many callers as before; where none was made the session stays.
pub fn take_unit(session: Session, made: Outcome, out: &mut [u8]) -> Reply
    ensures { Made session made out.old out.new result }
{
    let answer = made.answer;
    let end = put_answer(out, answer);
    match answer {
        Err(_) => Reply { session, end },
        Ok(()) => {
            let unit = made.unit;
            let bank = Bank {
                r1: 0,
                r2: 0,
                r3: 0,
                r4: 0,
            };
            let queue = queue::empty_queue();
            let before = session.shared;
            let shared = callers::empty_shared(before.callers);
            let next = Session {
                present: true,
                unit,
                bank,
                queue,
                shared,
            };
            Reply { session: next, end }
        }
    }
}

// A unit of three counts, without marks.
pub fn fresh(session: Session, request: Request, out: &mut [u8]) -> Reply
    ensures { Made session (fresh_asked request) out.old out.new result }
{
    let made = unit::fresh(
        words::byte(request.first),
        words::byte(request.second),
        words::byte(request.third),
    );
    take_unit(session, made, out)
}

// The unit of a file that was read.
pub fn load(session: Session, file: &[u8], out: &mut [u8]) -> Reply
    ensures { Made session (read_of file.now) out.old out.new result }
{
    let made = unit_file::read(file);
    take_unit(session, made, out)
}
