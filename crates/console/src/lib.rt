// The designer's console: the commands on a session, each answered by one line of text.
// Every public function here is proved, total and without a `requires`.
#![tactic(auto)]

mod lines;

ghost use Rattle.std.specs.Prelude.{◌≡◌};
ghost use Rattle.controller.specs.Bank.{step_of};
ghost use Rattle.planner.specs.Plans.{search_answer, read_answer};
ghost use Rattle.questions.specs.Replies.{answered};
ghost use Rattle.session.specs.Sessions.{answer_line};
ghost use Rattle.console.specs.Turns.{with_bank, plan_line, bank_line, event_asked, question, question_of, act_reply, ActNext, Sought, Turned};
ghost use Rattle.console.specs.Inner.{Gives};

use command::Request;
use command_table::{Act, Ask, Verb};
use controller::Event;
use questions::Question;
use session::{Reply, Session};
use unit::{Segment, Tag};
use words::byte;

fn mark(session: Session, request: Request, out: &mut [u8]) -> Reply
    ensures { Gives (act_reply Act.Mark session request) (ActNext Act.Mark session request) out.old out.new result }
{
    let unit = session.unit;
    let tag = Tag(byte(request.first));
    let segment = Segment(byte(request.second));
    let made = edits::mark(unit, tag, segment, byte(request.third));
    session::take_unit(session, made, out)
}

fn unmark(session: Session, request: Request, out: &mut [u8]) -> Reply
    ensures { Gives (act_reply Act.Unmark session request) (ActNext Act.Unmark session request) out.old out.new result }
{
    let unit = session.unit;
    let tag = Tag(byte(request.first));
    let segment = Segment(byte(request.second));
    let made = edits::unmark(unit, tag, segment, byte(request.third));
    session::take_unit(session, made, out)
}

// Searches for a best cycle, with working words of its own.
fn seek(session: Session, tag: Tag, out: &mut [u8]) -> Reply
    ensures { Gives (answer_line (search_answer session.unit tag.0 16000)) (Sought session tag.0) out.old out.new result }
{
    let unit = session.unit;
    let mut work = [0u32; 16000];
    let made = planner::search(unit, tag, &mut work);
    let answer = made.answer;
    let end = session::put_answer(out, answer);
    let found = made.unit;
    let bank = session.bank;
    let queue = session.queue;
    let shared = session.shared;
    let next = Session {
        present: session.present,
        unit: found,
        bank,
        queue,
        shared,
    };
    Reply { session: next, end }
}

// Tells the plan.
fn tell_plan(session: Session, out: &mut [u8]) -> Reply
    ensures { Gives (answered (read_answer session.unit) (plan_line session.unit.plan)) (λ after. after ≡ session) out.old out.new result }
{
    match planner::read(session.unit) {
        Err(why) => {
            let end = session::put_answer(out, Err(why));
            Reply { session, end }
        }
        Ok(plan) => {
            let end = lines::put_plan(out, plan);
            Reply { session, end }
        }
    }
}

// Tells the registers.
fn tell_bank(session: Session, out: &mut [u8]) -> Reply
    ensures { Gives (bank_line session.bank) (λ after. after ≡ session) out.old out.new result }
{
    let bank = session.bank;
    let end = lines::put_bank(out, bank);
    Reply { session, end }
}

// One event of the issue controller.
fn step(session: Session, event: Event, out: &mut [u8]) -> Reply
    ensures { Gives (answer_line (event_asked session event)) (λ after. after ≡ with_bank session (step_of session.unit session.bank event).bank) out.old out.new result }
{
    let unit = session.unit;
    let stepped = controller::step(unit, session.bank, event);
    let answer = stepped.answer;
    let end = session::put_answer(out, answer);
    let bank = stepped.bank;
    let queue = session.queue;
    let shared = session.shared;
    let next = session::with_port(session, bank, queue, shared);
    Reply { session: next, end }
}

fn question_of(ask: Ask, request: Request) -> Question
    ensures { result ≡ question_of ask request }
{
    let tag = Tag(byte(request.first));
    match ask {
        Ask::Vector => Question::Vector(tag),
        Ask::Row => Question::Row(tag, Tag(byte(request.second))),
        Ask::States => Question::States(tag),
        Ask::Greedy => Question::Greedy(tag),
        Ask::Bound => Question::Bound(tag),
        Ask::Upper => Question::Upper(tag),
        Ask::Constant => Question::Constant(tag),
        Ask::Judge => Question::Judge(tag),
    }
}

// Answers a question; a judge is asked about the latencies of the line.
fn tell(session: Session, ask: Ask, request: Request, line: &[u8], out: &mut [u8]) -> Reply
    ensures { Gives (question session (question_of ask request) line.now) (λ after. after ≡ session) out.old out.new result }
{
    let asked = question_of(ask, request);
    let mut cycle = [0u8; 257];
    let count = command::latencies(line, &mut cycle);
    let unit = session.unit;
    let end = questions::ask(out, 0, unit, asked, &cycle[..count]);
    Reply { session, end }
}

// Works on the unit and the bank.
fn act(session: Session, what: Act, request: Request, out: &mut [u8]) -> Reply
    ensures { Gives (act_reply what session request) (ActNext what session request) out.old out.new result }
{
    let tag = Tag(byte(request.first));
    match what {
        Act::Mark => mark(session, request, out),
        Act::Unmark => unmark(session, request, out),
        Act::Search => seek(session, tag, out),
        Act::Read => tell_plan(session, out),
        Act::Tick => step(session, Event::Tick, out),
        Act::Start => step(session, Event::Start(tag), out),
        Act::Bank => tell_bank(session, out),
    }
}

// One command on the unit; `line` is the line that said it, for the latencies that a judge is asked about.
pub fn turn(session: Session, request: Request, line: &[u8], out: &mut [u8]) -> Reply
    ensures { Turned session request line.now out.old out.new result }
{
    if !session.present {
        let end = text::put(out, 0, b"no unit\n");
        return Reply { session, end };
    }
    let verb = request.verb;
    match verb {
        Verb::Act(what) => act(session, what, request, out),
        Verb::Ask(what) => tell(session, what, request, line, out),
        Verb::Issue(what) => queue_text::answer(session, what, request, out),
        Verb::Share(what) => caller_text::answer(session, what, request, out),
        Verb::Fresh => Reply { session, end: 0 },
        Verb::Load => Reply { session, end: 0 },
        Verb::Show(_) => Reply { session, end: 0 },
        Verb::View(_) => Reply { session, end: 0 },
        Verb::Small => Reply { session, end: 0 },
    }
}
