// The designer's console: reads commands from standard input, one a line, and answers each on standard output. What a line says, what a
// command does and every byte of an answer are given by the contracts of the crates below; here lines are cut out of the input, and files are
// opened. The program stops at the first answer that can't be written.
#![tactic(auto)]

mod files;

ghost use Rattle.std.specs.Prelude.{◌≡◌, length};

use command::{Request, Trouble};
use command_table::{Show, Verb, View};
use session::{Reply, Session};
use std::io;
use std::io::{ErrorKind, Input, Print, Read};
use std::rt::Files;
use unit::{FunctionUnit, Refusal, Tag};

// Answers.

// The front of an area. No answer is longer than its area.
fn front<'a>(area: &'a [u8], length: usize) -> io::Result<&'a [u8]> {
    if length <= area.len() {
        return Ok(&area[..length]);
    }
    Err(io::Error::from(ErrorKind::InvalidInput))
}

fn say_front(rt: &impl Print, area: &[u8], length: usize) -> io::Result<()> {
    rt.write_all(front(area, length)?)
}

fn say_refusal(rt: &impl Print, why: Refusal) -> io::Result<()> {
    let mut area = [0u8; 64];
    let end = session::put_answer(&mut area, Err(why));
    say_front(rt, &area, end)
}

fn say_trouble(rt: &impl Print, number: u32, trouble: Trouble) -> io::Result<()> {
    let mut area = [0u8; 80];
    let end = command_text::put_trouble(&mut area, 0, number, trouble);
    say_front(rt, &area, end)
}

fn say_drawn(rt: &impl Print, drawn: Result<u32, Refusal>, area: &[u8]) -> io::Result<()> {
    match drawn {
        Ok(length) => say_front(rt, area, length as usize),
        Err(why) => say_refusal(rt, why),
    }
}

// Commands.

// Zeros for a listing, and for the text of a diagram. The `ensures` gives their number, which lending them as a slice needs.
fn list_area() -> [u8; listing::AREA]
    ensures { 8888 ≡ length result }
{
    [0; listing::AREA]
}

fn list(rt: &impl Print, u: FunctionUnit) -> io::Result<()> {
    let mut area = list_area();
    let listed = listing::list_unit(u, &mut area);
    match listed {
        Ok(length) => say_front(rt, &area, length as usize),
        Err(why) => say_refusal(rt, why),
    }
}

fn draw_table(rt: &impl Print, u: FunctionUnit, tag: Tag) -> io::Result<()> {
    let mut area = [0u8; drawing::TABLE];
    let drawn = drawing::table(u, tag, &mut area);
    say_drawn(rt, drawn, &area)
}

fn dot_area() -> [u8; graph::DOT]
    ensures { 1048576 ≡ length result }
{
    [0; graph::DOT]
}

fn draw_diagram(rt: &impl Print, u: FunctionUnit, tag: Tag) -> io::Result<()> {
    let mut area = dot_area();
    let drawn = graph::dot(u, tag, &mut area);
    say_drawn(rt, drawn, &area)
}

fn tell_loop(rt: &impl Print, u: FunctionUnit, line: &[u8]) -> io::Result<()> {
    let mut area = [0u8; 4096];
    let end = loop_text::answer(u, line, &mut area);
    say_front(rt, &area, end)
}

fn simulate(rt: &impl Print, u: FunctionUnit, tag: Tag, units: u32) -> io::Result<()> {
    let mut area = chart::area();
    let charted = chart::simulate(u, tag, units, &mut area);
    match charted {
        Ok(length) => say_front(rt, &area, length),
        Err(why) => say_refusal(rt, why),
    }
}

fn draw_delays(rt: &impl Print, u: FunctionUnit, tag: Tag, latency: u8) -> io::Result<()> {
    let mut area = [0u8; drawing::TABLE];
    let drawn = delay_text::draw(u, tag, latency, &mut area);
    say_drawn(rt, drawn, &area)
}

// The unit with delays: its table, or, where a third word names a file, its unit file.
fn show_delays(
    rt: &(impl Files + Print),
    u: FunctionUnit,
    tag: Tag,
    request: Request,
    line: &[u8],
) -> io::Result<()> {
    let latency = words::byte(request.second);
    if request.count < 3 {
        return draw_delays(rt, u, tag, latency);
    }
    files::save_delays(rt, u, tag, latency, command::word(line, request.count))
}

// What leaves the session as it is: to save the unit or the record of a plan, to list, to draw, to look for a loop, to play a plan, and to give delays.
fn show_unit(
    rt: &(impl Files + Print),
    u: FunctionUnit,
    what: Show,
    request: Request,
    line: &[u8],
) -> io::Result<()> {
    let tag = Tag(words::byte(request.first));
    match what {
        Show::Save => files::save(rt, u, command::word(line, request.count)),
        Show::List => list(rt, u),
        Show::Table => draw_table(rt, u, tag),
        Show::Diagram => draw_diagram(rt, u, tag),
        Show::Loop => tell_loop(rt, u, line),
        Show::Record => files::save_record(rt, u, tag, command::word(line, request.count)),
        Show::Simulate => simulate(rt, u, tag, request.second),
        Show::Delays => show_delays(rt, u, tag, request, line),
    }
}

// Says the answer, and hands on the session.
fn conclude(rt: &impl Print, reply: Reply, area: &[u8]) -> io::Result<Session> {
    say_front(rt, area, reply.end)?;
    Ok(reply.session)
}

fn fresh(rt: &impl Print, session: Session, request: Request) -> io::Result<Session> {
    let mut area = [0u8; 4096];
    let reply = session::fresh(session, request, &mut area);
    conclude(rt, reply, &area)
}

fn small(rt: &impl Print, session: Session, request: Request) -> io::Result<Session> {
    let mut area = [0u8; 4096];
    let reply = small_text::answer(session, request, &mut area);
    conclude(rt, reply, &area)
}

fn turn(rt: &impl Print, session: Session, request: Request, line: &[u8]) -> io::Result<Session> {
    let mut area = [0u8; 4096];
    let reply = console::turn(session, request, line, &mut area);
    conclude(rt, reply, &area)
}

fn show(
    rt: &(impl Files + Print),
    session: Session,
    what: Show,
    request: Request,
    line: &[u8],
) -> io::Result<Session> {
    if session.present {
        show_unit(rt, session.unit, what, request, line)?;
        return Ok(session);
    }
    turn(rt, session, request, line)
}

fn load_file(rt: &impl Print, session: Session, file: &[u8]) -> io::Result<Session> {
    let mut area = [0u8; 4096];
    let reply = session::load(session, file, &mut area);
    conclude(rt, reply, &area)
}

// No unit file has more than 268 bytes, and the answer to a longer one depends on its first 269 alone (`read_cut`, crate unit_file).
fn load(rt: &(impl Files + Print), session: Session, name: &[u8]) -> io::Result<Session> {
    let mut file = [0u8; 512];
    let found = files::load(rt, name, &mut file);
    match found {
        None => {
            rt.write_all(b"no file\n")?;
            Ok(session)
        }
        Some(count) => load_file(rt, session, front(&file, count)?),
    }
}

// What the report, or the loader, reads from a file.
fn report(rt: &impl Print, file: &[u8]) -> io::Result<()> {
    let mut area = [0u8; 4096];
    let end = record_text::report(file, &mut area);
    say_front(rt, &area, end)
}

fn ring(rt: &impl Print, file: &[u8]) -> io::Result<()> {
    let mut area = [0u8; 65536];
    let end = record_text::ring(file, &mut area);
    say_front(rt, &area, end)
}

fn view_file(rt: &impl Print, what: View, file: &[u8]) -> io::Result<()> {
    match what {
        View::Report => report(rt, file),
        View::Ring => ring(rt, file),
    }
}

// No record has more than 1,288 bytes, and of a longer file the first 1,289 tell as much as all (`FrontTells`, crate plan_record).
fn view(
    rt: &(impl Files + Print),
    session: Session,
    what: View,
    name: &[u8],
) -> io::Result<Session> {
    let mut file = [0u8; 2048];
    let found = files::load(rt, name, &mut file);
    match found {
        None => rt.write_all(b"no file\n")?,
        Some(count) => view_file(rt, what, front(&file, count)?)?,
    }
    Ok(session)
}

fn obey(
    rt: &(impl Files + Print),
    session: Session,
    request: Request,
    line: &[u8],
) -> io::Result<Session> {
    let verb = request.verb;
    match verb {
        Verb::Fresh => fresh(rt, session, request),
        Verb::Load => load(rt, session, command::word(line, request.count)),
        Verb::Small => small(rt, session, request),
        Verb::Show(what) => show(rt, session, what, request, line),
        Verb::View(what) => view(rt, session, what, command::word(line, request.count)),
        _ => turn(rt, session, request, line),
    }
}

fn answer(
    rt: &(impl Files + Print),
    session: Session,
    number: u32,
    line: &[u8],
) -> io::Result<Session> {
    let said = command::parse(line);
    match said {
        Ok(None) => Ok(session),
        Err(trouble) => {
            say_trouble(rt, number, trouble)?;
            Ok(session)
        }
        Ok(Some(request)) => obey(rt, session, request, line),
    }
}

// Lines. A line is held in 4,097 bytes: where it is longer, what is held is longer than a command can be, and the rest is passed over.

// The session, the number of the present line, and how many of its bytes are held.
#[derive(Clone, Copy)]
struct Reading {
    session: Session,
    number: u32,
    held: usize,
}

fn end_line(rt: &(impl Files + Print), reading: &mut Reading, line: &[u8]) -> io::Result<()> {
    let held = front(line, reading.held)?;
    reading.session = answer(rt, reading.session, reading.number, held)?;
    reading.number = reading.number.saturating_add(1);
    reading.held = 0;
    Ok(())
}

fn take_byte(
    rt: &(impl Files + Print),
    reading: &mut Reading,
    byte: u8,
    line: &mut [u8],
) -> io::Result<()> {
    if byte == b'\n' {
        return end_line(rt, reading, line);
    }
    let held = reading.held;
    if held < line.len() {
        line[held] = byte;
        reading.held = held + 1;
    }
    Ok(())
}

fn take_bytes(
    rt: &(impl Files + Print),
    reading: &mut Reading,
    bytes: &[u8],
    line: &mut [u8],
) -> io::Result<()> {
    for byte in bytes {
        take_byte(rt, reading, *byte, line)?;
    }
    Ok(())
}

// Reads some of the input, answers every line that ends in it, and tells whether there was any: there is none at the end of the input.
fn take_some(
    rt: &(impl Files + Print),
    input: &mut impl Read,
    reading: &mut Reading,
    line: &mut [u8],
) -> io::Result<bool> {
    let mut chunk = [0u8; 65536];
    let count = files::read_some(input, &mut chunk);
    take_bytes(rt, reading, &chunk[..count], line)?;
    Ok(0 < count)
}

// All of the input. A proved loop has to end, so it takes no more turns than a number that no run uses up.
fn take_all(
    rt: &(impl Files + Print),
    input: &mut impl Read,
    reading: &mut Reading,
    line: &mut [u8],
) -> io::Result<()> {
    for _ in 0..u64::MAX {
        if !take_some(rt, input, reading, line)? {
            break;
        }
    }
    Ok(())
}

// What comes after the last newline is a line too.
fn converse(rt: &(impl Files + Input + Print)) -> io::Result<()> {
    let session = session::open();
    let mut line = [0u8; 4097];
    let mut reading = Reading {
        session,
        number: 1,
        held: 0,
    };
    let mut input = rt.reader();
    take_all(rt, &mut input, &mut reading, &mut line)?;
    if 0 < reading.held {
        end_line(rt, &mut reading, &line)?;
    }
    Ok(())
}

// Where an answer can't be written, there is nobody to tell.
fn main(rt: HostRuntime) {
    let _ = converse(&rt);
}
