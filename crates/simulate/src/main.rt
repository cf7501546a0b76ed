// The simulator: `simulate Q UNITS` reads a unit file from standard input, however long, searches for the best plan of function Q, plays it for so many
// time units, and prints the chart, or why there is none. What is read, found and printed is given by the contracts of the crates below; here the
// arguments are put into a line of the console, which says what they are.
#![tactic(auto)]

ghost use Rattle.std.specs.Prelude.{◌≤◌, length};

use command::{Request, Trouble};
use std::env::{Env, FillError};
use std::io::{Input, Print, Read};
use unit::{FunctionUnit, Outcome, Refusal, Tag};

// Answers. Where one can't be written, there is nobody to tell.

fn print_text(rt: &impl Print, area: &[u8], length: usize) {
    if length <= area.len() {
        let _ = rt.write_all(&area[..length]);
    }
}

fn print_refusal(rt: &impl Print, why: Refusal) {
    let mut area = [0u8; 64];
    let end = session::put_answer(&mut area, Err(why));
    print_text(rt, &area, end);
}

fn print_usage(rt: &impl Print) {
    let _ = rt.write_all(b"expected simulate Q UNITS\n");
}

// The unit.

// Reads some of the input, and answers how many bytes of the buffer it filled: 0 at the end of the input, or where it can't be read.
fn read_some(input: &mut impl Read, buffer: &mut [u8]) -> usize
    ensures { result ≤ length buffer.new }
{
    input.read(buffer).unwrap_or(0)
}

// Reads until the buffer is full, or there is no more input, and answers how many bytes stand at the buffer's front.
fn read_full(input: &mut impl Read, buffer: &mut [u8]) -> usize
    ensures { result ≤ length buffer.new }
{
    let mut done = 0;
    // A while: each read fills as much of the rest as it can.
    while done < buffer.len() {
        let count = read_some(input, &mut buffer[done..]);
        if count == 0 {
            break;
        }
        done += count;
    }
    done
}

// Reads some of what is left of the input, and answers whether there was any.
fn skip_some(input: &mut impl Read) -> bool {
    let mut space = [0u8; 65536];
    0 < read_some(input, &mut space)
}

// What is left of the input is read and not used, so that whoever writes it is not cut off. A proved loop has to end, so it takes no more turns
// than a number that no run uses up.
fn skip_rest(input: &mut impl Read) {
    for _ in 0..u64::MAX {
        if !skip_some(input) {
            break;
        }
    }
}

// No unit file has more than 268 bytes, and the answer to a longer one depends on its first 269 alone (`read_cut`, crate unit_file).
fn read_unit(rt: &impl Input) -> Outcome {
    let mut input = rt.reader();
    let mut file = [0u8; 512];
    let count = read_full(&mut input, &mut file);
    skip_rest(&mut input);
    unit_file::read(&file[..count])
}

fn search(u: FunctionUnit, tag: Tag) -> Outcome {
    let mut work = [0u32; 16000];
    planner::search(u, tag, &mut work)
}

fn print_chart(rt: &impl Print, u: FunctionUnit, tag: Tag, units: u32) {
    let mut area = chart::area();
    let charted = chart::simulate(u, tag, units, &mut area);
    match charted {
        Ok(length) => print_text(rt, &area, length),
        Err(why) => print_refusal(rt, why),
    }
}

fn play(rt: &impl Print, u: FunctionUnit, tag: Tag, units: u32) {
    let found = search(u, tag);
    let answer = found.answer;
    let planned = found.unit;
    match answer {
        Ok(()) => print_chart(rt, planned, tag, units),
        Err(why) => print_refusal(rt, why),
    }
}

fn obey(rt: &(impl Input + Print), request: Request) {
    let tag = Tag(words::byte(request.first));
    let read = read_unit(rt);
    let answer = read.answer;
    let u = read.unit;
    match answer {
        Ok(()) => play(rt, u, tag, request.second),
        Err(why) => print_refusal(rt, why),
    }
}

// The arguments.

// Where an argument that was put into the line ends there, and how many bytes it has.
#[derive(Clone, Copy)]
struct Placed {
    end: usize,
    length: usize,
}

// The bytes of an argument need not be text. One that is missing, or longer than any that says something, is put as an empty one.
fn put_argument(rt: &impl Env, line: &mut [u8], at: usize, index: usize) -> Placed {
    let mut argument = [0u8; 4096];
    let length = rt.arg(index, &mut argument).unwrap_or(0);
    let end = text::put(line, at, &argument[..length]);
    Placed { end, length }
}

// Whether a word of the line has so many bytes.
fn is_long(line: &[u8], index: usize, length: usize) -> bool {
    command::word(line, index).len() == length
}

// What the front of the line says, if its words are as long as the arguments. An argument that is empty or holds blanks, or for which there is no room,
// leaves a word of another length, or none.
fn parse_front(
    area: &[u8],
    end: usize,
    first: usize,
    second: usize,
) -> Result<Option<Request>, Trouble> {
    if area.len() < end {
        return Ok(None);
    }
    let line = &area[..end];
    if is_long(line, 1, first) && is_long(line, 2, second) {
        return command::parse(line);
    }
    Ok(None)
}

// Whether there is an argument of this index, however long.
fn has_argument(rt: &impl Env, index: usize) -> bool {
    match rt.arg(index, &mut []) {
        Ok(_) | Err(FillError::TooLong) => true,
        Err(FillError::NotPresent) => false,
    }
}

// Whether there are two arguments. The program's name comes before them, at 0.
fn has_two_arguments(rt: &impl Env) -> bool {
    has_argument(rt, 2) && !has_argument(rt, 3)
}

// What the arguments say: the command `simulate` with its two numbers, or anything else.
fn parse_arguments(rt: &impl Env) -> Result<Option<Request>, Trouble> {
    if !has_two_arguments(rt) {
        return Ok(None);
    }
    let mut line = [0u8; 4096];
    let name = text::put(&mut line, 0, b"simulate ");
    let first = put_argument(rt, &mut line, name, 1);
    let space = text::put(&mut line, first.end, b" ");
    let second = put_argument(rt, &mut line, space, 2);
    parse_front(&line, second.end, first.length, second.length)
}

fn main(rt: HostRuntime) {
    let said = parse_arguments(&rt);
    match said {
        Ok(Some(request)) => obey(&rt, request),
        _ => print_usage(&rt),
    }
}
