// The configurator: reads a unit file from standard input, however long, and prints its listing.
#![tactic(auto)]

ghost use Rattle.std.specs.Prelude.{◌≤◌, length};

use std::io::{Input, Print, Read};

// Reads some of the input, and answers how many bytes of the buffer it filled: 0 at the end of the input, or where it can't be read.
fn read_some(input: &mut impl Read, buffer: &mut [u8]) -> usize
    ensures { result ≤ length buffer.new }
{
    input.read(buffer).unwrap_or(0)
}

// Reads until the buffer is full, or there is no more input, and answers how many bytes stand at the buffer's front.
fn read_full(input: &mut impl Read, buffer: &mut [u8]) -> usize
    ensures { result ≤ length buffer.new }
{
    let mut done = 0;
    // A while: each read fills as much of the rest as it can.
    while done < buffer.len() {
        let count = read_some(input, &mut buffer[done..]);
        if count == 0 {
            break;
        }
        done += count;
    }
    done
}

// Reads some of what is left of the input, and answers whether there was any.
fn skip_some(input: &mut impl Read) -> bool {
    let mut space = [0u8; 65536];
    0 < read_some(input, &mut space)
}

// What is left of the input is read and not used, so that whoever writes it is not cut off. A proved loop has to end, so it takes no more turns
// than a number that no run uses up.
fn skip_rest(input: &mut impl Read) {
    for _ in 0..u64::MAX {
        if !skip_some(input) {
            break;
        }
    }
}

// Where the output can't be written, there is nobody to tell.
fn print_text(rt: &impl Print, area: &[u8], length: usize) {
    if length <= area.len() {
        let _ = rt.write_all(&area[..length]);
    }
}

// No unit file has more than 268 bytes, and the answer to a longer one depends on its first 269 alone (`read_cut`, crate unit_file).
fn main(rt: HostRuntime) {
    let mut input = rt.reader();
    let mut file = [0u8; 512];
    let count = read_full(&mut input, &mut file);
    skip_rest(&mut input);
    let mut area = [0u8; listing::AREA];
    let listed = listing::list_file(&file[..count], &mut area);
    match listed {
        Ok(length) => print_text(&rt, &area, length as usize),
        Err(_) => {}
    }
}
