// Reads unit files and prints a line, or the listing, for each: those of the papers' tables, damaged ones, and files drawn at random. The file stdout
// beside it holds the answers that follow from the papers, worked out by hand; the counts of random files come from a separate model of the order
// in which a file is tried.
#![tactic(auto)]

ghost use Rattle.std.specs.Prelude.{◌≡◌, length};

use std::io;
use std::io::Print;
use unit::{Outcome, Refusal, Tag};

// The file of Fig. 2, and 32 bytes after it: counts 2 3 5, offsets 8 and 20, and for each function three words. A in columns 1 4; 2; 3 5, B in 2 5; 4; 1 3.
const FIGURE_2: [u8; 64] = *b"\
\x02\x03\x05\x00\x08\x00\x14\x00\
\x09\x00\x00\x00\x02\x00\x00\x00\x14\x00\x00\x00\
\x12\x00\x00\x00\x08\x00\x00\x00\x05\x00\x00\x00\
\x00\x00\x00\x00\x00\x00\x00\x00\x00\x00\x00\x00\x00\x00\x00\x00\
\x00\x00\x00\x00\x00\x00\x00\x00\x00\x00\x00\x00\x00\x00\x00\x00";

// Printing.

fn print_number(rt: &impl Print, number: u32) -> io::Result<()> {
    print!(rt; " {number}")
}

fn print_refusal(rt: &impl Print, why: Refusal) -> io::Result<()> {
    rt.write_all(b" refused")?;
    print_number(rt, u32::from(why))
}

fn print_text(rt: &impl Print, area: &[u8], length: usize) -> io::Result<()> {
    if length <= area.len() {
        rt.write_all(&area[..length])?;
    }
    Ok(())
}

// The listing of a file, after its name and a colon. An accepted file's lines begin on a line of their own.
fn print_listing(rt: &impl Print, name: &[u8], between: &[u8], file: &[u8]) -> io::Result<()> {
    let mut area = [0u8; listing::AREA];
    let listed = listing::list_file(file, &mut area);
    rt.write_all(name)?;
    rt.write_all(between)?;
    match listed {
        Ok(length) => print_text(rt, &area, length as usize),
        Err(why) => print_refusal(rt, why),
    }
}

// The listing of the front of a list of bytes.
fn print_front(
    rt: &impl Print,
    name: &[u8],
    between: &[u8],
    bytes: &[u8],
    count: usize,
) -> io::Result<()> {
    if count <= bytes.len() {
        print_listing(rt, name, between, &bytes[..count])?;
    }
    Ok(())
}

// Reading.

// What the front of a list of bytes is read as.
fn read_front(bytes: &[u8], count: usize) -> Outcome {
    if count <= bytes.len() {
        return unit_file::read(&bytes[..count]);
    }
    unit_file::read(bytes)
}

// The marks of Fig. 2 come back: row B of M_A, 1010, whose word is 10. A unit from a file has no plan.
fn try_reading(rt: &impl Print) -> io::Result<()> {
    let file = FIGURE_2;
    let back = read_front(&file, 32);
    let answer = back.answer;
    rt.write_all(b"fig 2 file read")?;
    print_number(rt, unit::number_in(answer) as u32)?;
    let row = collision::matrix_row(back.unit, Tag(2), Tag(1));
    rt.write_all(b", row B of M_A")?;
    match row {
        Ok(word) => print_number(rt, word)?,
        Err(why) => print_refusal(rt, why)?,
    }
    rt.write_all(b", its plan")?;
    let number = match planner::read(back.unit) {
        Ok(_) => 0,
        Err(why) => u32::from(why),
    };
    print_number(rt, number)?;
    rt.write_all(b"\n")
}

// The file of Fig. 2 with two bytes changed.
fn damaged(one: usize, byte: u8, other: usize, second: u8) -> [u8; 64]
    ensures { 64 ≡ length result }
{
    let mut file = FIGURE_2;
    file[one % 64] = byte;
    file[other % 64] = second;
    file
}

fn show_damaged(
    rt: &impl Print,
    name: &[u8],
    one: usize,
    byte: u8,
    other: usize,
    second: u8,
    count: usize,
) -> io::Result<()> {
    let file = damaged(one, byte, other, second);
    print_front(rt, name, b": ", &file, count)
}

fn try_damaged(rt: &impl Print) -> io::Result<()> {
    show_damaged(rt, b"empty file", 0, 2, 0, 2, 0)?;
    show_damaged(rt, b"3 bytes", 0, 2, 0, 2, 3)?;
    show_damaged(rt, b"5 functions in 3 bytes", 0, 5, 0, 5, 3)?;
    show_damaged(rt, b"5 functions in 4 bytes", 0, 5, 0, 5, 4)?;
    show_damaged(rt, b"0 columns", 2, 0, 2, 0, 32)?;
    show_damaged(rt, b"17 segments in 31 bytes", 1, 17, 1, 17, 31)?;
    show_damaged(rt, b"31 bytes", 0, 2, 0, 2, 31)?;
    show_damaged(rt, b"33 bytes", 0, 2, 0, 2, 33)?;
    show_damaged(rt, b"byte 3 is 1", 3, 1, 3, 1, 32)?;
    show_damaged(rt, b"offset 2 is 22", 6, 22, 6, 22, 32)?;
    show_damaged(rt, b"offset 2 is 22 in 31 bytes", 6, 22, 6, 22, 31)?;
    show_damaged(rt, b"a mark in column 6", 8, 41, 8, 41, 32)?;
    show_damaged(rt, b"a mark in column 6, and byte 3 is 1", 8, 41, 3, 1, 32)
}

// Random files. Each number follows from the one before.

fn next_number(number: u32) -> u32 {
    ((number as u64 * 1103515245 + 12345) % 2147483648) as u32
}

// One of 0 to 255, from the upper bits.
fn byte_of(number: u32) -> u8 {
    (number / 65536 % 256) as u8
}

fn answer_of(bytes: &[u8], count: usize) -> usize {
    let back = read_front(bytes, count);
    let answer = back.answer;
    unit::number_in(answer) as usize
}

fn count(counts: &mut [u32; 14], answer: usize) {
    if answer < 14 {
        counts[answer] = counts[answer].wrapping_add(1);
    }
}

// The file of Fig. 2 with one byte of its first 32 changed, and in one of four cases a byte short.
fn damaged_answer(first: u32, second: u32) -> usize {
    let at = (first / 65536 % 32) as usize;
    let byte = byte_of(second);
    let file = damaged(at, byte, at, byte);
    if first / 2097152 % 4 == 0 {
        return answer_of(&file, 31);
    }
    answer_of(&file, 32)
}

fn print_counts(rt: &impl Print, name: &[u8], counts: [u32; 14]) -> io::Result<()> {
    rt.write_all(name)?;
    print_number(rt, counts[0])?;
    rt.write_all(b" accepted, 1:")?;
    print_number(rt, counts[1])?;
    rt.write_all(b" 11:")?;
    print_number(rt, counts[11])?;
    rt.write_all(b" 12:")?;
    print_number(rt, counts[12])?;
    rt.write_all(b" 13:")?;
    print_number(rt, counts[13])?;
    rt.write_all(b"\n")
}

fn try_random_damage(rt: &impl Print) -> io::Result<()> {
    let mut counts = [0u32; 14];
    let mut number: u32 = 1;
    for _ in 0..2000 {
        let first = next_number(number);
        let second = next_number(first);
        number = second;
        count(&mut counts, damaged_answer(first, second));
    }
    print_counts(rt, b"2000 damaged files:", counts)
}

// Random bytes, of which the first four are small, so that some files get past the counts.
fn random_byte(index: usize, number: u32) -> u8 {
    let byte = byte_of(number);
    match index {
        0 | 1 => byte % 5,
        2 => byte % 33,
        3 => byte % 2,
        _ => byte,
    }
}

fn random_file(seed: u32) -> [u8; 64]
    ensures { 64 ≡ length result }
{
    let mut file = [0u8; 64];
    let mut number = seed;
    for (i, byte) in file.iter_mut().enumerate() {
        number = next_number(number);
        *byte = random_byte(i, number);
    }
    file
}

// The file of random bytes, cut to a random length below 64.
fn random_answer(number: u32) -> usize {
    let file = random_file(number);
    let end = (number / 65536 % 64) as usize;
    answer_of(&file, end)
}

fn try_random_bytes(rt: &impl Print) -> io::Result<()> {
    let mut counts = [0u32; 14];
    let mut number: u32 = 2;
    for _ in 0..2000 {
        number = next_number(number);
        count(&mut counts, random_answer(number));
    }
    print_counts(rt, b"2000 random files:", counts)
}

fn main(rt: HostRuntime) -> io::Result<()> {
    try_reading(&rt)?;
    let file = FIGURE_2;
    print_front(&rt, b"fig 2", b" file:\n", &file, 32)?;
    print_listing(
        &rt,
        b"no marks",
        b" file:\n",
        b"\x01\x01\x01\x00\x06\x00\x00\x00\x00\x00",
    )?;
    print_listing(
        &rt,
        b"marks 1 11",
        b" file:\n",
        b"\x01\x01\x10\x00\x06\x00\x01\x04\x00\x00",
    )?;
    try_damaged(&rt)?;
    try_random_damage(&rt)?;
    try_random_bytes(&rt)
}
