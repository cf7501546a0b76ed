// Prints the totals of every size of small tables, a line for each: 1 and 2 segments, each with 1 to 6 columns. It searches 5,586 tables in less than a
// tenth of a second, so that there is no progress to tell. The program stops at the first line that can't be written.
#![tactic(auto)]

use std::io;
use std::io::{ErrorKind, Print};

fn print_front(rt: &impl Print, area: &[u8], length: usize) -> io::Result<()> {
    if length <= area.len() {
        return rt.write_all(&area[..length]);
    }
    Err(io::Error::from(ErrorKind::InvalidInput))
}

fn print_totals(rt: &impl Print, segments: u8, columns: u8) -> io::Result<()> {
    let mut work = [0u32; 16000];
    let totalled = table_totals::totals(segments, columns, &mut work);
    let mut area = [0u8; 4096];
    let end = small_text::put_totals(&mut area, totalled);
    print_front(rt, &area, end)
}

fn print_sizes(rt: &impl Print) -> io::Result<()> {
    for segments in 1..=2u8 {
        for columns in 1..=6u8 {
            print!(rt; "segments {segments} columns {columns} ")?;
            print_totals(rt, segments, columns)?;
        }
    }
    Ok(())
}

fn main(rt: HostRuntime) {
    let _ = print_sizes(&rt);
}
