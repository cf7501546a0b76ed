// Files by name: units and plan records. A name of the system's may be any bytes, but std takes text alone, so a name that is no UTF-8 names no file here.
ghost use Rattle.std.specs.Prelude.{◌≤◌, length};

use std::fs::{File, OpenFile, OpenOptions};
use std::io::{ErrorKind, Print, Read, Seek, SeekFrom, Write};
use std::rt::Files;
use std::{fs, io};
use unit::{FunctionUnit, Refusal, Tag};

// Reads some bytes, and answers how many stand at the buffer's front: 0 at the end, or where nothing can be read.
pub fn read_some(from: &mut impl Read, buffer: &mut [u8]) -> usize
    ensures { result ≤ length buffer.new }
{
    from.read(buffer).unwrap_or(0)
}

// Reads until the buffer is full, or nothing more can be read, and answers how many bytes stand at the buffer's front.
fn read_full(from: &mut impl Read, buffer: &mut [u8]) -> usize
    ensures { result ≤ length buffer.new }
{
    let mut done = 0;
    // A while: each read fills as much of the rest as it can.
    while done < buffer.len() {
        let count = read_some(from, &mut buffer[done..]);
        if count == 0 {
            break;
        }
        done += count;
    }
    done
}

// Reads the front of a file, and answers how many bytes were read, if it can be read. A folder can be opened and not read, and is no file.
fn read_front(from: &mut impl Read, file: &mut [u8]) -> Option<usize> {
    let first = from.read(file).ok()?;
    let more = read_full(from, &mut file[first..]);
    Some(first + more)
}

// Reads the front of the file of a name.
pub fn load(rt: &impl Files, name: &[u8], file: &mut [u8]) -> Option<usize> {
    let path = str::from_utf8(name).ok()?;
    let mut from = File::open(rt, path).ok()?;
    read_front(&mut from, file)
}

// Has what was written to a file stand there. A file system may tell only now that it does not. Devices and pipes have nothing to tell.
fn sync(file: &impl OpenFile) -> io::Result<()> {
    match file.sync_all() {
        Err(why) if why.kind() != ErrorKind::InvalidInput => Err(why),
        _ => Ok(()),
    }
}

// Writes bytes to a file that was opened, so that all of them stand there.
fn fill(to: &mut (impl Write + OpenFile), bytes: &[u8]) -> io::Result<()> {
    to.write_all(bytes)?;
    sync(to)
}

// Writes bytes to the file of a name, in place.
fn overwrite(rt: &impl Files, path: &str, bytes: &[u8]) -> io::Result<()> {
    let mut to = File::create(rt, path)?;
    fill(&mut to, bytes)
}

fn overwrite_and_rename(rt: &impl Files, path: &str, part: &str, bytes: &[u8]) -> io::Result<()> {
    overwrite(rt, part, bytes)?;
    fs::rename(rt, part, path)
}

// Writes bytes beside a file, under the name `part`, and gives them the file's name once they stand there whole. What was there before stays until
// then.
fn replace(rt: &impl Files, path: &str, part: &str, bytes: &[u8]) -> io::Result<()> {
    let replaced = overwrite_and_rename(rt, path, part, bytes);
    if replaced.is_err() {
        let _ = fs::remove_file(rt, part);
    }
    replaced
}

// Whether a name is a link.
fn is_link(rt: &impl Files, path: &str) -> bool {
    match fs::symlink_metadata(rt, path) {
        Ok(about) => about.is_symlink(),
        Err(_) => false,
    }
}

// Whether a file that was opened is a plain one: its length can be set, here to what it is.
fn is_plain(file: &mut (impl Seek + OpenFile)) -> bool {
    match file.seek(SeekFrom::End(0)) {
        Ok(length) => file.set_len(length).is_ok(),
        Err(_) => false,
    }
}

// Whether the file of a name is plain, or missing. A link, a device and a pipe are not.
fn is_replaceable(rt: &impl Files, path: &str) -> bool {
    if is_link(rt, path) {
        return false;
    }
    match OpenOptions::new().read(true).write(true).open(rt, path) {
        Ok(mut file) => is_plain(&mut file),
        Err(why) => why.kind() == ErrorKind::NotFound,
    }
}

// A name as text.
fn text_of<'a>(name: &'a [u8]) -> io::Result<&'a str> {
    match str::from_utf8(name) {
        Ok(text) => Ok(text),
        Err(_) => Err(io::Error::from(ErrorKind::InvalidInput)),
    }
}

// Writes bytes to a plain file of a name, or to a new one.
fn store_beside(rt: &impl Files, path: &str, bytes: &[u8]) -> io::Result<()> {
    let mut part = [0u8; 4200];
    let path_end = text::put(&mut part, 0, path.as_bytes());
    let end = text::put(&mut part, path_end, b".part");
    let name = crate::front(&part, end)?;
    replace(rt, path, text_of(name)?, bytes)
}

// Writes the front of an area to a file, so that it stands there. Links and devices are written in place.
fn store(rt: &impl Files, name: &[u8], area: &[u8], length: usize) -> io::Result<()> {
    let bytes = crate::front(area, length)?;
    let path = text_of(name)?;
    if is_replaceable(rt, path) {
        store_beside(rt, path, bytes)
    } else {
        overwrite(rt, path, bytes)
    }
}

// Writes what a writer put into an area to a file, and says whether it stands there.
fn keep(
    rt: &(impl Files + Print),
    name: &[u8],
    area: &[u8],
    written: Result<u32, Refusal>,
) -> io::Result<()> {
    match written {
        Err(why) => crate::say_refusal(rt, why),
        Ok(length) => {
            if store(rt, name, area, length as usize).is_ok() {
                rt.write_all(b"ok\n")
            } else {
                rt.write_all(b"not written\n")
            }
        }
    }
}

// Writes a unit's file.
pub fn save(rt: &(impl Files + Print), u: FunctionUnit, name: &[u8]) -> io::Result<()> {
    let mut area = [0u8; 512];
    let written = unit_writer::write(u, &mut area);
    keep(rt, name, &area, written)
}

// Writes the file of the unit with delays.
pub fn save_delays(
    rt: &(impl Files + Print),
    u: FunctionUnit,
    tag: Tag,
    latency: u8,
    name: &[u8],
) -> io::Result<()> {
    let mut area = [0u8; 512];
    let written = delay_text::write(u, tag, latency, &mut area);
    keep(rt, name, &area, written)
}

// Writes the record of a function's plan. There is room for every record (`NoLonger`, crate plan_record).
pub fn save_record(
    rt: &(impl Files + Print),
    u: FunctionUnit,
    tag: Tag,
    name: &[u8],
) -> io::Result<()> {
    let mut area = plan_record::area();
    let written = record_text::write_plan(u, tag, &mut area);
    keep(rt, name, &area, written)
}
