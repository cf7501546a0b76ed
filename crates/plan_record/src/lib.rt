// The plan record: a plan's cycle as bytes, for the report, which reads its latencies, and for the controller's loader, which reads document 000's
// end-around bit ring. Every function here is proved, and every public one is total and without a `requires`; the crate assumes nothing of its own.
#![tactic(auto)]

ghost use Rattle.std.specs.Prelude.{◌≡◌, cond, ◌&&◌, ◌+◌, ◌*◌, ◌≤◌, ltb, eqb, length, replicate};
ghost use Rattle.words.specs.Below.{list_below};
ghost use Rattle.text.specs.Text.{same, placed};
ghost use Rattle.collision.specs.Pipeline.{total};
ghost use Rattle.plan_record.specs.Record.{Recordable, recordable, ring_byte, fields, record_of, longest_record};
ghost use Rattle.plan_record.specs.Read.{is_record, report_answer, report_list, load_answer, load_ring};
ghost use Rattle.plan_record.specs.Write.{cycle_in, holds_cycle, writable, write_answer, write_out};
ghost use Rattle.plan_record.specs.Inner.{Reached, Made, Field, Writable};

use unit::{Plan, Refusal};

// No record has more bytes.
pub const LONGEST: usize = 1288;

// Zeros, room for every record.
pub fn area() -> [u8; LONGEST]
    ensures { result ≡ replicate longest_record 0 }
{
    [0; LONGEST]
}

// A byte of the ring, and the start that comes next after it: how many latencies stand before it, and their sum.
#[derive(Clone, Copy)]
struct Turned {
    byte: u8,
    index: usize,
    next: usize,
}

// The sum of a list that is a cycle of 1 to 256 latencies, each 1 to 32; 0 for any other list.
fn cycle_sum(list: &[u8]) -> usize
    ensures { result ≡ cond (recordable list.now) (total list.now) 0 }
{
    if 256 < list.len() {
        return 0;
    }
    let mut sum: usize = 0;
    for &latency in list {
        if latency == 0 {
            return 0;
        }
        if 32 < latency {
            return 0;
        }
        sum += latency as usize;
    }
    sum
}

// Whether the ring's next start, before which `index` of `count` latencies stand, is here.
fn starts_here(count: usize, index: usize, next: usize, here: usize) -> bool
    ensures { result ≡ ltb index count && eqb here next }
{
    if index < count {
        if here == next {
            return true;
        }
    }
    false
}

// Byte j of the ring of a cycle, which has been followed up to there.
fn ring_byte(list: &[u8], j: usize, index: usize, next: usize) -> Turned
    requires { (j ≤ 1024) × Reached list.now (8 * j) index next }
    ensures { Made list.now j result }
{
    let mut byte: u32 = 0;
    let mut passed = index;
    let mut start = next;
    for bit in 0..8 {
        let here = 8 * j + bit as usize;
        if starts_here(list.len(), passed, start, here) {
            start += list[passed] as usize;
            passed += 1;
        } else {
            byte = words::set(byte, bit);
        }
    }
    let made = byte as u8;
    Turned {
        byte: made,
        index: passed,
        next: start,
    }
}

// Whether bytes are the first of the ring of a cycle.
fn ring_matches(ring: &[u8], list: &[u8]) -> bool
    requires { (length ring.now ≤ 1024) × Recordable list.now }
    ensures { result ≡ same ring.now (list_below (length ring.now) (ring_byte list.now)) }
{
    let mut index: usize = 0;
    let mut next: usize = 0;
    for (j, byte) in ring.iter().enumerate() {
        let turned = ring_byte(list, j, index, next);
        if turned.byte != *byte {
            return false;
        }
        index = turned.index;
        next = turned.next;
    }
    true
}

// Writes the first `size` bytes of the ring of a cycle from a place on.
fn write_ring(out: &mut [u8], at: usize, size: usize, list: &[u8])
    requires { (size ≤ 1024) × (at + size ≤ length out.old) × Recordable list.now }
    ensures { out.new ≡ placed out.old at (list_below size (ring_byte list.now)) }
{
    let mut index: usize = 0;
    let mut next: usize = 0;
    for j in 0..size {
        let turned = ring_byte(list, j, index, next);
        out[at + j] = turned.byte;
        index = turned.index;
        next = turned.next;
    }
}

// The little-endian 16-bit field at a place.
fn field_at(bytes: &[u8], at: usize) -> u16
    requires { at + 2 ≤ length bytes.now }
    ensures { Field bytes.now at result }
{
    bytes[at] as u16 + 256 * (bytes[at + 1] as u16)
}

// Whether the bytes are the record of a cycle of 1 to 256 latencies, each 1 to 32.
fn is_record(bytes: &[u8]) -> bool
    ensures { result ≡ is_record bytes.now }
{
    if bytes.len() < 8 {
        return false;
    }
    let count = field_at(bytes, 0) as usize;
    let sum = field_at(bytes, 2) as usize;
    let list_at = field_at(bytes, 4) as usize;
    let ring_at = field_at(bytes, 6) as usize;
    if list_at != 8 {
        return false;
    }
    if ring_at != 8 + count {
        return false;
    }
    if bytes.len() < ring_at {
        return false;
    }
    let adds = cycle_sum(&bytes[8..ring_at]);
    if adds == 0 {
        return false;
    }
    if adds != sum {
        return false;
    }
    if bytes.len() != ring_at + (sum + 7) / 8 {
        return false;
    }
    ring_matches(&bytes[ring_at..], &bytes[8..ring_at])
}

// The report reader's number: K.
pub fn report(bytes: &[u8]) -> Result<u16, Refusal>
    ensures { result ≡ report_answer bytes.now }
{
    if !is_record(bytes) {
        return Err(Refusal::BadRecord);
    }
    Ok(field_at(bytes, 0))
}

// The report reader's list, as a part of the record; empty where the record is refused.
pub fn report_list(bytes: &[u8]) -> &[u8]
    ensures { result.now ≡ report_list bytes.now }
{
    if !is_record(bytes) {
        return &bytes[..0];
    }
    let ring_at = 8 + field_at(bytes, 0) as usize;
    &bytes[8..ring_at]
}

// The loader's number: S.
pub fn load(bytes: &[u8]) -> Result<u16, Refusal>
    ensures { result ≡ load_answer bytes.now }
{
    if !is_record(bytes) {
        return Err(Refusal::BadRecord);
    }
    Ok(field_at(bytes, 2))
}

// The loader's ring, as a part of the record; empty where the record is refused.
pub fn load_ring(bytes: &[u8]) -> &[u8]
    ensures { result.now ≡ load_ring bytes.now }
{
    if !is_record(bytes) {
        return &bytes[..0];
    }
    let ring_at = 8 + field_at(bytes, 0) as usize;
    &bytes[ring_at..]
}

// Whether all bytes are 0.
fn all_zero(bytes: &[u8]) -> bool
    ensures { result ≡ same bytes.now (replicate (length bytes.now) 0) }
{
    bytes.iter().all(|byte| *byte == 0)
}

// Whether some cycle of 1 to 256 latencies, each 1 to 32, gives the plan.
pub fn holds_cycle(plan: Plan) -> bool
    ensures { result ≡ holds_cycle plan }
{
    let count = plan.count as usize;
    if 256 < count {
        return false;
    }
    let latencies = plan.latencies;
    let adds = cycle_sum(&latencies[..count]);
    if adds == 0 {
        return false;
    }
    if adds != plan.sum as usize {
        return false;
    }
    all_zero(&latencies[count..])
}

// The four fields.
fn fields_of(count: u16, sum: u16) -> [u8; 8]
    ensures { result ≡ fields count sum }
{
    let ring_at = 8 + count as u32;
    [
        (count % 256) as u8,
        (count / 256 % 256) as u8,
        (sum % 256) as u8,
        (sum / 256 % 256) as u8,
        8,
        0,
        (ring_at % 256) as u8,
        (ring_at / 256 % 256) as u8,
    ]
}

// Writes the record of a plan's cycle: the fields, the list, the ring.
fn write_record(out: &mut [u8], plan: Plan)
    requires { Writable plan (length out.old) }
    ensures { out.new ≡ placed out.old 0 (record_of (cycle_in plan)) }
{
    let count = plan.count as usize;
    let ring_at = 8 + count;
    let size = (plan.sum as usize + 7) / 8;
    let latencies = plan.latencies;
    let head = fields_of(plan.count, plan.sum);
    text::put(out, 0, &head);
    text::put(out, 8, &latencies[..count]);
    write_ring(out, ring_at, size, &latencies[..count]);
}

// Whether a plan can be written: some cycle gives it, and its tag is not 0.
fn is_writable(plan: Plan) -> bool
    ensures { result ≡ writable plan }
{
    if plan.tag == 0 {
        return false;
    }
    holds_cycle(plan)
}

// Writes the record of a plan to the front of the lent bytes; the others stay as before.
pub fn write(plan: Plan, out: &mut [u8]) -> Result<u32, Refusal>
    ensures value { result ≡ write_answer plan (length out.old) }
    ensures out_after { out.new ≡ write_out plan out.old }
{
    let size = 8 + plan.count as usize + (plan.sum as usize + 7) / 8;
    if !is_writable(plan) {
        return Err(Refusal::BadRecord);
    }
    if out.len() < size {
        return Err(Refusal::ShortOutput);
    }
    write_record(out, plan);
    Ok(size as u32)
}
