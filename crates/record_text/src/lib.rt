// What the console does with plan records: the record of a function's plan for a file, and the lines that show what the report and the loader read.
// Every public function here is proved, total and without a `requires`.
#![tactic(auto)]

ghost use Rattle.std.specs.Prelude.{◌≡◌, ◌+◌, ◌*◌, ◌≤◌, ◌<◌, length};
ghost use Rattle.text.specs.Wrote.{Wrote};
ghost use Rattle.session.specs.Sessions.{Line};
ghost use Rattle.record_text.specs.Plans.{plan_record_answer, plan_record_out};
ghost use Rattle.record_text.specs.Lines.{bit_text, bits_text, list_line, ring_line, report_line, load_line};

use unit::{FunctionUnit, Refusal, Tag};

// Writes the record of a function's plan to the front of the lent bytes; the others stay as before.
pub fn write_plan(u: FunctionUnit, tag: Tag, out: &mut [u8]) -> Result<u32, Refusal>
    ensures value { result ≡ plan_record_answer u tag.0 (length out.old) }
    ensures out_after { out.new ≡ plan_record_out u tag.0 out.old }
{
    let plan = function_plan::read_for(u, tag)?;
    plan_record::write(plan, out)
}

// `count`, K, `list` and the latencies.
fn write_list(line: &mut [u8], count: u32, list: &[u8]) -> usize
    requires { (length list.now ≤ 256) × (2048 ≤ length line.old) }
    ensures { Wrote line.old 0 (list_line count list.now) line.new result }
{
    let after_word = text::put(line, 0, b"count ");
    let after_count = text::put_number(line, after_word, count);
    let after_name = text::put(line, after_count, b" list");
    let after_list = text::put_bytes(line, after_name, list);
    text::put(line, after_list, b"\n")
}

fn put_list(out: &mut [u8], count: u32, list: &[u8]) -> usize
    requires { length list.now ≤ 256 }
    ensures { Line (list_line count list.now) out.old out.new result }
{
    let mut line = [0u8; 2048];
    let end = write_list(&mut line, count, list);
    text::put(out, 0, &line[..end])
}

// Puts the line that shows what the report reads from a file: K and the list, or `refused 15`.
pub fn report(file: &[u8], out: &mut [u8]) -> usize
    ensures { Line (report_line file.now) out.old out.new result }
{
    let shown = plan_record::report(file);
    match shown {
        Err(why) => session::put_answer(out, Err(why)),
        Ok(count) => {
            let list = plan_record::report_list(file);
            put_list(out, count as u32, list)
        }
    }
}

// A bit of a ring as a digit.
fn bit_text(ring: &[u8], i: usize) -> u8
    requires { i < 8 * length ring.now }
    ensures { result ≡ bit_text ring.now i }
{
    if words::test(ring[i / 8] as u32, (i % 8) as u32) {
        return 49;
    }
    48
}

// The first bits of a ring, bit 0 first.
fn write_bits(line: &mut [u8], at: usize, ring: &[u8], count: usize) -> usize
    requires { (count ≤ 8 * length ring.now) × (at + count ≤ length line.old) }
    ensures { Wrote line.old at (bits_text count ring.now) line.new result }
{
    for i in 0..count {
        line[at + i] = bit_text(ring, i);
    }
    at + count
}

// `sum`, S, `ring` and the S bits of the ring.
fn write_ring(line: &mut [u8], sum: u16, ring: &[u8]) -> usize
    requires { (sum ≤ 8192) × (sum ≤ 8 * length ring.now) × (8448 ≤ length line.old) }
    ensures { Wrote line.old 0 (ring_line sum ring.now) line.new result }
{
    let after_word = text::put(line, 0, b"sum ");
    let after_sum = text::put_number(line, after_word, sum as u32);
    let after_name = text::put(line, after_sum, b" ring ");
    let after_bits = write_bits(line, after_name, ring, sum as usize);
    text::put(line, after_bits, b"\n")
}

fn put_ring(out: &mut [u8], sum: u16, ring: &[u8]) -> usize
    requires { (sum ≤ 8192) × (sum ≤ 8 * length ring.now) }
    ensures { Line (ring_line sum ring.now) out.old out.new result }
{
    let mut line = [0u8; 8448];
    let end = write_ring(&mut line, sum, ring);
    text::put(out, 0, &line[..end])
}

// Puts the line that shows what the loader reads from a file: S and the ring, or `refused 15`.
pub fn ring(file: &[u8], out: &mut [u8]) -> usize
    ensures { Line (load_line file.now) out.old out.new result }
{
    let shown = plan_record::load(file);
    match shown {
        Err(why) => session::put_answer(out, Err(why)),
        Ok(sum) => {
            let ring = plan_record::load_ring(file);
            put_ring(out, sum, ring)
        }
    }
}
