// The line that answers a question, put into bytes from the first one on. A line has at most 2835 bytes.
ghost use Rattle.std.specs.Prelude.{◌≡◌, ◌++◌, ◌+◌, ◌≤◌, length};
ghost use Rattle.text.specs.Text.{ascii, decimal, vector_text, spaced};
ghost use Rattle.text.specs.Wrote.{Wrote};
ghost use Rattle.unit.specs.Unit.{marked};
ghost use Rattle.collision.specs.Vector.{row_word};
ghost use Rattle.diagram.specs.Diagram.{width};
ghost use Rattle.listing.specs.Lines.{newline, refused_line};
ghost use Rattle.questions.specs.Replies.{numbered, vector_reply, matrix_width, row_reply, states_reply, greedy_reply, verdict_line, reply_to};

use crate::Question;
use unit::{FunctionUnit, Refusal, Tag};

// A word, a number, and the end of the line.
fn put_value(line: &mut [u8], word: &[u8], number: u32) -> usize
    requires { length word.now + 11 ≤ length line.old }
    ensures { Wrote line.old 0 (word.now ++ decimal number ++ newline) line.new result }
{
    let after_word = text::put(line, 0, word);
    let after_number = text::put_number(line, after_word, number);
    text::put(line, after_number, b"\n")
}

// Why there is no answer.
fn put_refusal(line: &mut [u8], why: Refusal) -> usize
    requires { 4096 ≤ length line.old }
    ensures { Wrote line.old 0 (refused_line why) line.new result }
{
    put_value(line, b"refused ", u32::from(why))
}

// A word and the number that was asked for.
fn put_asked(line: &mut [u8], word: &[u8], asked: Result<u32, Refusal>) -> usize
    requires { (length word.now ≤ 9) × (4096 ≤ length line.old) }
    ensures { Wrote line.old 0 (numbered asked (λ n. word.now ++ decimal n ++ newline)) line.new result }
{
    match asked {
        Err(why) => put_refusal(line, why),
        Ok(number) => put_value(line, word, number),
    }
}

// A word and the columns of a row.
fn put_columns(line: &mut [u8], word: &[u8], columns: u32, row: u32) -> usize
    requires { (length word.now ≤ 7) × (columns ≤ 32) × (4096 ≤ length line.old) }
    ensures { Wrote line.old 0 (word.now ++ vector_text columns row ++ newline) line.new result }
{
    let after_word = text::put(line, 0, word);
    let after_columns = column_text::put_columns(line, after_word, columns, row);
    text::put(line, after_columns, b"\n")
}

fn put_vector(line: &mut [u8], u: FunctionUnit, tag: Tag) -> usize
    requires { 4096 ≤ length line.old }
    ensures { Wrote line.old 0 (vector_reply u tag.0) line.new result }
{
    let asked = collision::vector(u, tag);
    match asked {
        Err(why) => put_refusal(line, why),
        Ok(vector) => {
            let columns = diagram::width_of(vector);
            put_columns(line, b"vector ", columns, vector)
        }
    }
}

// The largest column with a 1 in row q of the matrix M_r, or 0.
fn row_width(u: FunctionUnit, q: Tag, r: Tag) -> u32
    ensures { result ≡ width (row_word (marked u) q.0 r.0) }
{
    let later = columns::columns_of(u, q);
    let earlier = columns::columns_of(u, r);
    let row = collision::row_of(later, earlier);
    diagram::width_of(row)
}

// The largest column with a 1 in any row of the matrix M_r, or 0.
fn matrix_width(u: FunctionUnit, r: Tag) -> u32
    ensures { result ≡ matrix_width (marked u) r.0 }
{
    let mut widest: u32 = 0;
    for tag in 0..4 {
        let columns = row_width(u, Tag(tag + 1), r);
        if widest < columns {
            widest = columns;
        }
    }
    widest
}

fn put_row(line: &mut [u8], u: FunctionUnit, q: Tag, r: Tag) -> usize
    requires { 4096 ≤ length line.old }
    ensures { Wrote line.old 0 (row_reply u q.0 r.0) line.new result }
{
    let asked = collision::matrix_row(u, q, r);
    match asked {
        Err(why) => put_refusal(line, why),
        Ok(row) => {
            let columns = matrix_width(u, r);
            put_columns(line, b"row ", columns, row)
        }
    }
}

// The number of states, and the states.
fn put_list(line: &mut [u8], count: u32, states: &[u32]) -> usize
    requires { (length states.now ≤ 256) × (4096 ≤ length line.old) }
    ensures { Wrote line.old 0 (ascii "states " ++ decimal count ++ ascii ":" ++ spaced states.now ++ newline) line.new result }
{
    let after_word = text::put(line, 0, b"states ");
    let after_count = text::put_number(line, after_word, count);
    let after_colon = text::put(line, after_count, b":");
    let after_states = text::put_words(line, after_colon, states);
    text::put(line, after_states, b"\n")
}

fn put_states(line: &mut [u8], u: FunctionUnit, tag: Tag) -> usize
    requires { 4096 ≤ length line.old }
    ensures { Wrote line.old 0 (states_reply u tag.0) line.new result }
{
    let mut list = [0u32; 256];
    let asked = state_list::states(u, tag, &mut list);
    match asked {
        Err(why) => put_refusal(line, why),
        Ok(number) => {
            let count = number as usize;
            put_list(line, number, &list[..count])
        }
    }
}

// The latencies of the greedy cycle, and their sum.
fn put_cycle(line: &mut [u8], cycle: &[u8], sum: u32) -> usize
    requires { (length cycle.now ≤ 256) × (4096 ≤ length line.old) }
    ensures { Wrote line.old 0 (ascii "greedy" ++ spaced cycle.now ++ ascii " sum " ++ decimal sum ++ newline) line.new result }
{
    let after_word = text::put(line, 0, b"greedy");
    let after_cycle = text::put_bytes(line, after_word, cycle);
    let after_name = text::put(line, after_cycle, b" sum ");
    let after_sum = text::put_number(line, after_name, sum);
    text::put(line, after_sum, b"\n")
}

fn put_greedy(line: &mut [u8], u: FunctionUnit, tag: Tag) -> usize
    requires { 4096 ≤ length line.old }
    ensures { Wrote line.old 0 (greedy_reply u tag.0) line.new result }
{
    let mut work = [0u32; 16000];
    let mut cycle = [0u8; 256];
    let asked = cycles::greedy(u, tag, &mut work, &mut cycle);
    match asked {
        Err(why) => put_refusal(line, why),
        Ok(counted) => {
            let count = counted.count as usize;
            put_cycle(line, &cycle[..count], counted.sum)
        }
    }
}

fn put_verdict(line: &mut [u8], verdict: Result<bool, Refusal>) -> usize
    requires { 4096 ≤ length line.old }
    ensures { Wrote line.old 0 (verdict_line verdict) line.new result }
{
    match verdict {
        Ok(true) => text::put(line, 0, b"yes\n"),
        Ok(false) => text::put(line, 0, b"no\n"),
        Err(why) => put_refusal(line, why),
    }
}

// The line that answers a question; the cycle is what a judge is asked about.
pub fn put_reply(line: &mut [u8], u: FunctionUnit, question: Question, cycle: &[u8]) -> usize
    requires { 4096 ≤ length line.old }
    ensures { Wrote line.old 0 (reply_to u question cycle.now) line.new result }
{
    match question {
        Question::Vector(q) => put_vector(line, u, q),
        Question::Row(q, r) => put_row(line, u, q, r),
        Question::States(q) => put_states(line, u, q),
        Question::Greedy(q) => put_greedy(line, u, q),
        Question::Bound(q) => put_asked(line, b"bound ", measures::bound(u, q)),
        Question::Upper(q) => put_asked(line, b"upper ", measures::upper(u, q)),
        Question::Constant(q) => put_asked(line, b"constant ", measures::constant(u, q)),
        Question::Judge(q) => put_verdict(line, judge::judge(u, q, cycle)),
    }
}
