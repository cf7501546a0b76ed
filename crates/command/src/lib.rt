// What a line of the designer's console says: a command of the table (crate command_table) with its numbers, no command and why, or nothing.
// Every public function here is proved, total and without a `requires`.
#![tactic(auto)]

mod scan;

ghost use Rattle.std.specs.Prelude.{◌≡◌, min, ◌≤◌, length, Some};
ghost use Rattle.command.specs.Lines.{named, said, meaning, words_of, latencies_in, tags_in, in_front, word_in};
ghost use Rattle.command.specs.Inner.{words_from, scan_fits, TextEnd, Passes};

use command_table::{Entry, Form, Verb};
use scan::Scan;

// A command, how many words come after its name, and the numbers that the first three say, 0 where one says none.
#[derive(Clone, Copy)]
pub struct Request {
    pub verb: Verb,
    pub count: usize,
    pub first: u32,
    pub second: u32,
    pub third: u32,
}

// Why a line is no command: more than 4,096 bytes, no command's name, or not the words that the command of a row wants.
#[derive(Clone, Copy)]
pub enum Trouble {
    TooLong,
    NoCommand,
    Usage(usize),
}

// Whether there are so many numbers, or one more.
fn is_optional(count: usize, words: Scan) -> bool
    ensures { result ≡ scan_fits (Form.Optional count) words }
{
    if words.count < count {
        return false;
    }
    if 1 < words.count - count {
        return false;
    }
    words.good
}

// Whether there are so many numbers, and the name of a file after them.
fn is_file(count: usize, words: Scan) -> bool
    ensures { result ≡ scan_fits (Form.File count) words }
{
    if words.count == 0 {
        return false;
    }
    if words.count - 1 != count {
        return false;
    }
    words.front
}

// Whether there are so many numbers, and nothing or the name of a file after them.
fn is_optional_file(count: usize, words: Scan) -> bool
    ensures { result ≡ scan_fits (Form.OptionalFile count) words }
{
    if words.count == count {
        return words.good;
    }
    is_file(count, words)
}

// Whether the words after the name, of which a scan tells, are what the command wants.
fn is_fit(form: Form, words: Scan) -> bool
    ensures { result ≡ scan_fits form words }
{
    match form {
        Form::Numbers(count) => words.count == count && words.good,
        Form::Optional(count) => is_optional(count, words),
        Form::File(count) => is_file(count, words),
        Form::OptionalFile(count) => is_optional_file(count, words),
        Form::Cycle => 1 <= words.count && words.good,
        Form::List => words.good,
    }
}

// What the words after the name of a command say. The name ends at an index.
fn parse_rest(text: &[u8], from: usize, entry: Entry) -> Result<Option<Request>, Trouble>
    requires { from ≤ length text.now }
    ensures { result ≡ named (Some entry) (words_from text.now from) }
{
    let words = scan::scan_words(text, from);
    if is_fit(entry.form, words) {
        return Ok(Some(Request {
            verb: entry.verb,
            count: words.count,
            first: words.first,
            second: words.second,
            third: words.third,
        }));
    }
    Err(Trouble::Usage(entry.row))
}

// What the text of a line says.
fn parse_text(text: &[u8]) -> Result<Option<Request>, Trouble>
    ensures { result ≡ said (words_of text.now) }
{
    let from = scan::word_start(text, 0);
    if from == text.len() {
        return Ok(None);
    }
    if text[from] == 35 {
        return Ok(None);
    }
    let end = scan::word_end(text, from);
    let name = command_table::find(&text[from..end]);
    let Some(entry) = name else {
        return Err(Trouble::NoCommand);
    };
    parse_rest(text, end, entry)
}

// Where the text of a line ends: before the carriage return at its end, if there is one.
fn text_end(line: &[u8]) -> usize
    ensures { TextEnd line.now result }
{
    let length = line.len();
    if length == 0 {
        return 0;
    }
    if line[length - 1] == 13 {
        return length - 1;
    }
    length
}

// What a line says: nothing, or a request; or what is wrong with it.
pub fn parse(line: &[u8]) -> Result<Option<Request>, Trouble>
    ensures { result ≡ meaning line.now }
{
    if 4096 < line.len() {
        return Err(Trouble::TooLong);
    }
    let end = text_end(line);
    parse_text(&line[..end])
}

// Where the first word from an index on ends.
fn past_word(text: &[u8], from: usize) -> usize
    requires { from ≤ length text.now }
    ensures { Passes text.now from 1 result }
{
    let start = scan::word_start(text, from);
    scan::word_end(text, start)
}

// Where the first words end, so many; the end of the text where there are fewer.
fn past_words(text: &[u8], count: usize) -> usize
    ensures { Passes text.now 0 count result }
{
    let mut at = 0;
    for _passed in 0..count {
        if at == text.len() {
            return at;
        }
        at = past_word(text, at);
    }
    at
}

// The latencies of a cycle that is judged, as bytes: 0 for a number that is too large for one. As many as there is room for are kept, and
// their number is the answer.
pub fn latencies(line: &[u8], cycle: &mut [u8]) -> usize
    ensures value { result ≡ min (length (latencies_in line.now)) (length cycle.old) }
    ensures cycle_after { cycle.new ≡ in_front (latencies_in line.now) cycle.old }
{
    let end = text_end(line);
    let text = &line[..end];
    let name_end = past_word(text, 0);
    let tag_end = past_word(text, name_end);
    scan::bytes_after(text, tag_end, cycle)
}

// The tags of a loop, as bytes: 0 for a number that is too large for one. As many as there is room for are kept, and their number is the answer.
pub fn tags(line: &[u8], list: &mut [u8]) -> usize
    ensures value { result ≡ min (length (tags_in line.now)) (length list.old) }
    ensures list_after { list.new ≡ in_front (tags_in line.now) list.old }
{
    let end = text_end(line);
    let text = &line[..end];
    let name_end = past_word(text, 0);
    scan::bytes_after(text, name_end, list)
}

// Word `index` of a line, the name of its command being word 0; no bytes where there is none. The file of a command that names one is word `count` of
// its request.
pub fn word<'a>(line: &'a [u8], index: usize) -> &'a [u8]
    ensures { result.now ≡ word_in line.now index }
{
    let end = text_end(line);
    let text = &line[..end];
    let before = past_words(text, index);
    let from = scan::word_start(text, before);
    let to = scan::word_end(text, from);
    &text[from..to]
}
