// Questions about the collisions and the states of a function of a lent unit file. A call answers 0 or the number of its refusal. Every
// function here is proved; the public ones are total and without a `requires`.
#![tactic(auto)]

ghost use Rattle.std.specs.Prelude.{◌≡◌, cond, length};
ghost use Rattle.words.specs.Bytes.{narrow};
ghost use Rattle.unit.specs.Numbers.{number_in};
ghost use Rattle.unit.specs.Calls.{handed};
ghost use Rattle.unit_file.specs.Read.{table_in};
ghost use Rattle.collision.specs.Vector.{vector_word, row_word};
ghost use Rattle.judge.specs.Judge.{meets};
ghost use Rattle.diagram.specs.Answers.{states_of, written};
ghost use Rattle.file_answers.specs.Answers.{tag_refusal};
ghost use Rattle.file_questions.specs.Questions.{tags_refusal, judge_refusal, list_refusal};
ghost use Rattle.file_questions.specs.Inner.{verdict_number};

use file_answers::hand_out;
use unit::{Refusal, Tag};
use words::byte;

// 1 for yes, 0 for no.
fn verdict_number(verdict: Result<bool, Refusal>) -> Result<u32, Refusal>
    ensures { result ≡ verdict_number verdict }
{
    match verdict {
        Ok(true) => Ok(1),
        Ok(false) => Ok(0),
        Err(why) => Err(why),
    }
}

// The collision vector of a tag.
pub fn vector(file: &[u8], tag: u32, word: &mut u32) -> u32
    ensures value { result ≡ number_in (tag_refusal file.now tag) }
    ensures word_after { word.new ≡ handed (tag_refusal file.now tag) (vector_word (table_in file.now) (narrow tag)) word.old }
{
    let back = unit_file::read(file);
    let read = back.answer;
    let asked = collision::vector(back.unit, Tag(byte(tag)));
    hand_out(read, asked, word)
}

// Row `tag` of the matrix of `other`.
pub fn matrix_row(file: &[u8], tag: u32, other: u32, word: &mut u32) -> u32
    ensures value { result ≡ number_in (tags_refusal file.now tag other) }
    ensures word_after { word.new ≡ handed (tags_refusal file.now tag other) (row_word (table_in file.now) (narrow tag) (narrow other)) word.old }
{
    let back = unit_file::read(file);
    let read = back.answer;
    let row = collision::matrix_row(back.unit, Tag(byte(tag)), Tag(byte(other)));
    hand_out(read, row, word)
}

// Hands out 1 if the cycle, repeated without end, never collides, else 0.
pub fn judge(file: &[u8], tag: u32, cycle: &[u8], yes: &mut u32) -> u32
    ensures value { result ≡ number_in (judge_refusal file.now tag cycle.now) }
    ensures yes_after { yes.new ≡ handed (judge_refusal file.now tag cycle.now) (cond (meets (table_in file.now) (narrow tag) cycle.now) 0 1) yes.old }
{
    let back = unit_file::read(file);
    let read = back.answer;
    let verdict = judge::judge(back.unit, Tag(byte(tag)), cycle);
    hand_out(read, verdict_number(verdict), yes)
}

// The states in the order in which they are found, and their number.
pub fn states(file: &[u8], tag: u32, out: &mut [u32], count: &mut u32) -> u32
    ensures value { result ≡ number_in (list_refusal file.now tag (length out.old)) }
    ensures out_after { out.new ≡ written (list_refusal file.now tag (length out.old)) (states_of 1 (table_in file.now) (narrow tag)) out.old }
    ensures count_after { count.new ≡ handed (list_refusal file.now tag (length out.old)) (length (states_of 1 (table_in file.now) (narrow tag))) count.old }
{
    let back = unit_file::read(file);
    let read = back.answer;
    let listed = state_list::states(back.unit, Tag(byte(tag)), out);
    hand_out(read, listed, count)
}
