// Bound, upper and constant of a function of a lent unit file. A call answers 0 or the number of its refusal. Every function here is proved,
// total and without a `requires`.
#![tactic(auto)]

ghost use Rattle.std.specs.Prelude.{◌≡◌};
ghost use Rattle.words.specs.Bytes.{narrow};
ghost use Rattle.unit.specs.Numbers.{number_in};
ghost use Rattle.unit.specs.Calls.{handed};
ghost use Rattle.unit_file.specs.Read.{table_in};
ghost use Rattle.collision.specs.Vector.{bound_of, upper_of, constant_of};
ghost use Rattle.file_answers.specs.Answers.{tag_refusal};

use file_answers::hand_out;
use unit::Tag;
use words::byte;

// The largest number of marks in one segment.
pub fn bound(file: &[u8], tag: u32, value: &mut u32) -> u32
    ensures value { result ≡ number_in (tag_refusal file.now tag) }
    ensures value_after { value.new ≡ handed (tag_refusal file.now tag) (bound_of (table_in file.now) (narrow tag)) value.old }
{
    let back = unit_file::read(file);
    let read = back.answer;
    let asked = measures::bound(back.unit, Tag(byte(tag)));
    hand_out(read, asked, value)
}

// The number of 1s in the collision vector, plus 1.
pub fn upper(file: &[u8], tag: u32, value: &mut u32) -> u32
    ensures value { result ≡ number_in (tag_refusal file.now tag) }
    ensures value_after { value.new ≡ handed (tag_refusal file.now tag) (upper_of (table_in file.now) (narrow tag)) value.old }
{
    let back = unit_file::read(file);
    let read = back.answer;
    let asked = measures::upper(back.unit, Tag(byte(tag)));
    hand_out(read, asked, value)
}

// The least latency of which no multiple is forbidden.
pub fn constant(file: &[u8], tag: u32, value: &mut u32) -> u32
    ensures value { result ≡ number_in (tag_refusal file.now tag) }
    ensures value_after { value.new ≡ handed (tag_refusal file.now tag) (constant_of (table_in file.now) (narrow tag)) value.old }
{
    let back = unit_file::read(file);
    let read = back.answer;
    let asked = measures::constant(back.unit, Tag(byte(tag)));
    hand_out(read, asked, value)
}
