// What a question about a unit file answers and hands out. Every function here is proved, total and without a `requires`.
#![tactic(auto)]

ghost use Rattle.std.specs.Prelude.{◌≡◌};
ghost use Rattle.file_answers.specs.Answers.{read_then, number_told, number_value};

use unit::Refusal;

// Hands a value out, or answers the number of the refusal: the file's, else that of what was asked.
pub fn hand_out(read: Result<(), Refusal>, asked: Result<u32, Refusal>, value: &mut u32) -> u32
    ensures value { result ≡ number_told (read_then read asked) }
    ensures value_after { value.new ≡ number_value (read_then read asked) value.old }
{
    match read.and(asked) {
        Ok(number) => {
            *value = number;
            0
        }
        Err(why) => u32::from(why),
    }
}
