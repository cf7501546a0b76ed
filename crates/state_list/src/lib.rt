// The states of a function's diagram, listed in the order in which they are first found. Every function here is proved; the public one is total and
// without a `requires`.
#![tactic(auto)]

ghost use Rattle.std.specs.Prelude.{◌≡◌, ◌++◌, ◌≤◌, length, take, drop};
ghost use Rattle.diagram.specs.Answers.{states_answer, states_out};

use unit::{FunctionUnit, Refusal, Tag};

// Lists the states of a function's diagram in lent words, and answers their number. The states are found in words of its own,
// so that a call that is refused, also for too many states, changes none of the lent ones: it then copies none.
pub fn states(u: FunctionUnit, tag: Tag, out: &mut [u32]) -> Result<u32, Refusal>
    ensures { (result ≡ states_answer u tag.0 (length out.old)) × (out.new ≡ states_out u tag.0 out.old) }
{
    let word = collision::vector(u, tag)?;
    if out.len() < 256 {
        return Err(Refusal::ShortOutput);
    }
    let mut work = [0u32; 768];
    let count = diagram::enlist(word, &mut work);
    out[..count].copy_from_slice(&work[..count]);
    if count == 0 {
        return Err(Refusal::TooManyStates);
    }
    Ok(count as u32)
}
