// A designer's questions about a function, each answered by one line of text. Every public function here is proved, total and without a
// `requires`.
#![tactic(auto)]

mod lines;

ghost use Rattle.std.specs.Prelude.{◌≡◌};
ghost use Rattle.text.specs.Text.{put_in, put_end};
ghost use Rattle.questions.specs.Replies.{reply_to};

use unit::{FunctionUnit, Tag};

// What is asked: the collision vector of a tag, row q of the matrix M_r, the list of states, the greedy cycle, bound, upper and constant, and
// whether a cycle never collides.
#[derive(Clone, Copy)]
pub enum Question {
    Vector(Tag),
    Row(Tag, Tag),
    States(Tag),
    Greedy(Tag),
    Bound(Tag),
    Upper(Tag),
    Constant(Tag),
    Judge(Tag),
}

// Puts the line that answers a question; the cycle is what a judge is asked about. A line that does not fit is left out whole.
pub fn ask(out: &mut [u8], at: usize, u: FunctionUnit, question: Question, cycle: &[u8]) -> usize
    ensures value { result ≡ put_end out.old at (reply_to u question cycle.now) }
    ensures out_after { out.new ≡ put_in out.old at (reply_to u question cycle.now) }
{
    let mut line = [0u8; 4096];
    let end = lines::put_reply(&mut line, u, question, cycle);
    text::put(out, at, &line[..end])
}
