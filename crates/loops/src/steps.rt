// The rules of a loop, and the steps by them.

ghost use Rattle.std.specs.Prelude.{◌≡◌, ◌*◌, ◌/◌, ◌^◌, ◌≤◌, ◌<◌};
ghost use Rattle.std.specs.Int.Bits.{bit_or};

use crate::State;
use controller::Bank;

// What the steps of a loop go by: for each position the rows that its tag brings into the four registers, and the tag; how many positions there are;
// and the largest column with a 1 in any matrix.
#[derive(Clone, Copy)]
pub struct Rules {
    pub rows: [u32; 32],
    pub tags: [u8; 8],
    pub count: u32,
    pub width: u32,
    ghost some: { 1 ≤ count },
    ghost few: { count ≤ 8 },
    ghost slim: { width ≤ 31 },
}

// A register so many time units later, with a row.
fn joined(register: u32, latency: u32, row: u32) -> u32
    requires { latency ≤ 32 }
    ensures { result ≡ bit_or (register / 2 ^ latency) row }
{
    words::shift(register, latency) | row
}

impl Rules {
    ghost use Rattle.loops.specs.Inner.{position_after, masked, advanced, begun};

    // The position after a position.
    fn next_position(&self, position: u32) -> u32
        requires { position < 8 }
        ensures { result ≡ position_after self.now position }
    {
        (position + 1) % self.count
    }

    // The register of the tag that follows: its column t is 0 where the latency t is granted.
    pub(crate) fn mask(&self, s: State) -> u32
        requires { s.position < 8 }
        ensures { result ≡ masked self.now s }
    {
        let p = self.next_position(s.position) as usize;
        let bank = s.bank;
        let tag = self.tags[p];
        controller::register_of(bank, tag)
    }

    // The rows of a position on a bank so many time units later.
    pub(crate) fn started(&self, position: u32, latency: u32, bank: Bank) -> State
        requires { (position < 8) × (latency ≤ 32) }
        ensures { result ≡ begun self.now position latency bank }
    {
        let at = position as usize * 4;
        let row1 = self.rows[at];
        let row2 = self.rows[at + 1];
        let row3 = self.rows[at + 2];
        let row4 = self.rows[at + 3];
        let after = Bank {
            r1: joined(bank.r1, latency, row1),
            r2: joined(bank.r2, latency, row2),
            r3: joined(bank.r3, latency, row3),
            r4: joined(bank.r4, latency, row4),
        };
        State {
            position,
            bank: after,
        }
    }

    // The state to which a latency leads.
    pub(crate) fn advance(&self, s: State, latency: u32) -> State
        requires { (s.position < 8) × (latency ≤ 32) }
        ensures { result ≡ advanced self.now s latency }
    {
        let p = self.next_position(s.position);
        let bank = s.bank;
        self.started(p, latency, bank)
    }
}
