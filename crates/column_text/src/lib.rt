// The columns of a word as text in lent bytes. Every function here is proved; the public one is total and without a `requires`.
#![tactic(auto)]

ghost use Rattle.std.specs.Prelude.{◌≡◌, ◌+◌, ◌≤◌, length};
ghost use Rattle.words.specs.Bits.{bit};
ghost use Rattle.text.specs.Text.{digit, column_text, vector_text, put_in, put_end};
ghost use Rattle.text.specs.Wrote.{Wrote};

// The byte of one column of a word.
fn column_byte(word: u32, index: u32) -> u8
    ensures { result ≡ digit (bit word index) }
{
    if words::test(word, index) {
        return b'1';
    }
    b'0'
}

// The columns of a word, the highest first.
fn write_columns(out: &mut [u8], at: usize, columns: u32, word: u32) -> usize
    requires { at + columns ≤ length out.old }
    ensures { Wrote out.old at (column_text columns word) out.new result }
{
    let mut end = at;
    for index in (0..columns).rev() {
        out[end] = column_byte(word, index);
        end += 1;
    }
    end
}

// Puts the columns of a word from column n down to the first, or a dash where n is 0.
pub fn put_columns(out: &mut [u8], at: usize, columns: u32, word: u32) -> usize
    ensures value { result ≡ put_end out.old at (vector_text columns word) }
    ensures out_after { out.new ≡ put_in out.old at (vector_text columns word) }
{
    if columns == 0 {
        return text::put(out, at, b"-");
    }
    let count = columns as usize;
    if out.len() < count {
        return at;
    }
    if out.len() - count < at {
        return at;
    }
    write_columns(out, at, columns, word)
}
