// Lines of words, numbers and cycles.
ghost use Rattle.std.specs.Prelude.{◌++◌, ◌+◌, ◌*◌, ◌≤◌, length};
ghost use Rattle.text.specs.Text.{ascii, decimal, vector_text, spaced};
ghost use Rattle.diagram.specs.Diagram.{width};
ghost use Rattle.listing.specs.Lines.{newline};
ghost use Rattle.text.specs.Wrote.{Put};

// A word, a number, and the end of the line.
pub fn put_line(out: &mut [u8], at: usize, word: &[u8], number: u32) -> usize
    requires { at + length word.now + 11 ≤ length out.old }
    ensures { Put (length word.now + 11) out.old at (word.now ++ decimal number ++ newline) out.new result }
{
    let after_word = text::put(out, at, word);
    let after_number = text::put_number(out, after_word, number);
    text::put(out, after_number, b"\n")
}

// A collision vector, from its highest column down, or a dash.
pub fn put_vector(out: &mut [u8], at: usize, vector: u32) -> usize
    requires { at + 32 ≤ length out.old }
    ensures { Put 32 out.old at (vector_text (width vector) vector) out.new result }
{
    column_text::put_columns(out, at, diagram::width_of(vector), vector)
}

// A word, the latencies of a cycle, and their sum.
pub fn put_cycle(out: &mut [u8], at: usize, word: &[u8], cycle: &[u8], sum: u32) -> usize
    requires { at + length word.now + 4 * length cycle.now + 16 ≤ length out.old }
    ensures { Put (length word.now + 4 * length cycle.now + 16) out.old at (word.now ++ spaced cycle.now ++ ascii " sum " ++ decimal sum ++ newline) out.new result }
{
    let after_word = text::put(out, at, word);
    let after_cycle = text::put_bytes(out, after_word, cycle);
    put_line(out, after_cycle, b" sum ", sum)
}
