// Bits of 32-bit words: test, set and clear one, shift, count, find the next 0; a word as a byte; a number
// within a range. Bit 0 is the lowest.
// Every function here is proved, total and without a `requires`; the crate assumes nothing of its own.
#![tactic(auto)]

ghost use Rattle.std.specs.Prelude.{◌≡◌, ◌/◌, ◌%◌, ◌^◌};
ghost use Rattle.words.specs.Bits.{is_set, set_bit, clear_bit, zero_from};
ghost use Rattle.words.specs.Below.{inside, count_below};
ghost use Rattle.words.specs.Bytes.{narrow};

// Whether the bit at the index is 1. A word has no 1 from index 32 on.
pub fn test(word: u32, index: u32) -> bool
    ensures { result ≡ is_set word index }
{
    if 32 <= index {
        return false;
    }
    (word >> index) % 2 == 1
}

// The word with a 1 at the index. From index 32 on there is no bit to set, and the word stays.
pub fn set(word: u32, index: u32) -> u32
    ensures { result ≡ set_bit word index }
{
    if 32 <= index {
        return word;
    }
    word | (1 << index)
}

// The word with a 0 at the index.
pub fn clear(word: u32, index: u32) -> u32
    ensures { result ≡ clear_bit word index }
{
    if 32 <= index {
        return word;
    }
    word ^ (word & (1 << index))
}

// The word shifted right, zeros entering: one step without a branch, also by the whole width of 32,
// because it is done on a word of 64 bits. That word takes the number of places modulo 64.
pub fn shift(word: u32, places: u32) -> u32
    ensures { result ≡ word / 2 ^ (places % 64) }
{
    ((word as u64) >> (places % 64)) as u32
}

// How many bits of the word are 1.
pub fn ones(word: u32) -> u32
    ensures { result ≡ count_below 32 (is_set word) }
{
    word.count_ones()
}

// The least index from a given one on at which the word has a 0, in one step: the ones from there on are the zeros that a carry leaves.
pub fn zero_from(word: u32, from: u32) -> u32
    ensures { result ≡ zero_from word from }
{
    if 32 <= from {
        return from;
    }
    let rest = (word as u64) >> from;
    from + (rest + 1).trailing_zeros()
}

// A number too large for a byte becomes 0, which is no count, no tag, no segment, no column and no latency.
pub fn byte(number: u32) -> u8
    ensures { result ≡ narrow number }
{
    u8::try_from(number).unwrap_or(0)
}

// Whether a number is one of 1 to another.
pub fn is_inside(number: u8, most: u8) -> bool
    ensures { result ≡ inside number most }
{
    (1..=most).contains(&number)
}
