// Text in lent bytes: words and numbers, one after the other. Every function here is proved and ends, and no public one has a `requires`.
#![tactic(auto)]

ghost use Rattle.std.specs.Prelude.{◌≡◌, ◌++◌, ℕ, ◌+◌, ◌≤◌, ◌<◌, leb, length, map};
ghost use Rattle.text.specs.Text.{ascii, decimal, spaced, placed, put_in, put_end};
ghost use Rattle.text.specs.Wrote.{Wrote};

// Puts the words from an index on, and answers the index after them. Words that do not fit are left out, and the index stays.
pub fn put(out: &mut [u8], at: usize, words: &[u8]) -> usize
    ensures value { result ≡ put_end out.old at words.now }
    ensures out_after { out.new ≡ put_in out.old at words.now }
{
    if out.len() < words.len() {
        return at;
    }
    if out.len() - words.len() < at {
        return at;
    }
    for (i, word) in words.iter().enumerate() {
        out[at + i] = *word;
    }
    at + words.len()
}

// How many digits a number has in decimal.
fn digits_of(number: u32) -> usize
    ensures { result ≡ length (decimal number) }
{
    if number < 10 {
        return 1;
    }
    digits_of(number / 10) + 1
}

// The digits of a number, the highest first: those of the number divided by ten, and then the last.
fn put_digits(out: &mut [u8], at: usize, number: u32) -> usize
    requires { at + length (decimal number) ≤ length out.old }
    ensures value { result ≡ at + length (decimal number) }
    ensures out_after { out.new ≡ placed out.old at (decimal number) }
{
    let mut last = at;
    if 10 <= number {
        last = put_digits(out, at, number / 10);
    }
    out[last] = 48 + (number % 10) as u8;
    last + 1
}

// Puts a number in decimal, without leading zeros.
pub fn put_number(out: &mut [u8], at: usize, number: u32) -> usize
    ensures value { result ≡ put_end out.old at (decimal number) }
    ensures out_after { out.new ≡ put_in out.old at (decimal number) }
{
    let count = digits_of(number);
    if out.len() < count {
        return at;
    }
    if out.len() - count < at {
        return at;
    }
    put_digits(out, at, number)
}

// A space and a number.
fn write_spaced(out: &mut [u8], at: usize, number: u32) -> usize
    requires { at + length (ascii " " ++ decimal number) ≤ length out.old }
    ensures { Wrote out.old at (ascii " " ++ decimal number) out.new result }
{
    out[at] = b' ';
    put_digits(out, at + 1, number)
}

// A number that text has in decimal.
trait Number: Copy {
    ghost number: { Self → ℕ };

    fn number(self) -> u32
        ensures { result ≡ number self };
}

impl Number for u8 {
    ghost number = { λ n. n };

    fn number(self) -> u32 {
        u32::from(self)
    }
}

impl Number for u32 {
    ghost number = { λ n. n };

    fn number(self) -> u32 {
        self
    }
}

// Whether the numbers, each after a space, fit into so many bytes.
fn numbers_fit<T: Number>(numbers: &[T], room: usize) -> bool
    ensures { result ≡ leb (length (spaced (map T.number numbers.now))) room }
{
    let mut left = room;
    for number in numbers {
        let count = digits_of(number.number());
        if left <= count {
            return false;
        }
        left = left - count - 1;
    }
    true
}

// The numbers, each after a space.
fn write_numbers<T: Number>(out: &mut [u8], at: usize, numbers: &[T]) -> usize
    requires { at + length (spaced (map T.number numbers.now)) ≤ length out.old }
    ensures { Wrote out.old at (spaced (map T.number numbers.now)) out.new result }
{
    let mut end = at;
    for number in numbers {
        end = write_spaced(out, end, number.number());
    }
    end
}

// Puts numbers in decimal, each after a space.
fn put_numbers<T: Number>(out: &mut [u8], at: usize, numbers: &[T]) -> usize
    ensures value { result ≡ put_end out.old at (spaced (map T.number numbers.now)) }
    ensures out_after { out.new ≡ put_in out.old at (spaced (map T.number numbers.now)) }
{
    if out.len() < at {
        return at;
    }
    if numbers_fit(numbers, out.len() - at) {
        return write_numbers(out, at, numbers);
    }
    at
}

// Puts numbers in decimal, each after a space.
pub fn put_bytes(out: &mut [u8], at: usize, numbers: &[u8]) -> usize
    ensures value { result ≡ put_end out.old at (spaced numbers.now) }
    ensures out_after { out.new ≡ put_in out.old at (spaced numbers.now) }
{
    put_numbers(out, at, numbers)
}

// Puts numbers of 32 bits in decimal, each after a space.
pub fn put_words(out: &mut [u8], at: usize, numbers: &[u32]) -> usize
    ensures value { result ≡ put_end out.old at (spaced numbers.now) }
    ensures out_after { out.new ≡ put_in out.old at (spaced numbers.now) }
{
    put_numbers(out, at, numbers)
}
