// Words of a text, and the numbers that they say.
ghost use Rattle.std.specs.Prelude.{◌≡◌, cond, ◌+◌, ◌≤◌, ◌<◌, min, eqb, length};
ghost use Rattle.words.specs.Bytes.{narrow};
ghost use Rattle.command.specs.Lines.{is_blank, number_said, narrowed, in_front};
ghost use Rattle.command.specs.Inner.{word_from, words_from, Begins, numeral, noted, with_word, scanned};

// Whether all words are numbers, whether those in front of the last are, how many they are, and the numbers that the first three say, 0 where one
// says none.
#[derive(Clone, Copy)]
pub struct Scan {
    pub good: bool,
    pub front: bool,
    pub count: usize,
    pub first: u32,
    pub second: u32,
    pub third: u32,
}

// A space or a tab.
fn is_blank(byte: u8) -> bool
    ensures { result ≡ is_blank byte }
{
    byte == 32 || byte == 9
}

// The index from an index on at which the next word begins, or the end of the text.
pub fn word_start(text: &[u8], from: usize) -> usize
    requires { from ≤ length text.now }
    ensures { Begins text.now from result }
{
    for at in from..text.len() {
        if !is_blank(text[at]) {
            return at;
        }
    }
    text.len()
}

// The index at which the word from an index on ends: that of the next blank, or of the text's end.
pub fn word_end(text: &[u8], from: usize) -> usize
    requires { from ≤ length text.now }
    ensures { result ≡ from + length (word_from text.now from) }
{
    for at in from..text.len() {
        if is_blank(text[at]) {
            return at;
        }
    }
    text.len()
}

// The number that a word says: one or more digits, and not above 4294967295. The digits so far say no more than all of them.
fn number_of(word: &[u8]) -> Option<u32>
    ensures { result ≡ numeral word.now }
{
    if word.len() == 0 {
        return None;
    }
    let mut number: u64 = 0;
    for &byte in word {
        if byte < 48 {
            return None;
        }
        if 57 < byte {
            return None;
        }
        number = number * 10 + (byte - 48) as u64;
        if 4294967295 < number {
            return None;
        }
    }
    Some(number as u32)
}

// The number at a place among the first three: that of the word that comes there, or the one that is there already.
fn at_place(count: usize, place: usize, number: u32, old: u32) -> u32
    ensures { result ≡ cond (eqb count place) number old }
{
    if count == place {
        return number;
    }
    old
}

// One number more.
fn note(words: Scan, good: bool, number: u32) -> Scan
    requires { words.count < 18446744073709551615 }
    ensures { result ≡ noted words good number }
{
    let count = words.count;
    Scan {
        good: good,
        front: words.good,
        count: count + 1,
        first: at_place(count, 0, number, words.first),
        second: at_place(count, 1, number, words.second),
        third: at_place(count, 2, number, words.third),
    }
}

// One word more.
fn with_word(words: Scan, word: &[u8]) -> Scan
    requires { words.count < 18446744073709551615 }
    ensures { result ≡ with_word words word.now }
{
    let numeral = number_of(word);
    match numeral {
        Some(number) => note(words, words.good, number),
        None => note(words, false, 0),
    }
}

// The words from an index on.
pub fn scan_words(text: &[u8], from: usize) -> Scan
    requires { from ≤ length text.now }
    ensures { result ≡ scanned (words_from text.now from) }
{
    let mut words = Scan {
        good: true,
        front: true,
        count: 0,
        first: 0,
        second: 0,
        third: 0,
    };
    let mut at = word_start(text, from);
    // A while: the next index is where the next word begins.
    while at < text.len() {
        let end = word_end(text, at);
        words = with_word(words, &text[at..end]);
        at = word_start(text, end);
    }
    words
}

// The number that a word says as a byte: 0 where it is too large for one, or where the word says none.
fn byte_of(word: &[u8]) -> u8
    ensures { result ≡ narrow (number_said word.now) }
{
    let Some(number) = number_of(word) else {
        return 0;
    };
    words::byte(number)
}

// The numbers of the words from an index on as bytes, as many as there is room for.
pub fn bytes_after(text: &[u8], from: usize, list: &mut [u8]) -> usize
    requires { from ≤ length text.now }
    ensures value { result ≡ min (length (narrowed (words_from text.now from))) (length list.old) }
    ensures list_after { list.new ≡ in_front (narrowed (words_from text.now from)) list.old }
{
    let mut count = 0;
    let mut at = word_start(text, from);
    // A while: the next index is where the next word begins.
    while at < text.len() {
        if count == list.len() {
            return count;
        }
        let end = word_end(text, at);
        list[count] = byte_of(&text[at..end]);
        count += 1;
        at = word_start(text, end);
    }
    count
}
