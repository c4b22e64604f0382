// A line of a script, byte by byte: what is known of it so far.
ghost use Rattle.std.specs.Prelude.{◌≡◌};
ghost use Rattle.replay_script.specs.Bytes.{blank_of};
ghost use Rattle.replay_script.specs.Reading.{started, name_after, comment_after};
ghost use Rattle.replay_script.specs.Reading.{words_after, begun_of, added_of, taken_of};

use text::number_after;

#[derive(Clone, Copy)]
pub struct Reading {
    // whether the last byte stands in a word
    pub inside: bool,
    // whether the first word begins with #
    pub comment: bool,
    // how many words have begun; 4 stands for four and more
    // Kept: a count and a name as numbers, for `take` and `tell`, which docs/ list, take every number.
    pub words: u8,
    // the bytes of the first word after a 1, in base 256; LONG where there are more than five
    pub name: u64,
    // the numbers that the second word and the third spell, as `number_after` has them
    pub first: Option<u64>,
    pub second: Option<u64>,
}

// A name of fewer than five bytes is below this.
const FIVE_BYTES: u64 = 0x100_0000_0000;

// More than any name of five bytes.
// Kept: a number, as `Reading` has the name.
const LONG: u64 = 0x1_0000_0000_0000;

// No byte of the line is read yet.
pub fn start() -> Reading
    ensures { result ≡ started }
{
    Reading {
        inside: false,
        comment: false,
        words: 0,
        name: 1,
        first: Some(0),
        second: Some(0),
    }
}

// A space, a tab or a carriage return.
fn is_blank(byte: u8) -> bool
    ensures { result ≡ blank_of byte }
{
    matches!(byte, b' ' | b'\t' | b'\r')
}

// The first word's name, with one byte more.
fn name_after(name: u64, byte: u8) -> u64
    ensures { result ≡ name_after name byte }
{
    if name < FIVE_BYTES {
        return name * 256 + byte as u64;
    }
    LONG
}

// Whether the line is a comment, once a word has begun with this byte.
fn comment_after(reading: Reading, byte: u8) -> bool
    ensures { result ≡ comment_after reading byte }
{
    if reading.words == 0 {
        return byte == 35;
    }
    reading.comment
}

// How many words have begun, with one more.
// Kept: `min(4)` would take 5 to 4, where `words_after` says that it stays.
fn words_after(words: u8) -> u8
    ensures { result ≡ words_after words }
{
    if words < 4 { words + 1 } else { words }
}

// A word begins with this byte.
fn begin(reading: Reading, byte: u8) -> Reading
    ensures { result ≡ begun_of reading byte }
{
    Reading {
        inside: true,
        comment: comment_after(reading, byte),
        words: words_after(reading.words),
        name: reading.name,
        first: reading.first,
        second: reading.second,
    }
}

// The word that began last has one byte more.
fn add(reading: Reading, byte: u8) -> Reading
    ensures { result ≡ added_of reading byte }
{
    let mut added = reading;
    if reading.words == 1 {
        added.name = name_after(reading.name, byte);
        return added;
    }
    if reading.words == 2 {
        added.first = number_after(reading.first, byte);
        return added;
    }
    if reading.words == 3 {
        added.second = number_after(reading.second, byte);
        return added;
    }
    added
}

// What is known of the line with one byte more.
pub fn take(reading: Reading, byte: u8) -> Reading
    ensures { result ≡ taken_of reading byte }
{
    if is_blank(byte) {
        let mut outside = reading;
        outside.inside = false;
        return outside;
    }
    if reading.inside {
        return add(reading, byte);
    }
    add(begin(reading, byte), byte)
}
