// Text put into a block of bytes at a place, as `caps` prints it: each function answers the place after its text. The block and the place
// stay as they are, and no text that grows comes in their stead: `put_line` promises `PutWhereRoom`, on which what `caps` prints rests.
ghost use Rattle.std.specs.Prelude.{◌≡◌, [], ◌∷◌, ◌+◌, ◌*◌, ◌≤◌, ◌<◌, min, length};
ghost use Rattle.lines.specs.Numbers.{number_text, numbers_text, verdict_text};
ghost use Rattle.lines.specs.Text.{Appended, PutWhereRoom, digit_from, decimal, hex_word, places_text, line_of};

use verdicts::Verdict;

const HEX_DIGITS: [u8; 16] = [
    b'0', b'1', b'2', b'3', b'4', b'5', b'6', b'7', b'8', b'9', b'A', b'B', b'C', b'D', b'E', b'F',
];

// No line of a listing is longer: two numbers of three digits, a space and a line end, seven words with a space before each.
pub const LONGEST: usize = 71;

fn put_byte(out: &mut [u8], at: usize, byte: u8) -> usize
    requires { at < length out.old }
    ensures { Appended out.old at (byte ∷ []) out.new result }
{
    out[at] = byte;
    at + 1
}

// The digit that counts a power of ten, where the number reaches it.
fn put_digit_from(out: &mut [u8], at: usize, n: u16, power: u16) -> usize
    requires { (at < length out.old) × (0 < power) }
    ensures { Appended out.old at (digit_from power n) out.new result }
{
    if n < power {
        return at;
    }
    put_byte(out, at, b'0' + (n / power % 10) as u8)
}

fn put_decimal(out: &mut [u8], at: usize, n: u16) -> usize
    requires { at + 5 ≤ length out.old }
    ensures { Appended out.old at (decimal n) out.new result }
{
    let thousands = put_digit_from(out, at, n, 10000);
    let hundreds = put_digit_from(out, thousands, n, 1000);
    let tens = put_digit_from(out, hundreds, n, 100);
    let ones = put_digit_from(out, tens, n, 10);
    put_byte(out, ones, b'0' + (n % 10) as u8)
}

// A number as the console tells it.
#[tactic(auto, using(crate::proofs::Decimals::told, crate::proofs::Lengths::number_length))]
fn put_number(out: &mut [u8], at: usize, n: u16) -> usize
    requires { at + 5 ≤ length out.old }
    ensures text { Appended out.old at (number_text n) out.new result }
    ensures end { result ≤ at + 5 }
{
    put_decimal(out, at, n)
}

// A number that is not the first of its line.
fn put_field(out: &mut [u8], at: usize, n: u16) -> usize
    requires { at + 6 ≤ length out.old }
    ensures text { Appended out.old at (numbers_text (n ∷ [])) out.new result }
    ensures end { result ≤ at + 6 }
{
    let first = put_byte(out, at, b' ');
    put_number(out, first, n)
}

pub(crate) fn put_numbers(out: &mut [u8], at: usize, numbers: &[u16]) -> usize
    requires { at + 6 * length numbers.now ≤ length out.old }
    ensures text { Appended out.old at (numbers_text numbers.now) out.new result }
    ensures end { result ≤ at + 6 * length numbers.now }
{
    let mut next = at;
    for n in numbers {
        next = put_field(out, next, *n);
    }
    next
}

// The number and the place, with which every answer begins.
pub(crate) fn put_verdict(out: &mut [u8], at: usize, verdict: Verdict) -> usize
    requires { at + 11 ≤ length out.old }
    ensures text { Appended out.old at (verdict_text verdict.number verdict.place) out.new result }
    ensures end { result ≤ at + 11 }
{
    let next = put_number(out, at, u16::from(verdict.number));
    put_field(out, next, u16::from(verdict.place))
}

#[tactic(auto, unfolding(crate::specs::Text::hex_word))]
fn put_hex_word(out: &mut [u8], at: usize, w: u32) -> usize
    requires { at + 8 ≤ length out.old }
    ensures { Appended out.old at (hex_word w) out.new result }
{
    let digits = HEX_DIGITS;
    for i in 0..8 {
        let digit = (w >> (28 - 4 * i)) % 16;
        out[at + i] = digits[digit as usize];
    }
    at + 8
}

// A space and the word.
fn put_place(out: &mut [u8], at: usize, w: u32) -> usize
    requires { at + 9 ≤ length out.old }
    ensures { Appended out.old at (32 ∷ hex_word w) out.new result }
{
    let next = put_byte(out, at, b' ');
    put_hex_word(out, next, w)
}

fn places_that_count(count: u8) -> usize
    ensures { result ≡ min count 7 }
{
    usize::from(count.min(7))
}

// Seven words, with a space before each.
pub const LONGEST_WORDS: usize = 63;

// The words come by themselves: a whole list, copied for the call, would have to wait for the words just written.
pub(crate) fn put_places(out: &mut [u8], at: usize, words: [u32; 7], count: u8) -> usize
    requires { at + 63 ≤ length out.old }
    ensures { Appended out.old at (places_text words count 7) out.new result }
{
    let mut next = at;
    for word in &words[..places_that_count(count)] {
        next = put_place(out, next, *word);
    }
    next
}

fn put_whole_line(out: &mut [u8], at: usize, number: u8, words: [u32; 7], count: u8) -> usize
    requires { at + 71 ≤ length out.old }
    ensures { Appended out.old at (line_of number words count) out.new result }
{
    let space = put_decimal(out, at, number as u16);
    let next = put_byte(out, space, b' ');
    let places = put_decimal(out, next, count as u16);
    let end = put_places(out, places, words, count);
    put_byte(out, end, b'\n')
}

// The line of a listing: "the number of the refusal, then the count of words, then every word as eight hex digits in
// capitals".
// Where the block has no room for the longest line, nothing is put.
pub fn put_line(out: &mut [u8], at: usize, number: u8, words: [u32; 7], count: u8) -> usize
    ensures { PutWhereRoom 71 out.old at (line_of number words count) out.new result }
{
    if out.len() < at {
        return at;
    }
    if out.len() - at < LONGEST {
        return at;
    }
    put_whole_line(out, at, number, words, count)
}
