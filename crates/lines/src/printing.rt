// What is told, as it is printed.
ghost use Rattle.std.specs.Prelude.{◌≡◌, [], ◌++◌, ◌∷◌, Some, IfOk, take};
ghost use Rattle.lines.specs.Numbers.{numbers_text, verdict_text};
ghost use Rattle.lines.specs.Text.{places_text};

use crate::text::{LONGEST_WORDS, put_numbers, put_places, put_verdict};
use lists::{Listing, Words};
use std::fmt;
use verdicts::Verdict;

// Text that was put together in a block, so that it is written at once.
fn told(text: &[u8]) -> Result<&str, fmt::Error>
    ensures { IfOk result (λ told. told.now ≡ text.now) }
{
    str::from_utf8(text).map_err(|_| fmt::Error)
}

// The number and the place, with which every answer begins.
#[derive(Clone, Copy)]
pub struct VerdictText(pub Verdict);

impl fmt::Display for VerdictText {
    ghost output = { λ v. Some (verdict_text v.0.number v.0.place) };

    fn fmt<W: fmt::Write>(&self, f: &mut fmt::Formatter<W>) -> fmt::Result {
        let mut text = [0; 11];
        let end = put_verdict(&mut text, 0, self.0);
        f.write_str(told(&text[..end])?)
    }
}

// As many numbers as a table of nine rows has, the most that is told at once.
pub const MOST_NUMBERS: usize = 46;

// A space before each of these numbers. What follows the most that are told at once is left out.
#[derive(Clone, Copy)]
pub struct NumbersText<'a>(pub &'a [u16]);

impl fmt::Display for NumbersText<'_> {
    ghost output = { λ t. Some (numbers_text (take 46 t.0.now)) };

    #[tactic(auto, using(crate::proofs::Telling::at_most))]
    fn fmt<W: fmt::Write>(&self, f: &mut fmt::Formatter<W>) -> fmt::Result {
        let mut text = [0; 6 * MOST_NUMBERS];
        let numbers = &self.0[..MOST_NUMBERS.min(self.0.len())];
        let end = put_numbers(&mut text, 0, numbers);
        f.write_str(told(&text[..end])?)
    }
}

// As many words as count, with a space before each. An array with a count, as a list and a message of C have them.
#[derive(Clone, Copy)]
pub struct WordsText {
    pub words: [u32; 7],
    pub count: u8,
}

impl fmt::Display for WordsText {
    ghost output = { λ t. Some (places_text t.words t.count 7) };

    fn fmt<W: fmt::Write>(&self, f: &mut fmt::Formatter<W>) -> fmt::Result {
        // All in one write: with `{:08X}` for each word a line took up to twice the time.
        let mut text = [0; LONGEST_WORDS];
        let end = put_places(&mut text, 0, self.words, self.count);
        f.write_str(told(&text[..end])?)
    }
}

// The verdict, the count and as many words.
#[derive(Clone, Copy)]
pub struct ListingText(pub Listing);

impl fmt::Display for ListingText {
    ghost output = { λ t. Some (verdict_text t.0.verdict.number t.0.verdict.place ++ numbers_text (t.0.list.count ∷ []) ++ places_text t.0.list.words t.0.list.count 7) };

    fn fmt<W: fmt::Write>(&self, f: &mut fmt::Formatter<W>) -> fmt::Result {
        let Listing { verdict, list } = self.0;
        let Words { words, count } = list;
        let mut text = [0; 17];
        let place = put_verdict(&mut text, 0, verdict);
        let end = put_numbers(&mut text, place, &[u16::from(count)]);
        f.write_str(told(&text[..end])?)?;
        // The words by themselves: the console never cuts them in two.
        WordsText { words, count }.fmt(f)
    }
}
