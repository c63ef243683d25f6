// The fields of a line. Exactly one space stands before each, so they are what lies between the spaces of the line.
ghost use Rattle.std.specs.Prelude.{◌≡◌, ◌↔◌, IsOk, IsTrue, IsNone, IsSome, IfOk, OnOk, OnErr, Ok, Err, length, slice_index, ◌≢◌};
ghost use Rattle.std.specs.Str.Parse.{IsNumeral, digits_value};
ghost use Rattle.std.specs.declared.num.ParseIntError.{ParseIntError};
ghost use Rattle.lines.specs.Fields.{first_field, IsLeft, Leaves, OnNext};

use lists::Words;
use std::num::ParseIntError;
use std::str::FromStr;

// A field that is missing, left over, or not what it has to be: the line cannot be read.
#[derive(Clone, Copy, Debug, PartialEq, Eq)]
pub struct Unreadable;

impl From<ParseIntError> for Unreadable {
    fn from(_error: ParseIntError) -> Unreadable {
        Unreadable
    }
}

// What is still to be read of a line.
#[derive(Clone, Copy, Debug)]
pub struct Fields<'a> {
    // What follows the space after the last field that was read. `None` once the line was read to its end.
    pub rest: Option<&'a str>,
}

impl<'a> Fields<'a> {
    // The name of the call, and the fields behind it.
    pub fn of(line: &'a str) -> (&'a str, Fields<'a>)
        ensures name { result.0.now ≡ first_field line.now }
        ensures rest { IsLeft line.now result.1.rest }
    {
        match line.split_once(' ') {
            Some((name, rest)) => (name, Fields { rest: Some(rest) }),
            None => (line, Fields { rest: None }),
        }
    }

    pub fn text(&mut self) -> Result<&'a str, Unreadable>
        ensures variant { IsOk result ↔ IsSome self.old.rest }
        ensures value { IfOk result (λ text. OnNext self.old.rest (λ next. text.now ≡ next)) }
        ensures rest { OnOk result (Leaves self.old.rest self.new.rest) }
    {
        let rest = self.rest.ok_or(Unreadable)?;
        let (next, left) = Fields::of(rest);
        *self = left;
        Ok(next)
    }

    // Digits have no sign, which a parser of numbers would take.
    fn digits(&mut self) -> Result<&'a str, Unreadable>
        ensures value { IfOk result (λ text. OnNext self.old.rest (λ next. text.now ≡ next)) }
        ensures rest { OnOk result (Leaves self.old.rest self.new.rest) }
        ensures unsigned { IfOk result (λ t. slice_index t.now 0 ≢ 43) }
        ensures reads { OnNext self.old.rest (λ next. slice_index next 0 ≢ 43 → IsOk result) }
        ensures there { IsOk result → IsSome self.old.rest }
    {
        let text = self.text()?;
        if text.starts_with('+') {
            return Err(Unreadable);
        }
        Ok(text)
    }

    // A decimal number that its parameter can hold.
    pub fn number<N: FromStr<Err = ParseIntError>>(&mut self) -> Result<N, Unreadable>
        ensures value { IfOk result (λ n. OnNext self.old.rest (λ next. N.from_str_gives next (Ok n))) }
        ensures unsigned { OnOk result (OnNext self.old.rest (λ next. slice_index next 0 ≢ 43)) }
        ensures rest { OnOk result (Leaves self.old.rest self.new.rest) }
        ensures refuses { OnErr result (OnNext self.old.rest (λ next. slice_index next 0 ≢ 43 → (e : ParseIntError) × N.from_str_gives next (Err e))) }
        ensures there { IsOk result → IsSome self.old.rest }
    {
        Ok(self.digits()?.parse()?)
    }

    // A word: eight hex digits, small and capital letters alike.
    #[tactic(auto, using(crate::proofs::Digits::eight))]
    pub fn word(&mut self) -> Result<u32, Unreadable>
        ensures value { IfOk result (λ word. OnNext self.old.rest (λ next. IsNumeral 16 next × (word ≡ digits_value 16 next))) }
        ensures eight { OnOk result (OnNext self.old.rest (λ next. length next ≡ 8)) }
        ensures rest { OnOk result (Leaves self.old.rest self.new.rest) }
        ensures reads { OnNext self.old.rest (λ next. IsNumeral 16 next → length next ≡ 8 → IsOk result) }
        ensures there { IsOk result → IsSome self.old.rest }
    {
        let digits = self.digits()?;
        if digits.len() != 8 {
            return Err(Unreadable);
        }
        Ok(u32::from_str_radix(digits, 16)?)
    }

    // The words of a list or a message are typed all seven, also where fewer count.
    pub fn seven_words(&mut self) -> Result<[u32; 7], Unreadable>
        ensures there { IsOk result → IsSome self.old.rest }
    {
        let mut words = [0; 7];
        for word in &mut words {
            *word = self.word()?;
        }
        Ok(words)
    }

    // A list is typed as its count and all seven words, also where the count is less.
    pub fn list(&mut self) -> Result<Words, Unreadable>
        ensures { IfOk result (λ list. OnNext self.old.rest (λ next. IsNumeral 10 next × (list.count ≡ digits_value 10 next))) }
    {
        let count: u8 = self.number()?;
        let words = self.seven_words()?;
        Ok(Words { words, count })
    }

    // A list with which the line ends.
    pub fn last_list(&mut self) -> Result<Words, Unreadable>
        ensures count { IfOk result (λ list. OnNext self.old.rest (λ next. IsNumeral 10 next × (list.count ≡ digits_value 10 next))) }
        ensures end { IsOk result → IsNone self.new.rest }
    {
        let last = self.list()?;
        self.end()?;
        Ok(last)
    }

    pub fn is_at_end(&self) -> bool
        ensures { IsTrue result ↔ IsNone self.now.rest }
    {
        self.rest.is_none()
    }

    // Nothing may be left over.
    pub fn end(&self) -> Result<(), Unreadable>
        ensures { IsOk result ↔ IsNone self.now.rest }
    {
        if self.is_at_end() {
            Ok(())
        } else {
            Err(Unreadable)
        }
    }
}
