// Rounding a quotient, proved once over numerator and divisor (docs/STATEMENT.md, "What the contracts settle").
ghost use Rattle.steps.specs.Promises.{RoundedDown, RoundedUp, RoundedBoth};

use crate::Roundings;

// The quotient rounded down: the greatest whole number that is not above it. A divisor of 0 gives 0.
pub fn round_down(numerator: u32, divisor: u32) -> u32
    ensures { RoundedDown numerator divisor result }
{
    if divisor == 0 { 0 } else { numerator / divisor }
}

// The quotient rounded up: the least whole number that is not below it. A divisor of 0 gives 0.
pub fn round_up(numerator: u32, divisor: u32) -> u32
    ensures { RoundedUp numerator divisor result }
{
    round_both(numerator, divisor).up
}

// Both roundings from one division. A divisor of 0 gives 0 both ways.
pub fn round_both(numerator: u32, divisor: u32) -> Roundings
    ensures { RoundedBoth numerator divisor result }
{
    if divisor == 0 {
        return Roundings { down: 0, up: 0 };
    }
    let quotient = numerator / divisor;
    // With `%`, a compiler that does not see that one division gives both makes two.
    let remainder = numerator - quotient * divisor;
    if remainder == 0 {
        return Roundings {
            down: quotient,
            up: quotient,
        };
    }
    Roundings {
        down: quotient,
        up: quotient + 1,
    }
}
