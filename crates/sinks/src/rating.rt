// The rating that a sink is designed for (docs/STATEMENT.md, "The design rating"). A figure is above its ceiling, the quotient rounded down,
// exactly when its product with the divisor is above the numerator: so nothing is divided, and a voltage of zero needs no case.
ghost use Rattle.std.specs.Prelude.{◌≡◌, ◌*◌, length};
ghost use Rattle.verdicts.specs.Refusals.{each_place, passed_by};
ghost use Rattle.sinks.specs.Rating.{bad_rating, above_quotient, divided_by, figure_above, word_above, ceiling_rows, sink_check_refusals};
ghost use Rattle.sinks.specs.Promises.{SinkChecks};

use crate::SinkObject;
use crate::sink_words::sink_decode;
use lists::Words;
use objects::Side;
use steps::{HalfWatts, Ma10, Mv50, Mv100};
use verdicts::Verdict;

// A rating is 1 to 200 half watts.
const LOWEST_RATING: HalfWatts = HalfWatts(1);

const HIGHEST_RATING: HalfWatts = HalfWatts(200);

// Every range of a programmable supply begins at 5 V.
const BOTTOM: Mv100 = Mv100(50);

#[tactic(auto, using(crate::proofs::Ceilings::above_product))]
fn above_quotient(numerator: u32, volts: u16, figure: u16) -> bool
    ensures { result ≡ above_quotient numerator volts figure }
{
    numerator < u32::from(volts) * u32::from(figure)
}

// 1000 R / v in 10 mA, v in 50 mV.
fn above_in_10_ma(rating: HalfWatts, volts: Mv50, current: Ma10) -> bool
    ensures { result ≡ above_quotient (1000 * rating.0) volts.0 current.0 }
{
    above_quotient(1000 * u32::from(rating.0), volts.0, current.0)
}

// The three ranges of programmable supplies go by the volts of their name, any other by its maximum.
fn divided_by(max: Mv100, min: Mv100) -> Mv100
    ensures { result.0 ≡ divided_by max.0 min.0 }
{
    if min != BOTTOM {
        return max;
    }
    match max {
        Mv100(110) => Mv100(90),
        Mv100(160) => Mv100(150),
        Mv100(210) => Mv100(200),
        _ => max,
    }
}

// Whether the operating figure of an object is above its ceiling. Of a programmable supply that is 100 R / v in 50 mA, v in 100 mV.
#[tactic(auto, using(crate::proofs::Ceilings::by_tenths), unfolding(crate::specs::Rating::figure_above))]
fn above_ceiling(rating: HalfWatts, o: SinkObject) -> bool
    ensures { result ≡ figure_above rating.0 o }
{
    match o {
        SinkObject::Fixed { volts, current, .. } => above_in_10_ma(rating, volts, current),
        SinkObject::Battery { power, .. } => 2 * u32::from(rating.0) < u32::from(power.0),
        SinkObject::Variable { max, current, .. } => above_in_10_ma(rating, max, current),
        SinkObject::Pps { max, min, current } => above_quotient(
            100 * u32::from(rating.0),
            divided_by(max, min).0,
            current.0,
        ),
    }
}

fn word_above(rating: HalfWatts, w: u32) -> bool
    ensures { result ≡ word_above rating.0 w }
{
    sink_decode(w).is_some_and(|object| above_ceiling(rating, object))
}

// 43 where some word has a figure above its ceiling.
fn judge_figures(rating: HalfWatts, words: &[u32]) -> Result<(), Verdict>
    ensures { result ≡ passed_by (each_place (ceiling_rows rating.0 words.now) (length words.now)) }
{
    if words.iter().any(|w| word_above(rating, *w)) {
        return Err(Verdict::placeless(verdicts::ABOVE_CEILING));
    }
    Ok(())
}

// 1: no sink is designed for such a rating.
#[tactic(auto, using(crate::proofs::Checks::bad_rating_told))]
fn bad_rating(rating: HalfWatts) -> bool
    ensures { result ≡ bad_rating rating.0 }
{
    rating < LOWEST_RATING || HIGHEST_RATING < rating
}

#[tactic(auto, using(crate::proofs::Checks::few_words))]
fn checked(rating: HalfWatts, list: Words) -> Result<(), Verdict>
    ensures { result ≡ passed_by (sink_check_refusals rating.0 list) }
{
    if bad_rating(rating) {
        return Err(Verdict::placeless(verdicts::PORT_MAXIMUM));
    }
    lists::shape_for(Side::Sink, list).passed()?;
    let words = &list.words[..list.count as usize];
    judge_figures(rating, words)
}

// Whether a sink list keeps to the rating that the sink is designed for. Refusals: 1; those of `sink_shape`, with their places; 43 (place 0).
#[tactic(auto, using(crate::proofs::Checks::sink_check_told))]
pub fn sink_check(rating: HalfWatts, list: Words) -> Verdict
    ensures { SinkChecks rating list result }
{
    Verdict::from(checked(rating, list))
}
