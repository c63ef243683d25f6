// The limits of each kind. Figures are compared in the cheapest step; the definitions speak of mV and mA.
ghost use Rattle.std.specs.Prelude.{◌≡◌};
ghost use Rattle.verdicts.specs.Refusals.{passed_by};
ghost use Rattle.steps.specs.Units.{mv25, ma10};
ghost use Rattle.requests.specs.Limits.{avs_top, avs_limit};
ghost use Rattle.requests.specs.Judging.{figure_refusals, refusals_of};
ghost use Rattle.requests.specs.Promises.{JudgesRequest};

use crate::taking::{current, maximum, mismatch, operating, volts};
use objects::Object;
use std::cmp::Ordering;
use steps::{Ma10, Ma50, Mv25, Mv100};
use verdicts::Verdict;

// Fixed and variable objects advertise a current, a battery object a power: the figures of a request count the same steps. 24 comes before
// 25, and there is no 25 where the sink says that it needs more than is offered (bit 26).
#[tactic(auto, using(crate::proofs::Figures::operating_over, crate::proofs::Figures::maximum_over, crate::proofs::Figures::excused, crate::proofs::Figures::both_within))]
fn judge_figures(advertised: u16, word: u32) -> Result<(), Verdict>
    ensures { result ≡ passed_by (figure_refusals advertised word) }
{
    if advertised < operating(word) {
        return Err(Verdict::placeless(verdicts::OPERATING_TOO_LARGE));
    }
    if advertised < maximum(word) && !mismatch(word) {
        return Err(Verdict::placeless(verdicts::MAXIMUM_TOO_LARGE));
    }
    Ok(())
}

// A step of 100 mV is five of 20 mV.
fn judge_pps(min: Mv100, max: Mv100, limit: Ma50, word: u32) -> Result<(), Verdict>
    ensures { result ≡ passed_by (refusals_of (Object.Pps 0 max min limit) word) }
{
    let volts = u32::from(volts(word));
    if volts < u32::from(min.0) * 5 || u32::from(max.0) * 5 < volts {
        return Err(Verdict::placeless(verdicts::VOLTAGE_OUTSIDE));
    }
    if limit < current(word) {
        return Err(Verdict::placeless(verdicts::OPERATING_TOO_LARGE));
    }
    Ok(())
}

// Where the range ends: at 15.0 V without a second current, else at 20.0 V.
fn avs_top(high: Ma10) -> Mv25
    ensures { mv25 result ≡ avs_top high }
{
    if high.0 == 0 { Mv25(600) } else { Mv25(800) }
}

// 15.0 V is 600 steps of 25 mV. There both ranges hold, and the larger current limits. `summaries` says the same of mV and mA: one function for
// both would be public and take a trait of units, for three lines.
fn avs_limit(low: Ma10, high: Ma10, volts: Mv25) -> Ma10
    ensures { ma10 result ≡ avs_limit (mv25 volts) (ma10 low) (ma10 high) }
{
    match volts.cmp(&Mv25(600)) {
        Ordering::Less => low,
        Ordering::Equal => low.max(high),
        Ordering::Greater => high,
    }
}

// 100 mV is four steps of 25 mV, 9.0 V is 360 of them; a step of 50 mA is five of 10 mA.
fn judge_avs(low: Ma10, high: Ma10, word: u32) -> Result<(), Verdict>
    ensures { result ≡ passed_by (refusals_of (Object.Avs 0 low high) word) }
{
    let volts = Mv25(volts(word));
    if volts.0 % 4 != 0 {
        return Err(Verdict::placeless(verdicts::AVS_VOLTAGE_NOT_WHOLE));
    }
    if volts < Mv25(360) || avs_top(high) < volts {
        return Err(Verdict::placeless(verdicts::VOLTAGE_OUTSIDE));
    }
    let limit = avs_limit(low, high, volts);
    if u32::from(limit.0) < u32::from(current(word).0) * 5 {
        return Err(Verdict::placeless(verdicts::OPERATING_TOO_LARGE));
    }
    Ok(())
}

// What a request word breaks of the limits of an object.
pub(crate) fn judged(o: Object, word: u32) -> Result<(), Verdict>
    ensures { result ≡ passed_by (refusals_of o word) }
{
    match o {
        Object::Fixed { current, .. } | Object::Variable { current, .. } => judge_figures(
            current.0, word,
        ),
        Object::Battery { power, .. } => judge_figures(power.0, word),
        Object::Pps {
            max,
            min,
            current,
            ..
        } => judge_pps(min, max, current, word),
        Object::Avs { low, high, .. } => judge_avs(low, high, word),
    }
}

// Whether a request word keeps to the limits of the object that it names. The position is not looked at: here is no list. Refusals: 23,
// 22, 24, 25, with place 0.
pub fn judge(o: Object, word: u32) -> Verdict
    ensures { JudgesRequest o word result }
{
    Verdict::from(judged(o, word))
}
