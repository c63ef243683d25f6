// The answer to a decoded request from a summary alone. Limits have 16 bits and a request's figures in mV and mA do not: an AVS voltage
// of 4095 steps is 102,375 mV. So they are compared in 32 bits.
ghost use Rattle.std.specs.Prelude.{◌≡◌};
ghost use Rattle.verdicts.specs.Refusals.{passed_by};
ghost use Rattle.steps.specs.Units.{mv20, mv25, ma10, ma50};
ghost use Rattle.requests.specs.Limits.{avs_limit};
ghost use Rattle.summaries.specs.declared.QuickRequest.TheVariants.{Fixed};
ghost use Rattle.summaries.specs.Answering.{limits_in_row, row_with, row_refusals, range_refusals, summary_refusals};
ghost use Rattle.summaries.specs.Promises.{AnswersSummary};

use crate::holding::row_at;
use crate::{ABOVE_15_V, BELOW_15_V, HIGHEST, LOWEST, QuickAsked, QuickRequest, Summary};
use std::cmp::Ordering;
use steps::{Ma10, Ma50, Mv20, Mv25};
use verdicts::Verdict;

// A voltage in mV.
#[derive(Clone, Copy, PartialEq, Eq, PartialOrd, Ord)]
struct Mv(u32);

// A current in mA.
#[derive(Clone, Copy, PartialEq, Eq, PartialOrd, Ord)]
struct Ma(u32);

impl From<Mv20> for Mv {
    ghost from_gives = { λ volts mv. mv.0 ≡ mv20 volts };

    fn from(volts: Mv20) -> Mv {
        Mv(u32::from(volts.0) * 20)
    }
}

impl From<Mv25> for Mv {
    ghost from_gives = { λ volts mv. mv.0 ≡ mv25 volts };

    fn from(volts: Mv25) -> Mv {
        Mv(u32::from(volts.0) * 25)
    }
}

impl From<Ma10> for Ma {
    ghost from_gives = { λ current ma. ma.0 ≡ ma10 current };

    fn from(current: Ma10) -> Ma {
        Ma(u32::from(current.0) * 10)
    }
}

impl From<Ma50> for Ma {
    ghost from_gives = { λ current ma. ma.0 ≡ ma50 current };

    fn from(current: Ma50) -> Ma {
        Ma(u32::from(current.0) * 50)
    }
}

// The limits of a row.
#[derive(Clone, Copy)]
struct Limits {
    lowest: Mv,
    highest: Mv,
    below_15_v: Ma,
    above_15_v: Ma,
}

impl From<[u16; 4]> for Limits {
    ghost from_gives = { λ row limits. limits ≡ limits_in_row row };

    fn from(row: [u16; 4]) -> Limits {
        Limits {
            lowest: Mv(u32::from(row[LOWEST])),
            highest: Mv(u32::from(row[HIGHEST])),
            below_15_v: Ma(u32::from(row[BELOW_15_V])),
            above_15_v: Ma(u32::from(row[ABOVE_15_V])),
        }
    }
}

impl Limits {
    // At exactly 15.0 V the larger of the two currents limits.
    fn current_at(self, volts: Mv) -> Ma
        ensures { result.0 ≡ avs_limit volts.0 self.below_15_v.0 self.above_15_v.0 }
    {
        match volts.cmp(&Mv(15000)) {
            Ordering::Less => self.below_15_v,
            Ordering::Equal => self.below_15_v.max(self.above_15_v),
            Ordering::Greater => self.above_15_v,
        }
    }

    // Fixed and variable requests: two currents and no voltage. There is no 25 where the sink says that it needs more than is offered.
    fn judge_figures(self, operating: Ma10, maximum: Ma10, mismatch: bool) -> Result<(), Verdict>
        ensures { result ≡ passed_by (row_refusals (row_with self) mismatch (Fixed operating maximum)) }
    {
        let limit = self.below_15_v;
        if limit < Ma::from(operating) {
            return Err(Verdict::placeless(verdicts::OPERATING_TOO_LARGE));
        }
        if limit < Ma::from(maximum) && !mismatch {
            return Err(Verdict::placeless(verdicts::MAXIMUM_TOO_LARGE));
        }
        Ok(())
    }

    // PPS and AVS requests: a voltage in the range of the row, and a current.
    fn judge_range(self, volts: Mv, current: Ma) -> Result<(), Verdict>
        ensures { result ≡ passed_by (range_refusals (row_with self) volts.0 current.0) }
    {
        if volts < self.lowest || self.highest < volts {
            return Err(Verdict::placeless(verdicts::VOLTAGE_OUTSIDE));
        }
        if self.current_at(volts) < current {
            return Err(Verdict::placeless(verdicts::OPERATING_TOO_LARGE));
        }
        Ok(())
    }

    // Whether a request keeps to the limits. 100 mV is four steps of 25 mV.
    fn judge(self, mismatch: bool, request: QuickRequest) -> Result<(), Verdict>
        ensures { result ≡ passed_by (row_refusals (row_with self) mismatch request) }
    {
        match request {
            QuickRequest::Fixed { operating, maximum }
            | QuickRequest::Variable { operating, maximum } => self.judge_figures(
                operating, maximum, mismatch,
            ),
            QuickRequest::Pps { volts, current } => self.judge_range(
                Mv::from(volts),
                Ma::from(current),
            ),
            QuickRequest::Avs { volts, .. } if volts.0 % 4 != 0 => Err(Verdict::placeless(
                verdicts::AVS_VOLTAGE_NOT_WHOLE,
            )),
            QuickRequest::Avs { volts, current } => self.judge_range(
                Mv::from(volts),
                Ma::from(current),
            ),
        }
    }
}

fn answered(summary: Summary, asked: QuickAsked) -> Result<(), Verdict>
    ensures { result ≡ passed_by (summary_refusals summary asked) }
{
    if 7 < summary.count {
        return Err(Verdict::placeless(verdicts::COUNT));
    }
    let named = asked.position;
    if named < 1 || summary.count < named {
        return Err(Verdict::placeless(verdicts::POSITION));
    }
    let limits = Limits::from(row_at(summary, (named - 1) as usize));
    limits.judge(asked.mismatch, asked.request)
}

// Whether a decoded request may be accepted, by the summary of the list that was advertised: the answer from that list, where the request
// was decoded for the object at its position. A summary of other numbers is taken as it stands. Refusals: 10 where its count is above 7;
// 20, 23, 22, 24, 25; all with place 0.
pub fn answer_summary(summary: Summary, asked: QuickAsked) -> Verdict
    ensures { AnswersSummary summary asked result }
{
    Verdict::from(answered(summary, asked))
}
