// Currents: what is built, and what the rule check allows. Rounding is the one law of `steps`.
ghost use Rattle.std.specs.Prelude.{◌≡◌, cond, ◌&&◌, ◌*◌, ◌<◌, eqb, ltb};
ghost use Rattle.std.specs.Ordering.{ord_min};
ghost use Rattle.rules.specs.Currents.{down_at, up_at, limit_at, built_current, fixed_allowed, above_3_A, allowed_above_3_A, either_rounding, cable_in_whole_50_mA, prog_down, prog_limit, prog_current, may_exceed, prog_allowed};

use crate::port::Port;
use steps::{HalfWatts, Ma10, Ma50};

// 3 A in each step of current.
const THREE_A: Ma10 = Ma10(300);

const THREE_A_50: Ma50 = Ma50(60);

// A quotient in 10 mA, rounded both ways: `steps::Roundings` counts in no step.
#[derive(Clone, Copy)]
struct RoundedCurrents {
    down: Ma10,
    up: Ma10,
}

// What a current is cut to, in any step: the cable at 20 V, and elsewhere the smaller of 3 A and the cable.
fn limit<T: Ord + Copy>(volts: u16, three_a: T, cable: T) -> T
    ensures { result ≡ cond (eqb volts 20) cable (ord_min T.cmp three_a cable) }
{
    if volts == 20 {
        return cable;
    }
    three_a.min(cable)
}

// ---- fixed objects

impl Port {
    #[tactic(auto, using(steps::proofs::RoundingLaws::down_within))]
    fn down_at(self, volts: u16) -> Ma10
        ensures { result.0 ≡ down_at self.profile volts }
    {
        Ma10(steps::round_down(50 * (self.profile.present.0 as u32), volts as u32) as u16)
    }

    #[tactic(auto, using(steps::proofs::RoundingLaws::up_within))]
    fn up_at(self, volts: u16) -> Ma10
        ensures { result.0 ≡ up_at self.profile volts }
    {
        Ma10(steps::round_up(50 * (self.profile.present.0 as u32), volts as u32) as u16)
    }

    #[tactic(auto, using(steps::proofs::RoundingLaws::down_within, steps::proofs::RoundingLaws::up_within))]
    fn both_at(self, volts: u16) -> RoundedCurrents
        ensures { (result.down.0 ≡ down_at self.profile volts) × (result.up.0 ≡ up_at self.profile volts) }
    {
        let both = steps::round_both(50 * (self.profile.present.0 as u32), volts as u32);
        RoundedCurrents {
            down: Ma10(both.down as u16),
            up: Ma10(both.up as u16),
        }
    }

    // "at most 3 A at 5, 9 and 15 V, and at every voltage at most the cable"
    fn limit_at(self, volts: u16) -> Ma10
        ensures { result.0 ≡ limit_at self.profile volts }
    {
        limit(volts, THREE_A, self.profile.cable)
    }

    // The current of a fixed object that is built.
    #[tactic(auto, using(crate::proofs::Exceeding::rounds_down, crate::proofs::Exceeding::rounds_up), unfolding(crate::specs::Currents::built_current))]
    pub(crate) fn built_current(self, volts: u16) -> Ma10
        ensures { result.0 ≡ built_current self.profile volts }
    {
        let limit = self.limit_at(volts);
        if self.profile.rounding == 0 {
            return self.down_at(volts).min(limit);
        }
        self.up_at(volts).min(limit)
    }

    // At 5, 9 and 15 V: "P is above six times the volts, which is 3 A there".
    fn above_3_a(self, volts: u16) -> bool
        ensures { result ≡ above_3_A self.profile volts }
    {
        if volts == 20 {
            return false;
        }
        6 * (volts as u32) < self.profile.present.0 as u32
    }

    // There "from the smaller of 3 A and the cable up to the smaller of the cable and the quotient rounded up". What 3 A and the cable decide
    // needs no division; most lists have the lower end here.
    #[tactic(auto, using(std::proofs::lemmas::Grind::common_steps, crate::proofs::Allowed::low_allowed))]
    fn allowed_above_3_a(self, volts: u16, current: Ma10) -> bool
        requires { (0 < volts) × (6 * volts < self.profile.present.0) }
        ensures { result ≡ allowed_above_3_A self.profile volts current.0 }
    {
        let low = THREE_A.min(self.profile.cable);
        if current < low {
            return false;
        }
        if self.profile.cable < current {
            return false;
        }
        if current == low {
            return true;
        }
        current <= self.up_at(volts)
    }

    // "the quotient rounded down, or rounded up, each cut to the cable"
    fn either_rounding(self, volts: u16, current: Ma10) -> bool
        ensures { result ≡ either_rounding self.profile volts current.0 }
    {
        let both = self.both_at(volts);
        if current == both.down.min(self.profile.cable) {
            return true;
        }
        current == both.up.min(self.profile.cable)
    }

    // Whether a fixed object may have this current. 20 V is one case with the others where P is not above 3 A.
    #[tactic(auto, using(crate::proofs::Allowed::above_3_A_lem, crate::proofs::Allowed::not_above_3_A))]
    pub(crate) fn fixed_allowed(self, volts: u16, current: Ma10) -> bool
        requires { 0 < volts }
        ensures { result ≡ fixed_allowed self.profile volts current.0 }
    {
        if self.above_3_a(volts) {
            return self.allowed_above_3_a(volts, current);
        }
        self.either_rounding(volts, current)
    }
}

// ---- programmable supplies

impl Port {
    #[tactic(auto, using(steps::proofs::RoundingLaws::down_within))]
    fn prog_down(self, volts: u16) -> Ma50
        ensures { result.0 ≡ prog_down self.profile volts }
    {
        Ma50(steps::round_down(10 * (self.profile.max.0 as u32), volts as u32) as u16)
    }

    // "the greatest figure of 50 mA that is not above the cable"
    fn cable_in_whole_50_ma(self) -> Ma50
        ensures { result.0 ≡ cable_in_whole_50_mA self.profile }
    {
        Ma50(self.profile.cable.0 / 5)
    }

    // 3 A for 9 V Prog and 15 V Prog, and for each of the three the cable.
    fn prog_limit(self, volts: u16) -> Ma50
        ensures { result.0 ≡ prog_limit self.profile volts }
    {
        limit(volts, THREE_A_50, self.cable_in_whole_50_ma())
    }

    // The current of a programmable supply that is built.
    #[tactic(auto, unfolding(crate::specs::Currents::prog_current))]
    pub(crate) fn prog_current(self, volts: u16) -> Ma50
        ensures { result.0 ≡ prog_current self.profile volts }
    {
        self.prog_down(volts).min(self.prog_limit(volts))
    }

    // Whether a programmable supply may have this current.
    #[tactic(auto, using(std::proofs::lemmas::Grind::common_steps, crate::proofs::Allowed::built_figure, crate::proofs::Allowed::not_above, crate::proofs::Allowed::below_built, crate::proofs::Allowed::by_cable), unfolding(crate::specs::Currents::prog_current))]
    pub(crate) fn prog_allowed(self, volts: u16, current: Ma50) -> bool
        ensures { result ≡ prog_allowed self.profile volts current.0 }
    {
        let down = self.prog_down(volts);
        let built = down.min(self.prog_limit(volts));
        if current == built {
            return true;
        }
        if may_exceed(self.profile.max, volts) {
            if current < built {
                return false;
            }
            return current <= down.min(self.cable_in_whole_50_ma());
        }
        false
    }
}

pub(crate) fn between(low: HalfWatts, m: HalfWatts, high: HalfWatts) -> bool
    ensures { result ≡ (ltb low.0 m.0 && ltb m.0 high.0) }
{
    low < m && m < high
}

// For 9 V and for 15 V there is a range of the port maximum in which a programmable supply may offer more than what is built.
fn may_exceed(max: HalfWatts, volts: u16) -> bool
    ensures { result ≡ may_exceed max.0 volts }
{
    match volts {
        9 => between(HalfWatts(54), max, HalfWatts(90)),
        15 => between(HalfWatts(90), max, HalfWatts(120)),
        _ => false,
    }
}
