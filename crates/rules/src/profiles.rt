// The profile of a port: its refusals, and the default from the port maximum alone.
ghost use Rattle.std.specs.Prelude.{◌≡◌, not, Err, MatchResult};
ghost use Rattle.verdicts.specs.Refusals.{passed_by};
ghost use Rattle.steps.specs.Ranges.{within};
ghost use Rattle.rules.specs.Profiles.{profile_refusals, profile_refused};
ghost use Rattle.rules.specs.Promises.{TellsBadCable, Defaults};

use crate::port::Port;
use crate::{Profile, Profiled};
use steps::{HalfWatts, Ma10};
use verdicts::{PASSED, Verdict};

// The bounds of a port maximum (1), and the low end of the present power (2).
const LEAST: HalfWatts = HalfWatts(1);

const GREATEST: HalfWatts = HalfWatts(200);

fn outside(low: HalfWatts, power: HalfWatts, high: HalfWatts) -> bool
    ensures { result ≡ not (within low.0 high.0 power.0) }
{
    power < low || high < power
}

fn no_profile(number: u8) -> Profiled
    ensures { result ≡ profile_refused number 0 }
{
    Profiled {
        verdict: Verdict::placeless(number),
        profile: Profile {
            max: HalfWatts(0),
            present: HalfWatts(0),
            cable: Ma10(0),
            rounding: 0,
            pps: 0,
            flags: 0,
        },
    }
}

// The default profile of a port maximum: present power is the maximum, a 3 A cable, rounded down, no PPS, no flags. Refusals: 1.
#[tactic(auto, unfolding(crate::specs::Profiles::default_of, verdicts::specs::Refusals::first_of))]
pub fn default_profile(max: HalfWatts) -> Profiled
    ensures { Defaults max result }
{
    if outside(LEAST, max, GREATEST) {
        return no_profile(verdicts::PORT_MAXIMUM);
    }
    Profiled {
        verdict: PASSED,
        profile: Profile {
            max,
            present: max,
            cable: Ma10(300),
            rounding: 0,
            pps: 0,
            flags: 0,
        },
    }
}

// Whether a cable is refused with 3. One that carries 1 to 5 A is not. Nothing is refused here.
pub fn bad_cable(cable: Ma10) -> bool
    ensures { TellsBadCable cable result }
{
    cable < Ma10(100) || Ma10(500) < cable
}

// 1 to 5, in order; 6 is the builder's alone.
#[tactic(auto, unfolding(verdicts::specs::Refusals::first_of))]
fn judge_profile(p: Profile) -> Result<(), Verdict>
    ensures { result ≡ passed_by (profile_refusals p) }
{
    if outside(LEAST, p.max, GREATEST) {
        return Err(Verdict::placeless(verdicts::PORT_MAXIMUM));
    }
    if outside(LEAST, p.present, p.max) {
        return Err(Verdict::placeless(verdicts::PRESENT_POWER));
    }
    if bad_cable(p.cable) {
        return Err(Verdict::placeless(verdicts::CABLE));
    }
    if 1 < p.rounding || 1 < p.pps {
        return Err(Verdict::placeless(verdicts::NOT_A_CHOICE));
    }
    if 63 < p.flags {
        return Err(Verdict::placeless(verdicts::FLAGS));
    }
    Ok(())
}

impl TryFrom<Profile> for Port {
    type Error = Verdict;

    ghost try_from_gives = { λ p r. MatchResult r (λ port. port.profile ≡ p) (λ v. passed_by (profile_refusals p) ≡ Err v) };

    fn try_from(p: Profile) -> Result<Port, Verdict> {
        judge_profile(p)?;
        Ok(Port { profile: p })
    }
}
