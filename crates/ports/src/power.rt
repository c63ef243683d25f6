// The power of a request (docs/STATEMENT.md, "Ports that share"). A half watt is 1000 times 50 mV by 10 mA, 500 times 20 mV by 50 mA,
// and 400 times 25 mV by 50 mA: the steps are never turned into mV and mA.
ghost use Rattle.std.specs.Prelude.{◌≡◌, ◌<◌, ◌*◌, min, max};
ghost use Rattle.steps.specs.Units.{mv20, mv25, mv50, ma10, ma50};
ghost use Rattle.steps.specs.Rounding.{up_of};
ghost use Rattle.ports.specs.Requests.{cut_for, half_watts_for};

use objects::Object;
use requests::Request;
use steps::{HalfWatts, Ma10, Ma50, Mv20, Mv25, Mv50};

// These three stay apart: each is one line over `steps::round_up`, and its types say which steps its number is for.
#[tactic(auto, using(crate::proofs::Powers::fixed_steps))]
fn fixed_power(volts: Mv50, operating: Ma10) -> u32
    ensures { result ≡ up_of (mv50 volts * ma10 operating) 500000 }
{
    steps::round_up(u32::from(volts.0) * u32::from(operating.0), 1000)
}

#[tactic(auto, using(crate::proofs::Powers::avs_steps))]
fn avs_power(volts: Mv25, current: Ma50) -> u32
    ensures { result ≡ up_of (mv25 volts * ma50 current) 500000 }
{
    steps::round_up(u32::from(volts.0) * u32::from(current.0), 400)
}

#[tactic(auto, using(crate::proofs::Powers::pps_steps))]
fn pps_power(volts: Mv20, current: Ma50, present: HalfWatts) -> u32
    ensures { result ≡ min present.0 (up_of (mv20 volts * ma50 current) 500000) }
{
    let power = steps::round_up(u32::from(volts.0) * u32::from(current.0), 500);
    power.min(u32::from(present.0))
}

// Neither battery nor variable objects stand in a rule list, and their requests name no voltage: they count as nothing.
fn object_power(o: Object, present: HalfWatts, word: u32) -> u32
    ensures { result ≡ cut_for o present.0 (half_watts_for o word) }
{
    match requests::take_apart(o, word).request {
        Request::Fixed { operating, .. } => match o {
            Object::Fixed { volts, .. } => fixed_power(volts, operating),
            _ => 0,
        },
        Request::Battery { .. } | Request::Variable { .. } => 0,
        Request::Pps { volts, current } => pps_power(volts, current, present),
        Request::Avs { volts, current } => avs_power(volts, current),
    }
}

// What an accepted request holds: the larger of 15 and its power.
pub(crate) fn held_for(o: Object, present: HalfWatts, word: u32) -> HalfWatts
    requires { cut_for o present.0 (half_watts_for o word) < 65536 }
    ensures { result.0 ≡ max 15 (cut_for o present.0 (half_watts_for o word)) }
{
    let held = object_power(o, present, word).max(15);
    HalfWatts(held as u16)
}
