// What the three kinds of rows have in common: an object that a list has where the port maximum is right for it. The builder writes its
// word, and the rule check looks for it.
ghost use Rattle.std.specs.Prelude.{◌≡◌, Bool, ℕ, Some, cond, not, ◌≤◌, ◌<◌, ltb, eqb};
ghost use Rattle.std.specs.Bool.{beq};
ghost use Rattle.objects.specs.declared.Object.TheVariants as object;
ghost use Rattle.objects.specs.Encode.{encode_of};
ghost use Rattle.lists.specs.Writing.{word_in};
ghost use Rattle.rules.specs.Tables.{Slot, Fixed, Avs, Prog, exceeds, holds};
ghost use Rattle.rules.specs.Currents.{built_current};
ghost use Rattle.rules.specs.Building.{flags_at, slot_word};
ghost use Rattle.rules.specs.Following.{found_of};

use crate::checking::Found;
use crate::currents::between;
use crate::port::Port;
use crate::tables::{AVS_ABOVE, AVS_PAST_15_V_ABOVE, AvsRow, BOTTOM, Rail, Supply};
use objects::Object;
use steps::{HalfWatts, Ma10, Mv50};

pub(crate) trait Row: Copy {
    // What stands at its place, by the port maximum.
    ghost slot: { ℕ → Self → Slot };

    // For which port maximum it is there.
    ghost there: { ℕ → Self → Bool };

    // What is known of each row of its table.
    ghost real: { Self → Type 0 };

    // Whether a port with this maximum has the object.
    fn is_there(self, max: HalfWatts) -> bool
        ensures { result ≡ there max.0 self };

    // Its word. F goes to the first object of a list.
    fn word(self, port: Port, first: bool) -> u32
        requires { real self }
        ensures { result ≡ slot_word port.profile first (slot port.profile.max.0 self) };

    // What stands where it has to stand.
    fn find(self, port: Port, o: Object) -> Found
        requires { real self }
        ensures { result ≡ found_of port.profile (slot port.profile.max.0 self) (Some o) };
}

// The word of what was encoded; every object that is built has one.
fn word_in(e: Option<u32>) -> u32
    ensures { result ≡ word_in e }
{
    e.unwrap_or(0)
}

// ---- the fixed part

// F stands in bits 29..24 of the first word, and the flag field begins at bit 23.
fn flags_at(first: bool, flags: u8) -> u8
    requires { flags ≤ 63 }
    ensures { result ≡ flags_at first flags }
{
    if first { flags * 2 } else { 0 }
}

impl Row for Rail {
    ghost slot = { λ m r. Fixed r.volts };

    ghost there = { exceeds };

    ghost real = { λ r. (0 < r.volts) × (r.volts ≤ 20) };

    fn is_there(self, max: HalfWatts) -> bool {
        self.above < max
    }

    fn word(self, port: Port, first: bool) -> u32 {
        let current = port.built_current(self.volts);
        let flags = flags_at(first, port.profile.flags);
        let e = objects::fixed_word(flags, 0, Mv50(self.volts * 20), current);
        word_in(e)
    }

    #[tactic(auto, using(crate::proofs::Steps::found_other, crate::proofs::Steps::found_right, crate::proofs::Steps::fits_fixed, crate::proofs::OtherKinds::fixed_only), unfolding(crate::specs::Checking::current_refused))]
    fn find(self, port: Port, o: Object) -> Found {
        let Object::Fixed { volts, current, .. } = o else {
            return Found::Other;
        };
        if volts != Mv50(self.volts * 20) {
            return Found::Other;
        }
        if port.fixed_allowed(self.volts, current) {
            return Found::Allowed;
        }
        Found::NotAllowed
    }
}

// ---- AVS

fn second_current(port: Port) -> Ma10
    ensures { result.0 ≡ cond (ltb 90 port.profile.max.0) (built_current port.profile 20) 0 }
{
    if AVS_PAST_15_V_ABOVE < port.profile.max {
        return port.built_current(20);
    }
    Ma10(0)
}

// The word of an AVS object with these currents. "Its peak current is 0."
pub(crate) fn avs_with(low: Ma10, high: Ma10) -> u32
    ensures { result ≡ word_in (encode_of (object.Avs 0 low high)) }
{
    let e = objects::avs_word(0, low, high);
    word_in(e)
}

// The second current is 0 for a port maximum of at most 90, and only then.
fn ends_right(max: HalfWatts, high: Ma10) -> bool
    ensures { result ≡ beq (ltb 90 max.0) (not (eqb high.0 0)) }
{
    if AVS_PAST_15_V_ABOVE < max {
        high != Ma10(0)
    } else {
        high == Ma10(0)
    }
}

impl Row for AvsRow {
    ghost slot = { λ m r. Avs (ltb 90 m) };

    ghost there = { λ m r. ltb 54 m };

    ghost real = { λ r. Unit {0} };

    fn is_there(self, max: HalfWatts) -> bool {
        AVS_ABOVE < max
    }

    fn word(self, port: Port, _first: bool) -> u32 {
        let low = port.built_current(15);
        let high = second_current(port);
        avs_with(low, high)
    }

    // Its currents are those of fixed objects, which 17 sees to.
    #[tactic(auto, using(crate::proofs::Steps::found_other, crate::proofs::Steps::found_right, crate::proofs::OtherKinds::avs_only), unfolding(crate::specs::Checking::current_refused, crate::specs::Sets::fits))]
    fn find(self, port: Port, o: Object) -> Found {
        let Object::Avs { high, .. } = o else {
            return Found::Other;
        };
        if ends_right(port.profile.max, high) {
            return Found::Allowed;
        }
        Found::Other
    }
}

// ---- programmable supplies

impl Row for Supply {
    ghost slot = { λ m r. Prog r.volts r.top.0 };

    ghost there = { holds };

    ghost real = { λ r. Unit {0} };

    fn is_there(self, max: HalfWatts) -> bool {
        between(self.above, max, self.below)
    }

    fn word(self, port: Port, _first: bool) -> u32 {
        let current = port.prog_current(self.volts);
        let e = objects::pps_word(1, self.top, BOTTOM, current);
        word_in(e)
    }

    #[tactic(auto, using(crate::proofs::Steps::found_other, crate::proofs::Steps::found_right, crate::proofs::Steps::fits_pps, crate::proofs::OtherKinds::pps_only), unfolding(crate::specs::Checking::current_refused))]
    fn find(self, port: Port, o: Object) -> Found {
        let Object::Pps {
            max,
            min,
            current,
            ..
        } = o
        else {
            return Found::Other;
        };
        if max != self.top || min != BOTTOM {
            return Found::Other;
        }
        if port.prog_allowed(self.volts, current) {
            return Found::Allowed;
        }
        Found::NotAllowed
    }
}
