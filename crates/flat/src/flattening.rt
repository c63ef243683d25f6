// One object, both ways: a kind has its own fields, and the others are zero or not read.
ghost use Rattle.std.specs.Prelude.{◌≡◌};
ghost use Rattle.flat.specs.Flat.{raised_says, raised_for, sink_raised};
ghost use Rattle.flat.specs.Promises.{Flattens, Raises};

use crate::{EMPTY_FLAT, FlatObject, KIND_AVS, KIND_BATTERY, KIND_FIXED, KIND_PPS, KIND_VARIABLE};
use objects::{Object, Side};

// An object as a flat one: the fields of its kind, and all others zero.
impl From<Object> for FlatObject {
    ghost from_gives = { Flattens };

    #[tactic(auto, unfolding(crate::specs::Flat::flat_of))]
    fn from(o: Object) -> FlatObject {
        // Field by field, which takes no more time than the hand-written one in the Rust edition; with a whole struct for each kind it took 1.2 of it.
        let mut flat = EMPTY_FLAT;
        match o {
            Object::Fixed {
                flags,
                peak,
                volts,
                current,
            } => {
                flat.kind = KIND_FIXED;
                flat.flags = flags;
                flat.peak = peak;
                flat.volts = volts;
                flat.current = current;
            }
            Object::Battery { max, min, power } => {
                flat.kind = KIND_BATTERY;
                flat.max = max;
                flat.min = min;
                flat.power = power;
            }
            Object::Variable { max, min, current } => {
                flat.kind = KIND_VARIABLE;
                flat.max = max;
                flat.min = min;
                flat.current = current;
            }
            Object::Pps {
                limited,
                max,
                min,
                current,
            } => {
                flat.kind = KIND_PPS;
                flat.limited = limited;
                flat.max100 = max;
                flat.min100 = min;
                flat.current50 = current;
            }
            Object::Avs { peak, low, high } => {
                flat.kind = KIND_AVS;
                flat.peak = peak;
                flat.low = low;
                flat.high = high;
            }
        }
        flat
    }
}

// An object as a flat one: the fields of its kind, and all others zero. Nothing is refused.
pub fn flatten(o: Object) -> FlatObject
    ensures { Flattens o result }
{
    FlatObject::from(o)
}

// The object of a flat one; the fields that its kind does not have are not read. `None` (refusal 12) where the kind number is none of
// the five. This is no `TryFrom`, which would take one of two ways: an object of a sink is raised by another.
pub fn raise(flat: FlatObject) -> Option<Object>
    ensures { Raises flat result }
{
    match flat.kind {
        KIND_FIXED => Some(Object::Fixed {
            flags: flat.flags,
            peak: flat.peak,
            volts: flat.volts,
            current: flat.current,
        }),
        KIND_BATTERY => Some(Object::Battery {
            max: flat.max,
            min: flat.min,
            power: flat.power,
        }),
        KIND_VARIABLE => Some(Object::Variable {
            max: flat.max,
            min: flat.min,
            current: flat.current,
        }),
        KIND_PPS => Some(Object::Pps {
            limited: flat.limited,
            max: flat.max100,
            min: flat.min100,
            current: flat.current50,
        }),
        KIND_AVS => Some(Object::Avs {
            peak: flat.peak,
            low: flat.low,
            high: flat.high,
        }),
        _ => None,
    }
}

// The object of a flat one in the list of a sink, which has no AVS, no peak current and no power limited.
fn raise_sink(flat: FlatObject) -> Option<Object>
    ensures { raised_says result ≡ raised_says (sink_raised flat) }
{
    if flat.kind == KIND_AVS {
        return None;
    }
    raise(FlatObject {
        peak: 0,
        limited: 0,
        ..flat
    })
}

// The object of a flat one in a list of this side. `None` where the kind number is none that the side has.
pub fn raise_for(side: Side, flat: FlatObject) -> Option<Object>
    ensures { raised_says result ≡ raised_says (raised_for side flat) }
{
    match side {
        Side::Source => raise(flat),
        Side::Sink => raise_sink(flat),
    }
}
