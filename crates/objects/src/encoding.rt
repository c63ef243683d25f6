// From an object to a word, put together from the lowest field up. A field too wide for its bits is refused, never cut.
ghost use Rattle.objects.specs.Promises.{Encodes};
ghost use Rattle.objects.specs.Encode.{word_of, three_fields};
ghost use Rattle.std.specs.Prelude.{◌≡◌, ◌<◌};

use crate::{BITS_AVS, BITS_BATTERY, BITS_PPS, BITS_VARIABLE, Object};
use steps::{Ma10, Ma50, Mv50, Mv100};

// The word of a fixed object; `encode` is the same for an object of any kind. `None` (refusal 7) where a field does not fit its
// bits.
pub fn fixed_word(flags: u8, peak: u8, volts: Mv50, current: Ma10) -> Option<u32>
    ensures { Encodes (Object.Fixed flags peak volts current) result }
{
    if 1024 <= current.0 {
        return None;
    }
    if 1024 <= volts.0 {
        return None;
    }
    if 4 <= peak {
        return None;
    }
    if 128 <= flags {
        return None;
    }
    Some(
        (current.0 as u32)
            | ((volts.0 as u32) << 10)
            | ((peak as u32) << 20)
            | ((flags as u32) << 23),
    )
}

// Battery and variable share their bit places: kind 1 with a power, kind 2 with a current.
fn three_word(kind: u32, max: u16, min: u16, figure: u16) -> Option<u32>
    requires { kind < 4 }
    ensures { result ≡ word_of (three_fields kind max min figure) }
{
    if 1024 <= figure {
        return None;
    }
    if 1024 <= min {
        return None;
    }
    if 1024 <= max {
        return None;
    }
    Some((figure as u32) | ((min as u32) << 10) | ((max as u32) << 20) | (kind << 30))
}

// The word of a PPS object. `None` (refusal 7) where a field does not fit its bits.
pub fn pps_word(limited: u8, max: Mv100, min: Mv100, current: Ma50) -> Option<u32>
    ensures { Encodes (Object.Pps limited max min current) result }
{
    if 128 <= current.0 {
        return None;
    }
    if 256 <= min.0 {
        return None;
    }
    if 256 <= max.0 {
        return None;
    }
    if 2 <= limited {
        return None;
    }
    Some(
        (current.0 as u32)
            | ((min.0 as u32) << 8)
            | ((max.0 as u32) << 17)
            | ((limited as u32) << 27)
            | (BITS_PPS << 28),
    )
}

// The word of an SPR AVS object. `None` (refusal 7) where a field does not fit its bits.
pub fn avs_word(peak: u8, low: Ma10, high: Ma10) -> Option<u32>
    ensures { Encodes (Object.Avs peak low high) result }
{
    if 1024 <= high.0 {
        return None;
    }
    if 1024 <= low.0 {
        return None;
    }
    if 4 <= peak {
        return None;
    }
    Some((high.0 as u32) | ((low.0 as u32) << 10) | ((peak as u32) << 26) | (BITS_AVS << 28))
}

// The word of an object, with every reserved bit zero. `None` (refusal 7) where a field does not fit its bits.
pub fn encode(o: Object) -> Option<u32>
    ensures { Encodes o result }
{
    match o {
        Object::Fixed {
            flags,
            peak,
            volts,
            current,
        } => fixed_word(flags, peak, volts, current),
        Object::Battery { max, min, power } => three_word(BITS_BATTERY, max.0, min.0, power.0),
        Object::Variable { max, min, current } => three_word(
            BITS_VARIABLE,
            max.0,
            min.0,
            current.0,
        ),
        Object::Pps {
            limited,
            max,
            min,
            current,
        } => pps_word(limited, max, min, current),
        Object::Avs { peak, low, high } => avs_word(peak, low, high),
    }
}
