// From a word to an object. The fields are taken by shifts and masks at their bit places (docs/STATEMENT.md, "Object words").
ghost use Rattle.objects.specs.Promises.{TellsKind, Decodes, DecodesFor};
ghost use Rattle.objects.specs.Decode.{fixed_of, battery_of, variable_of, pps_of, avs_of};
ghost use Rattle.std.specs.Prelude.{◌≡◌};

use crate::{
    BITS_AVS, BITS_BATTERY, BITS_EPR_AVS, BITS_FIXED, BITS_PPS, BITS_UNASSIGNED, BITS_VARIABLE,
    Object, Side,
};
use steps::{Ma10, Ma50, Mv50, Mv100, Mw250};

fn fixed(w: u32) -> Object
    ensures { result ≡ fixed_of w }
{
    Object::Fixed {
        flags: ((w >> 23) & 0x7F) as u8,
        peak: ((w >> 20) & 0x3) as u8,
        volts: Mv50(((w >> 10) & 0x3FF) as u16),
        current: Ma10((w & 0x3FF) as u16),
    }
}

fn battery(w: u32) -> Object
    ensures { result ≡ battery_of w }
{
    Object::Battery {
        max: Mv50(((w >> 20) & 0x3FF) as u16),
        min: Mv50(((w >> 10) & 0x3FF) as u16),
        power: Mw250((w & 0x3FF) as u16),
    }
}

// As `battery` but for the variant and the type of its last field: to say both once would take a trait for two lines.
fn variable(w: u32) -> Object
    ensures { result ≡ variable_of w }
{
    Object::Variable {
        max: Mv50(((w >> 20) & 0x3FF) as u16),
        min: Mv50(((w >> 10) & 0x3FF) as u16),
        current: Ma10((w & 0x3FF) as u16),
    }
}

fn pps(w: u32) -> Object
    ensures { result ≡ pps_of w }
{
    Object::Pps {
        limited: ((w >> 27) & 0x1) as u8,
        max: Mv100(((w >> 17) & 0xFF) as u16),
        min: Mv100(((w >> 8) & 0xFF) as u16),
        current: Ma50((w & 0x7F) as u16),
    }
}

fn avs(w: u32) -> Object
    ensures { result ≡ avs_of w }
{
    Object::Avs {
        peak: ((w >> 26) & 0x3) as u8,
        low: Ma10(((w >> 10) & 0x3FF) as u16),
        high: Ma10((w & 0x3FF) as u16),
    }
}

// The object of a word. `None` (refusal 12) where its kind is one that no SPR list may hold. It does not look at reserved
// bits: `reserved_bit_set` does.
pub fn decode(w: u32) -> Option<Object>
    ensures { Decodes w result }
{
    let kind = (w >> 30) & 0x3;
    match kind {
        BITS_FIXED => Some(fixed(w)),
        BITS_BATTERY => Some(battery(w)),
        BITS_VARIABLE => Some(variable(w)),
        _ => {
            let augmented = (w >> 28) & 0xF;
            match augmented {
                BITS_PPS => Some(pps(w)),
                BITS_EPR_AVS => None,
                BITS_AVS => Some(avs(w)),
                BITS_UNASSIGNED => None,
                _ => None,
            }
        }
    }
}

// Whether a word is of this kind, given by one of the seven numbers, `BITS_FIXED` and so on; no word is of any other. For a caller
// that needs no object and knows the number: one test is left. Nothing is refused.
pub fn is_kind(w: u32, kind: u32) -> bool
    ensures { TellsKind w kind result }
{
    if kind < 0x3 {
        return (w >> 30) & 0x3 == kind;
    }
    if kind < 0xC {
        return false;
    }
    (w >> 28) & 0xF == kind
}

// The object of a word in the list of a sink. Its four kinds are the lowest numbers of bits 31..28, so they are told by how large the word is.
fn decode_sink(w: u32) -> Option<Object>
    ensures { DecodesFor Side.Sink w result }
{
    if w < 0x4000_0000 {
        return Some(fixed(w));
    }
    if w < 0x8000_0000 {
        return Some(battery(w));
    }
    if w < 0xC000_0000 {
        return Some(variable(w));
    }
    if w < 0xD000_0000 {
        return Some(pps(w));
    }
    None
}

// The object of a word in a list of this side. `None` (refusal 12) where its kind is one that no such list may hold: those of
// `decode`, and for a sink AVS too.
pub fn decode_for(side: Side, w: u32) -> Option<Object>
    ensures { DecodesFor side w result }
{
    match side {
        Side::Source => decode(w),
        Side::Sink => decode_sink(w),
    }
}
