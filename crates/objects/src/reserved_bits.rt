// The bits of a word that have to be zero (docs/STATEMENT.md, "Object words" and "Sink objects").
ghost use Rattle.objects.specs.Promises.{TellsReserved};
ghost use Rattle.objects.specs.Reserved.{fixed_set, limited_set, pps_set};
ghost use Rattle.std.specs.Prelude.{◌≡◌};

use crate::{Object, Side};

// The first word of a list may carry flags. A sink has no peak current.
fn fixed_bit_set(side: Side, first: bool, w: u32) -> bool
    ensures { result ≡ fixed_set side first w }
{
    match side {
        Side::Source => {
            if first {
                return (w >> 22) & 0x1 != 0;
            }
            (w >> 22) & 0xFF != 0
        }
        Side::Sink => {
            if first {
                return (w >> 20) & 0x7 != 0;
            }
            (w >> 20) & 0x3FF != 0
        }
    }
}

// Bits 26..25, and for a sink, which has no power limited, bit 27.
fn limited_bit_set(side: Side, w: u32) -> bool
    ensures { result ≡ limited_set side w }
{
    match side {
        Side::Source => (w >> 25) & 0x3 != 0,
        Side::Sink => (w >> 25) & 0x7 != 0,
    }
}

fn pps_bit_set(side: Side, w: u32) -> bool
    ensures { result ≡ pps_set side w }
{
    if limited_bit_set(side, w) {
        return true;
    }
    if (w >> 16) & 0x1 != 0 {
        return true;
    }
    (w >> 7) & 0x1 != 0
}

// Whether a word has a bit set that is reserved for an object of this kind in a list of this side. Nothing is refused: a list with such a
// word is, with 13.
pub fn reserved_bit_set(side: Side, o: Object, first: bool, w: u32) -> bool
    ensures { TellsReserved side o first w result }
{
    match o {
        Object::Fixed { .. } => fixed_bit_set(side, first, w),
        Object::Battery { .. } => false,
        Object::Variable { .. } => false,
        Object::Pps { .. } => pps_bit_set(side, w),
        Object::Avs { .. } => (w >> 20) & 0x3F != 0,
    }
}
