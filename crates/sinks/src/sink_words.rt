// One word and one sink object (docs/STATEMENT.md, "Sink objects"). The bit places are those of the source side: a sink object is one of
// its objects without what no sink has.
ghost use Rattle.std.specs.Prelude.{◌≡◌};
ghost use Rattle.sinks.specs.SinkWords.{as_object, of_sink};
ghost use Rattle.sinks.specs.Promises.{SinkDecodes, SinkEncodes};

use crate::SinkObject;
use objects::{Object, Side};

// Without peak current and power limited. No sink has an AVS object: it is given back.
impl TryFrom<Object> for SinkObject {
    type Error = Object;

    ghost try_from_gives = { λ o r. r ≡ of_sink o };

    fn try_from(o: Object) -> Result<SinkObject, Object> {
        match o {
            Object::Fixed {
                flags,
                volts,
                current,
                ..
            } => Ok(SinkObject::Fixed {
                flags,
                volts,
                current,
            }),
            Object::Battery { max, min, power } => Ok(SinkObject::Battery { max, min, power }),
            Object::Variable { max, min, current } => Ok(SinkObject::Variable {
                max,
                min,
                current,
            }),
            Object::Pps {
                max,
                min,
                current,
                ..
            } => Ok(SinkObject::Pps { max, min, current }),
            Object::Avs { .. } => Err(o),
        }
    }
}

// "A sink has no peak current and no power limited": both are zero.
impl From<SinkObject> for Object {
    ghost from_gives = { λ o r. r ≡ as_object o };

    fn from(o: SinkObject) -> Object {
        match o {
            SinkObject::Fixed {
                flags,
                volts,
                current,
            } => Object::Fixed {
                flags,
                peak: 0,
                volts,
                current,
            },
            SinkObject::Battery { max, min, power } => Object::Battery { max, min, power },
            SinkObject::Variable { max, min, current } => Object::Variable { max, min, current },
            SinkObject::Pps { max, min, current } => Object::Pps {
                limited: 0,
                max,
                min,
                current,
            },
        }
    }
}

// The sink object of a word. `None` (refusal 12) where its kind is none that a sink has. It does not look at reserved bits:
// `objects::reserved_bit_set` does.
pub fn sink_decode(w: u32) -> Option<SinkObject>
    ensures { SinkDecodes w result }
{
    let object = objects::decode_for(Side::Sink, w)?;
    SinkObject::try_from(object).ok()
}

// The word of a sink object, with every reserved bit zero. `None` (refusal 7) where a field does not fit its bits.
pub fn sink_encode(o: SinkObject) -> Option<u32>
    ensures { SinkEncodes o result }
{
    objects::encode(Object::from(o))
}
