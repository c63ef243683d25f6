// Sink objects as they are typed and told: a letter for the kind, then the figures that a sink has of it, in the object's own steps.
ghost use Rattle.std.specs.Prelude.{Some};
ghost use Rattle.sink_lines.specs.Telling.{sink_object_text};

use lines::{Fields, Unreadable, VerdictText};
use object_lines::take_counted;
use sinks::{EMPTY_SINK_PLACE, SinkObject, SinkObjects, SinkPlace, SinkReading};
use std::fmt;
use steps::{Ma10, Ma50, Mv50, Mv100, Mw250};

// "A sink has .. no AVS object", so there is no letter for one.
fn take_object(fields: &mut Fields<'_>) -> Result<SinkObject, Unreadable> {
    match fields.text()? {
        "F" => Ok(SinkObject::Fixed {
            flags: fields.number()?,
            volts: Mv50(fields.number()?),
            current: Ma10(fields.number()?),
        }),
        "B" => Ok(SinkObject::Battery {
            max: Mv50(fields.number()?),
            min: Mv50(fields.number()?),
            power: Mw250(fields.number()?),
        }),
        "V" => Ok(SinkObject::Variable {
            max: Mv50(fields.number()?),
            min: Mv50(fields.number()?),
            current: Ma10(fields.number()?),
        }),
        "P" => Ok(SinkObject::Pps {
            max: Mv100(fields.number()?),
            min: Mv100(fields.number()?),
            current: Ma50(fields.number()?),
        }),
        _ => Err(Unreadable),
    }
}

// As `take_objects` of `object_lines` but for the types; what they share is `take_counted`.
pub(crate) fn take_sink_objects(fields: &mut Fields<'_>) -> Result<SinkObjects, Unreadable> {
    let mut places = [EMPTY_SINK_PLACE; 7];
    let count = take_counted(fields, &mut places, |fields| {
        Ok(SinkPlace {
            object: take_object(fields)?,
        })
    })?;
    Ok(SinkObjects { places, count })
}

// A sink object in the form in which it is typed.
#[derive(Clone, Copy)]
struct SinkObjectText(SinkObject);

impl fmt::Display for SinkObjectText {
    ghost output = { λ o. Some (sink_object_text o.0) };

    fn fmt<W: fmt::Write>(&self, f: &mut fmt::Formatter<W>) -> fmt::Result {
        match self.0 {
            SinkObject::Fixed {
                flags,
                volts,
                current,
            } => write!(f, "F {flags} {} {}", volts.0, current.0),
            SinkObject::Battery { max, min, power } => {
                write!(f, "B {} {} {}", max.0, min.0, power.0)
            }
            SinkObject::Variable { max, min, current } => {
                write!(f, "V {} {} {}", max.0, min.0, current.0)
            }
            SinkObject::Pps { max, min, current } => {
                write!(f, "P {} {} {}", max.0, min.0, current.0)
            }
        }
    }
}

// A sink list that was read: the verdict, the count, and as many objects.
#[derive(Clone, Copy)]
pub struct SinkReadingText(pub SinkReading);

impl fmt::Display for SinkReadingText {
    fn fmt<W: fmt::Write>(&self, f: &mut fmt::Formatter<W>) -> fmt::Result {
        let SinkReading { verdict, list } = self.0;
        write!(f, "{} {}", VerdictText(verdict), list.count)?;
        for place in list.places.iter().take(usize::from(list.count)) {
            write!(f, " {}", SinkObjectText(place.object))?;
        }
        Ok(())
    }
}
