// Objects as they are typed and told: a letter for the kind, then its figures in the object's own steps.
ghost use Rattle.std.specs.Prelude.{◌≡◌, IfOk, Some};
ghost use Rattle.std.specs.Str.Parse.{IsNumeral, digits_value};
ghost use Rattle.lines.specs.Fields.{OnNext};
ghost use Rattle.object_lines.specs.Telling.{object_text};

use lines::{Fields, Unreadable, VerdictText};
use lists::{EMPTY_PLACE, Objects, Place, Reading};
use objects::Object;
use std::fmt;
use steps::{Ma10, Ma50, Mv50, Mv100, Mw250};

fn take_object(fields: &mut Fields<'_>) -> Result<Object, Unreadable> {
    match fields.text()? {
        "F" => Ok(Object::Fixed {
            flags: fields.number()?,
            peak: fields.number()?,
            volts: Mv50(fields.number()?),
            current: Ma10(fields.number()?),
        }),
        "B" => Ok(Object::Battery {
            max: Mv50(fields.number()?),
            min: Mv50(fields.number()?),
            power: Mw250(fields.number()?),
        }),
        "V" => Ok(Object::Variable {
            max: Mv50(fields.number()?),
            min: Mv50(fields.number()?),
            current: Ma10(fields.number()?),
        }),
        "P" => Ok(Object::Pps {
            limited: fields.number()?,
            max: Mv100(fields.number()?),
            min: Mv100(fields.number()?),
            current: Ma50(fields.number()?),
        }),
        "A" => Ok(Object::Avs {
            peak: fields.number()?,
            low: Ma10(fields.number()?),
            high: Ma10(fields.number()?),
        }),
        _ => Err(Unreadable),
    }
}

// The count, and as many objects as it says, each in its place; no object where the count is outside 1 to 7.
pub fn take_counted<P: Copy, F: FnMut(&mut Fields<'_>) -> Result<P, Unreadable>>(
    fields: &mut Fields<'_>,
    places: &mut [P],
    mut take: F,
) -> Result<u8, Unreadable>
    requires { F.IsAlwaysCallable take }
    ensures { IfOk result (λ count. OnNext fields.old.rest (λ next. IsNumeral 10 next × (count ≡ digits_value 10 next))) }
{
    let count: u8 = fields.number()?;
    let typed = if count <= 7 { count } else { 0 };
    for place in places.iter_mut().take(usize::from(typed)) {
        *place = take(fields)?;
    }
    Ok(count)
}

pub(crate) fn take_objects(fields: &mut Fields<'_>) -> Result<Objects, Unreadable> {
    let mut places = [EMPTY_PLACE; 7];
    let count = take_counted(fields, &mut places, |fields| {
        Ok(Place {
            object: take_object(fields)?,
        })
    })?;
    Ok(Objects { places, count })
}

// An object in the form in which it is typed.
#[derive(Clone, Copy)]
struct ObjectText(Object);

impl fmt::Display for ObjectText {
    ghost output = { λ o. Some (object_text o.0) };

    fn fmt<W: fmt::Write>(&self, f: &mut fmt::Formatter<W>) -> fmt::Result {
        match self.0 {
            Object::Fixed {
                flags,
                peak,
                volts,
                current,
            } => write!(f, "F {flags} {peak} {} {}", volts.0, current.0),
            Object::Battery { max, min, power } => write!(f, "B {} {} {}", max.0, min.0, power.0),
            Object::Variable { max, min, current } => {
                write!(f, "V {} {} {}", max.0, min.0, current.0)
            }
            Object::Pps {
                limited,
                max,
                min,
                current,
            } => write!(f, "P {limited} {} {} {}", max.0, min.0, current.0),
            Object::Avs { peak, low, high } => write!(f, "A {peak} {} {}", low.0, high.0),
        }
    }
}

// A list of objects that was read: the verdict, the count, and as many objects.
#[derive(Clone, Copy)]
pub struct ReadingText(pub Reading);

impl fmt::Display for ReadingText {
    // As the text of a sink list, which has a struct of its own for its objects: a common function would promise nothing of what it writes.
    fn fmt<W: fmt::Write>(&self, f: &mut fmt::Formatter<W>) -> fmt::Result {
        let Reading { verdict, list } = self.0;
        write!(f, "{} {}", VerdictText(verdict), list.count)?;
        for place in list.places.iter().take(usize::from(list.count)) {
            write!(f, " {}", ObjectText(place.object))?;
        }
        Ok(())
    }
}
