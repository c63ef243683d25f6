// The four limits of an object. Its figures come out of a word, so they are narrow, and every limit fits its 16 bits.
ghost use Rattle.std.specs.Prelude.{◌≡◌};
ghost use Rattle.requests.specs.Limits.{avs_top};
ghost use Rattle.summaries.specs.Summaries.{limits_of, row};
ghost use Rattle.summaries.specs.Narrow.{Narrow};

use objects::Object;
use steps::Ma10;

// Of every kind but AVS the current is the same below 15.0 V and above.
fn level(lowest: u16, highest: u16, current: u16) -> [u16; 4]
    ensures { result ≡ row lowest highest current current }
{
    [lowest, highest, current, current]
}

// Where the range of an AVS object ends: without a second current at 15 V.
fn avs_top(high: Ma10) -> u16
    ensures { result ≡ avs_top high }
{
    if high.0 == 0 { 15000 } else { 20000 }
}

// The row of an object. A battery object has no current.
pub(crate) fn limits(o: Object) -> [u16; 4]
    requires { Narrow o }
    ensures { result ≡ limits_of o }
{
    match o {
        Object::Fixed { volts, current, .. } => level(volts.0 * 50, volts.0 * 50, current.0 * 10),
        Object::Battery { max, min, .. } => level(min.0 * 50, max.0 * 50, 0),
        Object::Variable { max, min, current } => level(min.0 * 50, max.0 * 50, current.0 * 10),
        Object::Pps {
            max,
            min,
            current,
            ..
        } => level(min.0 * 100, max.0 * 100, current.0 * 50),
        Object::Avs { low, high, .. } => [9000, avs_top(high), low.0 * 10, high.0 * 10],
    }
}
