// A figure counted in steps of one size, counted again in steps of another. The sizes are in mV or in mA.
ghost use Rattle.std.specs.Prelude.{◌≤◌, ◌<◌};
ghost use Rattle.steps.specs.Promises.{Rescaled};

// None where no whole figure of 16 bits gives it. The largest step is 100, so the measure fits 32 bits.
pub(crate) fn rescale(figure: u16, from: u32, to: u32) -> Option<u16>
    requires { (from ≤ 100) × (0 < to) }
    ensures { Rescaled figure from to result }
{
    let measure = (figure as u32) * from;
    if measure % to != 0 {
        return None;
    }
    let count = measure / to;
    if 65536 <= count {
        return None;
    }
    Some(count as u16)
}
