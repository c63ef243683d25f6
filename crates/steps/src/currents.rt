// Currents from each step to the other. The numbers are the steps in mA. As in voltages, each keeps its name.
ghost use Rattle.steps.specs.Promises.{ConvertedToMa10, ConvertedToMa50};

use crate::scaling::rescale;
use crate::{Ma10, Ma50};

impl Ma10 {
    // The same current in steps of 50 mA. None where no whole figure of 16 bits gives it.
    pub fn to_ma50(self) -> Option<Ma50>
        ensures { ConvertedToMa50 self.0 10 result }
    {
        rescale(self.0, 10, 50).map(Ma50)
    }
}

impl Ma50 {
    // The same current in steps of 10 mA. None where no whole figure of 16 bits gives it.
    pub fn to_ma10(self) -> Option<Ma10>
        ensures { ConvertedToMa10 self.0 50 result }
    {
        rescale(self.0, 50, 10).map(Ma10)
    }
}
