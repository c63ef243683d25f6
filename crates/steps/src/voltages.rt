// Voltages from each step to each other. The numbers are the steps in mV. Each conversion keeps its name, which the theorem `Conversions` of demands
// has.
ghost use Rattle.steps.specs.Promises.{ConvertedToMv20, ConvertedToMv25, ConvertedToMv50, ConvertedToMv100};

use crate::scaling::rescale;
use crate::{Mv20, Mv25, Mv50, Mv100};

impl Mv20 {
    // The same voltage in steps of 25 mV. None where no whole figure of 16 bits gives it.
    pub fn to_mv25(self) -> Option<Mv25>
        ensures { ConvertedToMv25 self.0 20 result }
    {
        rescale(self.0, 20, 25).map(Mv25)
    }

    // The same voltage in steps of 50 mV. None where no whole figure of 16 bits gives it.
    pub fn to_mv50(self) -> Option<Mv50>
        ensures { ConvertedToMv50 self.0 20 result }
    {
        rescale(self.0, 20, 50).map(Mv50)
    }

    // The same voltage in steps of 100 mV. None where no whole figure of 16 bits gives it.
    pub fn to_mv100(self) -> Option<Mv100>
        ensures { ConvertedToMv100 self.0 20 result }
    {
        rescale(self.0, 20, 100).map(Mv100)
    }
}

impl Mv25 {
    // The same voltage in steps of 20 mV. None where no whole figure of 16 bits gives it.
    pub fn to_mv20(self) -> Option<Mv20>
        ensures { ConvertedToMv20 self.0 25 result }
    {
        rescale(self.0, 25, 20).map(Mv20)
    }

    // The same voltage in steps of 50 mV. None where no whole figure of 16 bits gives it.
    pub fn to_mv50(self) -> Option<Mv50>
        ensures { ConvertedToMv50 self.0 25 result }
    {
        rescale(self.0, 25, 50).map(Mv50)
    }

    // The same voltage in steps of 100 mV. None where no whole figure of 16 bits gives it.
    pub fn to_mv100(self) -> Option<Mv100>
        ensures { ConvertedToMv100 self.0 25 result }
    {
        rescale(self.0, 25, 100).map(Mv100)
    }
}

impl Mv50 {
    // The same voltage in steps of 20 mV. None where no whole figure of 16 bits gives it.
    pub fn to_mv20(self) -> Option<Mv20>
        ensures { ConvertedToMv20 self.0 50 result }
    {
        rescale(self.0, 50, 20).map(Mv20)
    }

    // The same voltage in steps of 25 mV. None where no whole figure of 16 bits gives it.
    pub fn to_mv25(self) -> Option<Mv25>
        ensures { ConvertedToMv25 self.0 50 result }
    {
        rescale(self.0, 50, 25).map(Mv25)
    }

    // The same voltage in steps of 100 mV. None where no whole figure of 16 bits gives it.
    pub fn to_mv100(self) -> Option<Mv100>
        ensures { ConvertedToMv100 self.0 50 result }
    {
        rescale(self.0, 50, 100).map(Mv100)
    }
}

impl Mv100 {
    // The same voltage in steps of 20 mV. None where no whole figure of 16 bits gives it.
    pub fn to_mv20(self) -> Option<Mv20>
        ensures { ConvertedToMv20 self.0 100 result }
    {
        rescale(self.0, 100, 20).map(Mv20)
    }

    // The same voltage in steps of 25 mV. None where no whole figure of 16 bits gives it.
    pub fn to_mv25(self) -> Option<Mv25>
        ensures { ConvertedToMv25 self.0 100 result }
    {
        rescale(self.0, 100, 25).map(Mv25)
    }

    // The same voltage in steps of 50 mV. None where no whole figure of 16 bits gives it.
    pub fn to_mv50(self) -> Option<Mv50>
        ensures { ConvertedToMv50 self.0 100 result }
    {
        rescale(self.0, 100, 50).map(Mv50)
    }
}
