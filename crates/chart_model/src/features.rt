// What a feature is, and its attributes by their codes.
ghost use Rattle.chart_model.specs.Areas.{is_area};
ghost use Rattle.std.specs.Option.{option_copied};
ghost use Rattle.std.specs.Prelude.{◌≡◌, ◌==◌, find};

use crate::{Attribute, Feature};
use s57_codes::code::{AREA, SKIN};

impl Feature {
    /// Whether it is an area of group 1, the skin of the earth (product specification 2.0 for electronic navigational charts,
    /// 3.10.1): its PRIM is 3 and its GRUP is 1.
    pub fn is_area(&self) -> bool
        ensures { result ≡ is_area self.now }
    {
        self.prim == AREA && self.grup == SKIN
    }

    /// The first of its attributes that has a code (ATTL), if there is one.
    pub fn first(&self, code: u16) -> Option<&Attribute>
        ensures { option_copied result ≡ find (λ a. a.code == code) self.now.attributes }
    {
        self.attributes.as_slice().iter().find(|a| a.code == code)
    }
}
