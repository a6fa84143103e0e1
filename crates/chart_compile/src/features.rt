// Features on the way to a chart.
ghost use Rattle.built_parts.specs.Contents.{Adds};
ghost use Rattle.built_parts.specs.Numbered.{AreNumbered};
ghost use Rattle.std.specs.Prelude.{◌≡◌, ◌^◌, ◌<◌, ◌∷◌, [], OnOk, length};

use chart_model::{Attribute, Feature, Items, Pointer};
use std::alloc::AllocError;

/// GRUP of the features that aren't of the skin of the earth: group 2.
pub(crate) const NOT_SKIN: u8 = 2;

/// What a feature is: its PRIM, GRUP and object code.
#[derive(Clone, Copy)]
pub(crate) struct Kind {
    pub prim: u8,
    pub grup: u8,
    pub objl: u16,
}

/// The features so far, each numbered by its place and named by its agency.
#[derive(Drop)]
pub(crate) struct Features {
    pub agency: u16,
    pub list: Vec<Feature>,
    pub ghost numbered: { AreNumbered agency list.items },
}

impl Features {
    /// Adds a feature of the next number.
    pub(crate) fn add(
        &mut self,
        kind: Kind,
        attributes: Vec<Attribute>,
        pointers: Vec<Pointer>,
    ) -> Result<(), AllocError>
        requires { length self.old.list.items < 2 ^ 31 }
        ensures added { OnOk result (Adds (record { prim = kind.prim; grup = kind.grup; objl = kind.objl; attributes = attributes.items; pointers = pointers.items } ∷ []) self.old.list.items self.new.list.items) }
        ensures same { self.new.agency ≡ self.old.agency }
    {
        let number = self.list.len() as u32 + 1;
        self.list.push(Feature {
            rcid: number,
            rver: 1,
            prim: kind.prim,
            grup: kind.grup,
            objl: kind.objl,
            agen: self.agency,
            fidn: number,
            fids: 1,
            attributes: Items::over(attributes),
            pointers: Items::over(pointers),
        })?;
        Ok(())
    }
}
