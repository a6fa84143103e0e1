// The groups of a vector record.
ghost use Rattle.std.specs.Prelude.{◌≡◌, OnOk};
ghost use Rattle.record_values.specs.Groups.{points, soundings, ends};
ghost use Rattle.record_values.specs.Views.{views};

use crate::groups::list_groups;
use chart_model::Sounding;
use iso8211_codec::Field;
use plane_geom::Point;
use s57_codes::tag::{SG2D, SG3D, VRPT};
use s57_records::Vrpt;
use std::alloc::{AllocError, Global};

/// The points, soundings and pointers of a vector record, in lists that are used again for the next.
#[derive(Drop)]
pub struct VectorGroups {
    pub points: Vec<Point>,
    pub soundings: Vec<Sounding>,
    pub ends: Vec<Vrpt>,
}

impl VectorGroups {
    /// Lists of nothing, which take no memory.
    pub fn new(alloc: Global) -> VectorGroups {
        VectorGroups {
            points: Vec::new(alloc),
            soundings: Vec::new(alloc),
            ends: Vec::new(alloc),
        }
    }

    /// Replaces these by the groups of a record's fields SG2D, SG3D and VRPT.
    pub fn list(&mut self, fields: &[Field<'_>]) -> Result<(), AllocError>
        ensures points { OnOk result (self.new.points.items ≡ points (views fields.now)) }
        ensures soundings { OnOk result (self.new.soundings.items ≡ soundings (views fields.now)) }
        ensures ends { OnOk result (self.new.ends.items ≡ ends (views fields.now)) }
    {
        list_groups(fields, SG2D, 8, &mut self.points)?;
        list_groups(fields, SG3D, 12, &mut self.soundings)?;
        list_groups(fields, VRPT, 9, &mut self.ends)
    }
}
