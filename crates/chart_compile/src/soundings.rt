// Soundings: a feature for each isolated node that has them.
ghost use Rattle.built_parts.specs.Contours.{sounding_content, sounding_contents};
ghost use Rattle.built_parts.specs.Contents.{Adds};
ghost use Rattle.std.specs.Prelude.{◌≡◌, ◌+◌, ◌^◌, ◌<◌, ◌≤◌, ◌∷◌, [], OnOk, length};

use crate::features::{Features, Kind, NOT_SKIN};
use crate::pointers::only_pointer;
use s57_codes::code::{ISOLATED_NODE, NULL, POINT, SOUNDG};
use std::alloc::{AllocError, Global};

// Adds the feature of the soundings at the isolated node at a place.
fn add_sounding(alloc: Global, k: usize, features: &mut Features) -> Result<(), AllocError>
    requires node { k < 2 ^ 20 }
    requires few { length features.old.list.items < 2 ^ 31 }
    ensures added { OnOk result (Adds (sounding_content k ∷ []) features.old.list.items features.new.list.items) }
    ensures same { features.new.agency ≡ features.old.agency }
{
    let kind = Kind {
        prim: POINT,
        grup: NOT_SKIN,
        objl: SOUNDG,
    };
    let pointers = only_pointer(alloc, ISOLATED_NODE, k as u32 + 1, NULL)?;
    features.add(kind, Vec::new(alloc), pointers)
}

/// Adds a feature for each node with soundings.
pub(crate) fn add_soundings(
    alloc: Global,
    nodes: usize,
    features: &mut Features,
) -> Result<(), AllocError>
    requires nodes { nodes ≤ 2 ^ 20 }
    requires few { length features.old.list.items ≤ 2 ^ 30 }
    ensures added { OnOk result (Adds (sounding_contents nodes) features.old.list.items features.new.list.items) }
    ensures grown { OnOk result (length features.new.list.items ≤ length features.old.list.items + nodes) }
    ensures same { features.new.agency ≡ features.old.agency }
{
    for k in 0..nodes {
        add_sounding(alloc, k, features)?;
    }
    Ok(())
}
