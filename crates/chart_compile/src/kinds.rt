// The features of a chart, kind by kind.
ghost use Rattle.chart_compile.specs.Topology.{arcs_in, faces_in, levels_in};
ghost use Rattle.built_parts.specs.Numbered.{AreNumbered};
ghost use Rattle.built_parts.specs.Order.{AreFeatures};
ghost use Rattle.std.specs.Prelude.{◌^◌, ◌≤◌, IfOk, length};

use crate::areas::add_areas;
use crate::contours::add_contours;
use crate::coverage::add_coverage_and_quality;
use crate::extent::Extent;
use crate::features::Features;
use crate::soundings::add_soundings;
use crate::topology::Topology;
use chart_model::Feature;
use rule_sheet::Sheet;
use std::alloc::{AllocError, Global};

/// The features of a chart, in the order of their kinds; the last ones are the soundings at so many isolated nodes.
pub(crate) fn features_of(
    alloc: Global,
    topology: &Topology,
    extent: Extent,
    sheet: &Sheet,
    nodes: usize,
) -> Result<Vec<Feature>, AllocError>
    requires { nodes ≤ 2 ^ 20 }
    ensures features { IfOk result (λ v. AreFeatures (levels_in topology.now) sheet.now.catzoc extent.least extent.greatest (faces_in topology.now) (arcs_in topology.now) topology.now.blocks nodes v.items) }
    ensures few { IfOk result (λ v. length v.items ≤ 2 ^ 31) }
    ensures numbered { IfOk result (λ v. AreNumbered sheet.now.agency v.items) }
{
    let mut features = Features {
        agency: sheet.agency,
        list: Vec::new(alloc),
    };
    add_coverage_and_quality(alloc, topology, sheet.catzoc, &mut features)?;
    add_areas(alloc, topology, extent, &mut features)?;
    add_contours(alloc, topology, &mut features)?;
    add_soundings(alloc, nodes, &mut features)?;
    Ok(features.list)
}
