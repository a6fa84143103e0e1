//! The parts that are made of a grid and a sheet: they are the chart of the two, they keep the conditions of a chart, and
//! they have no fault. Laws over the definitions alone: each function's contract is a law, and it does nothing.
#![tactic(auto)]

ghost use Rattle.parts_laws.specs.ChartOf.{MadeIsChartOf};
ghost use Rattle.parts_laws.specs.Faultless.{MadePartsAreFaultless};
ghost use Rattle.parts_laws.specs.WellFormed.{MadePartsAreFormed};

use mesh_laws::{face_laws, piece_laws};

/// The parts that are made of a grid and a sheet are the chart of that grid and that sheet: they have its edges, areas,
/// coverage, contours, soundings, pointers and all the rest.
pub fn made_parts_are_the_chart()
    ensures chart { MadeIsChartOf }
{
    face_laws();
    piece_laws();
}

/// The parts made of a grid and a sheet keep the conditions of a chart: no text has the byte that ends one, each isolated
/// node has a sounding, and each feature has a pointer and only such as its PRIM wants.
pub fn made_parts_are_well_formed()
    ensures formed { MadePartsAreFormed }
{
    piece_laws();
    face_laws();
}

/// The parts made of a grid and a sheet are free of the faults that a chart may not have: no number stands twice in a list of
/// one kind, every pointer names a record that is there, and every area closes.
pub fn made_parts_are_faultless()
    ensures faultless { MadePartsAreFaultless }
{}
