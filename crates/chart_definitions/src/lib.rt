//! What a chart says, what makes it the chart of a grid and a sheet, and what such a chart promises: definitions. They
//! speak of the parts of a chart and of plain views of the grid and the sheet, so that each crate above can cite them.
#![tactic(auto)]

ghost use Rattle.chart_definitions.specs.Laws.{KindsDiffer, OneRange};

/// A depth area tells one range of depths, and is no unsurveyed area. This call does nothing: its clauses are laws of
/// the definitions.
pub fn area_ranges()
    ensures range { OneRange }
    ensures kinds { KindsDiffer }
{
    exact_num::decimetres_differ();
}
