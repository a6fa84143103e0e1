//! The law of cells.
#![tactic(auto)]

ghost use Rattle.cell_laws.specs.Again.{ReadsAgain};

/// The cell that a chart is written as stands for that chart. This call does nothing: its clause is a law of the
/// definitions of cell_writer and cell_reader.
pub fn cell_laws()
    ensures { ReadsAgain }
{
    iso8211_codec::record_laws();
    s57_records::field_laws();
    chart_model::whole_laws();
}
