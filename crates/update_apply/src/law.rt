// The laws of charts after updates, as contracts of a function.
ghost use Rattle.update_apply.specs.Law.{KeepsOnce, LeavesOthers};

/// Records that no change of an update names stay as they are and in their order, and no number comes to stand twice. This
/// call does nothing: its clauses are laws of the definitions.
pub fn update_laws()
    ensures others { LeavesOthers }
    ensures once { KeepsOnce }
{
    record_edits::edit_laws();
}
