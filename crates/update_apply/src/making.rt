// The changes of an update, made one after the other.
ghost use Rattle.update_apply.specs.Making.{parts_after, parts_after_change};
ghost use Rattle.update_reader.specs.Faults.{Gives};

use crate::deeds::take;
use crate::draft::Draft;
use std::alloc::Global;
use update_reader::{Change, UpdateFault};

/// Makes a change. Where the answer is a fault the draft is to be given up.
fn make(alloc: Global, draft: &mut Draft, change: &Change) -> Result<(), UpdateFault>
    ensures { Gives (λ _. draft.new) result (parts_after_change change.now draft.old) }
{
    match change {
        Change::OfIsolated(deed) => take(alloc, &mut draft.isolated, deed),
        Change::OfConnected(deed) => take(alloc, &mut draft.connected, deed),
        Change::OfEdges(deed) => take(alloc, &mut draft.edges, deed),
        Change::OfFeatures(deed) => take(alloc, &mut draft.features, deed),
    }
}

/// Makes changes in their order, up to the first that has a fault. Then the draft is to be given up.
pub(crate) fn make_all(
    alloc: Global,
    draft: &mut Draft,
    changes: &[Change],
) -> Result<(), UpdateFault>
    ensures { Gives (λ _. draft.new) result (parts_after changes.now draft.old) }
{
    for change in changes {
        make(alloc, draft, change)?;
    }
    Ok(())
}
