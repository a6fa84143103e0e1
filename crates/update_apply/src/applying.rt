// An update applied to a chart.
ghost use Rattle.std.specs.Prelude.{◌≡◌, ◌<◌, ◌≤◌, ◌^◌, All, IfOk, IsTrue, length, true};
ghost use Rattle.cell_writer.specs.Layout.{fits_of};
ghost use Rattle.chart_model.specs.Whole.{IsText, IsWellFormed};
ghost use Rattle.update_apply.specs.Applied.{apply_of, chart_after, chart_of, first_cause, none_due};
ghost use Rattle.update_apply.specs.Law.{HasOnce};
ghost use Rattle.update_apply.specs.Making.{parts_after};
ghost use Rattle.update_reader.specs.Faults.{Gives};
ghost use Rattle.update_reader.specs.Sound.{IsSoundChange};

use crate::draft::Draft;
use crate::law::update_laws;
use crate::making::make_all;
use crate::sequence::is_next;
use cell_writer::fits;
use chart_model::{Chart, Parts, whole_laws};
use record_edits::edit_laws;
use std::alloc::Global;
use update_reader::{Update, UpdateFault, read_update};

/// A chart of parts in which no number stands twice, or the first of `Lost` and `Unclosed` that is due.
fn whole_chart(alloc: Global, parts: Parts) -> Result<Chart, UpdateFault>
    requires formed { IsWellFormed parts }
    requires once { HasOnce parts }
    ensures due { Gives (λ _. true) result (none_due (first_cause parts)) }
    ensures same { IfOk result (λ c. c ≡ parts) }
{
    whole_laws();
    Ok(Chart::new(alloc, parts)?)
}

/// The chart of a draft in which no number stands twice, or the first of `Lost`, `Unclosed` and `Large` that is due.
fn finished(alloc: Global, draft: Draft) -> Result<Chart, UpdateFault>
    requires formed { IsWellFormed draft }
    requires once { HasOnce draft }
    ensures gives { Gives (λ c. c) result (chart_of draft) }
    ensures fits { IfOk result (λ c. IsTrue (fits_of c)) }
{
    let parts = draft.into_parts(alloc)?;
    let chart = whole_chart(alloc, parts)?;
    if !fits(&chart) {
        return Err(UpdateFault::Large);
    }
    Ok(chart)
}

/// The chart that an update makes of a chart (S-57 Edition 3.1, Part 3, 8), or the first of the faults `Sequence` to
/// `Large`. The chart that it is made of stays as it is.
///
/// The update is to be the next one of the chart's edition. Its changes are made in their order. An inserted record goes to
/// the end of its list, a deleted one leaves no gap, a modified one keeps its place. The header keeps its values but for
/// UPDN, UADT and ISDT, which are those of the update.
///
/// It copies the chart, and then takes the time of a look-up and of the changed record for each change.
#[tactic(auto, unfolding(crate::specs::Applied::chart_after))]
pub fn change(alloc: Global, base: &Chart, update: &Update) -> Result<Chart, UpdateFault>
    requires isolated { length base.now.isolated < 2 ^ 31 }
    requires connected { length base.now.connected < 2 ^ 31 }
    requires edges { length base.now.edges < 2 ^ 31 }
    requires features { length base.now.features < 2 ^ 31 }
    requires few { length update.now.changes < 2 ^ 31 }
    requires text { IsText update.now.issue.updn }
    requires sound { All IsSoundChange update.now.changes }
    ensures gives { Gives (λ c. c) result (chart_after base.now update.now) }
    ensures fits { IfOk result (λ c. IsTrue (fits_of c)) }
{
    update_laws();
    edit_laws();
    let parts = base.parts();
    if !is_next(&parts.header, &update.issue) {
        return Err(UpdateFault::Sequence);
    }
    let mut draft = Draft::new(alloc, parts, &update.issue)?;
    make_all(alloc, &mut draft, update.changes.as_slice())?;
    finished(alloc, draft)
}

/// The chart that the bytes of an update file make of a chart, or the first fault: those of reading, then those of `change`.
#[tactic(auto, unfolding(crate::specs::Applied::apply_of))]
pub fn apply(alloc: Global, base: &Chart, bytes: &[u8]) -> Result<Chart, UpdateFault>
    requires isolated { length base.now.isolated < 2 ^ 31 }
    requires connected { length base.now.connected < 2 ^ 31 }
    requires edges { length base.now.edges < 2 ^ 31 }
    requires features { length base.now.features < 2 ^ 31 }
    requires size { length bytes.now ≤ 67108864 }
    ensures gives { Gives (λ c. c) result (apply_of base.now bytes.now) }
    ensures fits { IfOk result (λ c. IsTrue (fits_of c)) }
{
    let update = read_update(alloc, bytes)?;
    change(alloc, base, &update)
}
