// A chart while an update changes it.
ghost use Rattle.std.specs.Prelude.{◌≡◌, ◌≢◌, AllPairs, IfOk, map};
ghost use Rattle.update_apply.specs.Applied.{with_issue};
ghost use Rattle.update_apply.specs.Law.{HasOnce};

use crate::revised::Revised;
use chart_model::{Connected, Edge, Feature, Header, Isolated, Items, Parts};
use record_edits::{copied_header, copied_items};
use record_table::Table;
use std::alloc::{AllocError, Global};
use std::marker::Model;
use update_reader::Issue;

/// The parts of a chart, with tables in place of the lists.
#[derive(Drop)]
pub(crate) struct Draft {
    pub header: Header,
    pub isolated: Table<Isolated>,
    pub connected: Table<Connected>,
    pub edges: Table<Edge>,
    pub features: Table<Feature>,
}

impl Model for Draft {
    ghost use Rattle.chart_model.specs.declared.records.Parts.{Parts};

    ghost Value = { Parts };

    ghost view = { λ s. record {
      header = s.header;
      isolated = s.isolated;
      connected = s.connected;
      edges = s.edges;
      features = s.features;
    } };
}

fn copies<X: Revised>(alloc: Global, records: &[X]) -> Result<Vec<X>, AllocError>
    ensures { IfOk result (λ v. v.items ≡ records.now) }
{
    let mut copies = Vec::with_capacity(alloc, records.len())?;
    for record in records {
        let copy = record.copied(alloc)?;
        copies.push(copy)?;
    }
    Ok(copies)
}

/// A table of copies of records.
fn tabled<X: Revised>(alloc: Global, records: &[X]) -> Result<Table<X>, AllocError>
    requires { AllPairs ◌≢◌ (map X.number records.now) }
    ensures { IfOk result (λ t. t ≡ records.now) }
{
    let copies = copies(alloc, records)?;
    Table::new(alloc, copies)
}

/// A chart's header with the number and the dates of an update.
fn header_with(alloc: Global, header: &Header, issue: &Issue) -> Result<Header, AllocError>
    ensures { IfOk result (λ h. h ≡ record header.now { updn = issue.now.updn; uadt = issue.now.uadt; isdt = issue.now.isdt }) }
{
    let mut header = copied_header(alloc, header)?;
    header.updn = copied_items(alloc, &issue.updn)?;
    let uadt = issue.uadt;
    let isdt = issue.isdt;
    header.uadt = uadt;
    header.isdt = isdt;
    Ok(header)
}

impl Draft {
    /// A copy of a chart's parts, with the number and the dates of an update.
    pub fn new(alloc: Global, base: &Parts, issue: &Issue) -> Result<Draft, AllocError>
        requires { HasOnce base.now }
        ensures { IfOk result (λ draft. draft ≡ with_issue issue.now base.now) }
    {
        let header = header_with(alloc, &base.header, issue)?;
        let isolated = tabled(alloc, base.isolated.as_slice())?;
        let connected = tabled(alloc, base.connected.as_slice())?;
        let edges = tabled(alloc, base.edges.as_slice())?;
        let features = tabled(alloc, base.features.as_slice())?;
        Ok(Draft {
            header,
            isolated,
            connected,
            edges,
            features,
        })
    }

    /// The parts as lists.
    pub fn into_parts(self, alloc: Global) -> Result<Parts, AllocError>
        ensures { IfOk result (λ parts. parts ≡ self) }
    {
        let header = self.header;
        let isolated = self.isolated.into_records(alloc)?;
        let connected = self.connected.into_records(alloc)?;
        let edges = self.edges.into_records(alloc)?;
        let features = self.features.into_records(alloc)?;
        Ok(Parts {
            header,
            isolated: Items::over(isolated),
            connected: Items::over(connected),
            edges: Items::over(edges),
            features: Items::over(features),
        })
    }
}
