// What the records that were read give.
ghost use Rattle.std.specs.Prelude.{◌≡◌};
ghost use Rattle.cell_reader.specs.Records.{nothing};
ghost use Rattle.cell_reader.specs.Views.{contents_of};

use crate::header::Identity;
use chart_model::{Connected, Edge, Feature, Isolated};
use s57_records::Dspm;
use std::alloc::Global;

/// What the records of a file give, up to the one that was read last.
#[derive(Drop)]
pub(crate) struct Gathered<'a> {
    pub identity: Option<Identity<'a>>,
    pub units: Option<Dspm<'a>>,
    pub isolated: Vec<Isolated>,
    pub connected: Vec<Connected>,
    pub edges: Vec<Edge>,
    pub features: Vec<Feature>,
}

impl<'a> Gathered<'a> {
    pub(crate) fn new(alloc: Global) -> Gathered<'a>
        ensures { contents_of result ≡ nothing }
    {
        Gathered {
            identity: None,
            units: None,
            isolated: Vec::new(alloc),
            connected: Vec::new(alloc),
            edges: Vec::new(alloc),
            features: Vec::new(alloc),
        }
    }
}
