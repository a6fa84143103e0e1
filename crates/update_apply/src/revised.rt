// Records that updates change.
ghost use Rattle.std.specs.Prelude.{◌≡◌, ℕ, IfOk, Result};
ghost use Rattle.record_edits.specs.Edits.{connected_after, edge_after, feature_after, isolated_after};
ghost use Rattle.s57_codes.specs.Catalogue.{rcnm_connected_node, rcnm_edge, rcnm_feature, rcnm_isolated_node};
ghost use Rattle.update_reader.specs.Faults.{Gives};
ghost use Rattle.update_reader.specs.declared.change.Edit.{Edit};
ghost use Rattle.update_reader.specs.declared.fault.UpdateFault.{UpdateFault};

use chart_model::{Connected, Edge, Feature, Isolated};
use record_edits::{
    copied_edge, copied_feature, copied_isolated, edited_connected, edited_edge, edited_feature,
    edited_isolated,
};
use record_table::Numbered;
use s57_codes::code::{CONNECTED_NODE, EDGE, FEATURE, ISOLATED_NODE};
use std::alloc::{AllocError, Global};
use update_reader::{Edit, UpdateFault};

/// A kind of records that updates insert, delete and modify.
pub(crate) trait Revised: Numbered {
    ghost rcnm: { ℕ };

    ghost version: { Self → ℕ };

    ghost edited: { ℕ → Edit → Self → Result Self UpdateFault };

    /// RCNM of the kind.
    fn rcnm() -> u8
        ensures { result ≡ rcnm };

    /// The record's version (RVER).
    fn version(&self) -> u16
        ensures { result ≡ version self.now };

    /// What a modification to a version makes of the record.
    fn edited(&self, alloc: Global, rver: u16, edit: &Edit) -> Result<Self, UpdateFault>
        ensures gives { Gives (λ x. x) result (edited rver edit.now self.now) }
        ensures number { IfOk result (λ x. Self.number x ≡ Self.number self.now) };

    /// A record of its own that says the same.
    fn copied(&self, alloc: Global) -> Result<Self, AllocError>
        ensures { IfOk result (λ x. x ≡ self.now) };
}

impl Revised for Isolated {
    ghost rcnm = { rcnm_isolated_node };

    ghost version = { λ n. n.rver };

    ghost edited = { isolated_after };

    fn rcnm() -> u8 {
        ISOLATED_NODE
    }

    fn version(&self) -> u16 {
        self.rver
    }

    fn edited(&self, alloc: Global, rver: u16, edit: &Edit) -> Result<Isolated, UpdateFault> {
        edited_isolated(alloc, self, rver, edit)
    }

    fn copied(&self, alloc: Global) -> Result<Isolated, AllocError> {
        copied_isolated(alloc, self)
    }
}

impl Revised for Connected {
    ghost rcnm = { rcnm_connected_node };

    ghost version = { λ n. n.rver };

    ghost edited = { connected_after };

    fn rcnm() -> u8 {
        CONNECTED_NODE
    }

    fn version(&self) -> u16 {
        self.rver
    }

    fn edited(&self, _alloc: Global, rver: u16, edit: &Edit) -> Result<Connected, UpdateFault> {
        edited_connected(self, rver, edit)
    }

    fn copied(&self, _alloc: Global) -> Result<Connected, AllocError> {
        Ok(*self)
    }
}

impl Revised for Edge {
    ghost rcnm = { rcnm_edge };

    ghost version = { λ e. e.rver };

    ghost edited = { edge_after };

    fn rcnm() -> u8 {
        EDGE
    }

    fn version(&self) -> u16 {
        self.rver
    }

    fn edited(&self, alloc: Global, rver: u16, edit: &Edit) -> Result<Edge, UpdateFault> {
        edited_edge(alloc, self, rver, edit)
    }

    fn copied(&self, alloc: Global) -> Result<Edge, AllocError> {
        copied_edge(alloc, self)
    }
}

impl Revised for Feature {
    ghost rcnm = { rcnm_feature };

    ghost version = { λ f. f.rver };

    ghost edited = { feature_after };

    fn rcnm() -> u8 {
        FEATURE
    }

    fn version(&self) -> u16 {
        self.rver
    }

    fn edited(&self, alloc: Global, rver: u16, edit: &Edit) -> Result<Feature, UpdateFault> {
        edited_feature(alloc, self, rver, edit)
    }

    fn copied(&self, alloc: Global) -> Result<Feature, AllocError> {
        copied_feature(alloc, self)
    }
}
