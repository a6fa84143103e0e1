// The records of a chart by their numbers (RCID). They stand here since an impl has to stand with its trait or its type.
use crate::Numbered;
use chart_model::{Connected, Edge, Feature, Isolated};

impl Numbered for Isolated {
    ghost number = { λ n. n.rcid };

    fn number(&self) -> u32 {
        self.rcid
    }
}

impl Numbered for Connected {
    ghost number = { λ n. n.rcid };

    fn number(&self) -> u32 {
        self.rcid
    }
}

impl Numbered for Edge {
    ghost number = { λ e. e.rcid };

    fn number(&self) -> u32 {
        self.rcid
    }
}

impl Numbered for Feature {
    ghost number = { λ f. f.rcid };

    fn number(&self) -> u32 {
        self.rcid
    }
}
