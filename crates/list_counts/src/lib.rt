//! How often a number stands in a list: the word that chains, rings and edges are counted with, and what holds of it.
//! There is no code here.
#![tactic(auto)]
