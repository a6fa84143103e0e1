//! The program's top call.
#![tactic(auto)]

mod cell_answers;
mod cell_lines;
mod commands;
mod endings;
mod factor;
mod files;
mod halt;
mod inputs;
mod leg_lines;
mod line_answers;
mod lines;
mod revisions;
mod status;
mod top;
mod update_lines;
mod words;

pub use status::Status;
pub use top::run;
