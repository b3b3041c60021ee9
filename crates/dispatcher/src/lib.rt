// The dispatcher: whole runs on lent blocks, each from its start on.
#![tactic(auto)]

mod passes;
pub mod play;
