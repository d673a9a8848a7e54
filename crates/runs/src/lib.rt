//! What a macro's run does: one step of an edge, and driving a path.

#![tactic(auto)]

pub mod drives;
pub mod halts;
pub mod steps;
