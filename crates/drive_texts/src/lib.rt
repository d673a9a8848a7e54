//! What people read of a drive: its steps in lines, and why it halts.

#![tactic(auto)]

pub mod halts;
pub mod lines;
