//! What the words of the command line ask for, or why they ask for nothing.

#![tactic(auto)]

pub mod command;
pub mod misuse;
