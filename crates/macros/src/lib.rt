//! What a macro is, where the fields of its file lie, and how a refusal tells what is wrong with one.

#![tactic(auto)]

pub mod faults;
pub mod form;
pub mod layout;
pub mod parts;
