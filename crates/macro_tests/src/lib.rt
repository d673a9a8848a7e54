//! Tests of reading and packing on examples: one for each field that can be refused, and the longest macro.
//! They stand in a crate of their own, since a crate with tests is proved twice.

#![tactic(auto)]

#[cfg(test)]
mod packs;
#[cfg(test)]
mod reads;
