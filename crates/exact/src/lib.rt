//! The kind exact: a value is one known number, or it is not known.

#![tactic(auto)]

ghost use Rattle.exact.specs.Exact.{exact_ops};
ghost use Rattle.kinds.specs.Kind.{Simple};

pub mod kind;
pub mod value;

/// Has no work to do: its contract states that the kind has a code number from 1 to 14 and a W of at least 2.
pub fn exact_is_simple()
    ensures { Simple exact_ops }
{}
