//! The forms of an edge, and their numbers in a file.
ghost use Rattle.macros.specs.Forms.{form_number, form_of};
ghost use Rattle.std.specs.Prelude.{◌≡◌};

use crate::parts::{Arithmetic, Comparison};

/// Which operation an edge has, as far as its form field tells.
#[derive(Clone, Copy, Debug, PartialEq, Eq)]
pub enum Form {
    Set,
    Compute(Arithmetic),
    Read,
    Test(Comparison),
}

/// The forms in the order of their numbers, from 0 on.
const FORMS: [Form; 12] = [
    Form::Set,
    Form::Compute(Arithmetic::Add),
    Form::Compute(Arithmetic::Subtract),
    Form::Compute(Arithmetic::Multiply),
    Form::Compute(Arithmetic::Remainder),
    Form::Read,
    Form::Test(Comparison::Equal),
    Form::Test(Comparison::NotEqual),
    Form::Test(Comparison::Less),
    Form::Test(Comparison::AtMost),
    Form::Test(Comparison::Greater),
    Form::Test(Comparison::AtLeast),
];

/// A number that no form has.
#[derive(Clone, Copy, Debug, PartialEq, Eq)]
pub struct NoSuchForm {
    pub number: u32,
}

impl TryFrom<u32> for Form {
    type Error = NoSuchForm;

    ghost try_from_gives = { λ n r. r ≡ form_of n };

    fn try_from(number: u32) -> Result<Form, NoSuchForm> {
        FORMS
            .get(number as usize)
            .copied()
            .ok_or(NoSuchForm { number })
    }
}

impl From<Form> for u32 {
    ghost from_gives = { λ f r. r ≡ form_number f };

    fn from(form: Form) -> u32 {
        match form {
            Form::Set => 0,
            Form::Compute(Arithmetic::Add) => 1,
            Form::Compute(Arithmetic::Subtract) => 2,
            Form::Compute(Arithmetic::Multiply) => 3,
            Form::Compute(Arithmetic::Remainder) => 4,
            Form::Read => 5,
            Form::Test(Comparison::Equal) => 6,
            Form::Test(Comparison::NotEqual) => 7,
            Form::Test(Comparison::Less) => 8,
            Form::Test(Comparison::AtMost) => 9,
            Form::Test(Comparison::Greater) => 10,
            Form::Test(Comparison::AtLeast) => 11,
        }
    }
}
