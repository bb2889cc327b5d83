// What operators and comparisons come to.
ghost use Rattle.std.specs.Prelude.{◌≡◌};
ghost use Rattle.program.specs.Runs.{result_of, compares};

use crate::statement::{Comparison, Operator};

impl Operator {
    // Sum and difference wrap; a divisor 0 gives 0.
    pub fn result(self, left: u16, right: u16) -> u16
        ensures { result ≡ result_of self left right }
    {
        match self {
            Operator::Plus => left.wrapping_add(right),
            Operator::Minus => left.wrapping_sub(right),
            Operator::And => left & right,
            Operator::Or => left | right,
            Operator::Xor => left ^ right,
            Operator::Quotient => left.checked_div(right).unwrap_or(0),
            Operator::Remainder => left.checked_rem(right).unwrap_or(0),
        }
    }
}

impl Comparison {
    pub fn compares(self, left: u16, right: u16) -> bool
        ensures { result ≡ compares self left right }
    {
        match self {
            Comparison::Equal => left == right,
            Comparison::Less => left < right,
        }
    }
}
