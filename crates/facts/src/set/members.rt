// What is in a set, and the sets that others make.
ghost use Rattle.std.specs.Prelude.{◌≡◌, ◌<◌, ◌^◌};
ghost use Rattle.facts.specs.Sets.{difference, empty, has, intersection, of_bits, single, size, union};

use crate::set::VariableSet;
use program::statement::Variable;

impl VariableSet {
    // The set of the variables whose bits are 1.
    #[tactic(auto, using(crate::proofs::Sets::of_bits_bits, crate::proofs::Sets::same_bits))]
    fn of_bits(bits: u64) -> VariableSet
        requires { bits < 2 ^ 48 }
        ensures { result ≡ of_bits bits }
    {
        VariableSet { bits }
    }

    // The set without members.
    #[tactic(auto, unfolding(crate::specs::Sets::empty))]
    pub fn empty() -> VariableSet
        ensures { result ≡ empty }
    {
        VariableSet { bits: 0 }
    }

    // The set of one variable.
    #[tactic(auto, using(crate::proofs::Sets::of_bits_shifted, crate::proofs::Sets::shifted_known))]
    pub fn single(variable: Variable) -> VariableSet
        ensures { result ≡ single variable.number }
    {
        VariableSet::of_bits(1 << variable.number())
    }

    // Whether the variable is a member.
    #[tactic(auto, using(crate::proofs::Sets::tested))]
    pub fn contains(self, variable: Variable) -> bool
        ensures { result ≡ has self variable.number }
    {
        self.bits & (1 << variable.number()) != 0
    }

    // The variables of either set.
    #[tactic(auto, using(crate::proofs::Sets::of_bits_or, crate::proofs::Sets::or_known))]
    pub fn union(self, other: VariableSet) -> VariableSet
        ensures { result ≡ union self other }
    {
        VariableSet::of_bits(self.bits | other.bits)
    }

    // The variables of both sets.
    #[tactic(auto, using(crate::proofs::Sets::of_bits_and))]
    pub fn intersection(self, other: VariableSet) -> VariableSet
        ensures { result ≡ intersection self other }
    {
        VariableSet::of_bits(self.bits & other.bits)
    }

    // The variables of this set that are not of the other.
    #[tactic(auto, using(crate::proofs::Sets::of_bits_and_not))]
    pub fn difference(self, other: VariableSet) -> VariableSet
        ensures { result ≡ difference self other }
    {
        VariableSet::of_bits(self.bits & !other.bits)
    }

    // How many members it has.
    #[tactic(auto, using(crate::proofs::Sets::counted))]
    pub fn count(self) -> u8
        ensures { result ≡ size self }
    {
        self.bits.count_ones() as u8
    }
}

// The set without members.
impl Default for VariableSet {
    ghost is_default = { λ set. set ≡ empty };

    fn default() -> VariableSet {
        VariableSet::empty()
    }
}
