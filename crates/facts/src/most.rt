// The kind of facts that counts the most emits on a path, and the most sets of variables that are not logged.
ghost use Rattle.facts.specs.Most.{counted, larger, no_counts};
ghost use Rattle.facts.specs.Sets.{has};
ghost use Rattle.facts.specs.MostLaws.{counted_distributes, larger_associative, larger_commutative, larger_idempotent};

use crate::kind::Kind;
use crate::set::VariableSet;
use program::statement::{Statement, Target};

// The most emits on a path, and the most sets of variables that are not logged.
#[derive(Clone, Copy, PartialEq, Eq, Debug)]
pub struct Counts {
    pub emits: u8,
    pub direct: u8,
}

// The kind of such facts. What is logged is the task's own, or any set.
#[derive(Clone, Copy, PartialEq, Eq, Debug)]
pub struct Most {
    pub logged: VariableSet,
}

impl Kind for Most {
    type Fact = Counts;

    ghost start = { λ _. no_counts };

    ghost effect = { λ k. counted (has k.logged) };

    ghost join = { λ _. larger };

    ghost associative = { λ _. larger_associative };

    ghost commutative = { λ _. larger_commutative };

    ghost idempotent = { λ _. larger_idempotent };

    ghost distributes = { λ k. counted_distributes (has k.logged) };

    fn start(&self) -> Counts {
        Counts {
            emits: 0,
            direct: 0,
        }
    }

    fn effect(&self, statement: Statement, fact: Counts) -> Counts {
        match statement {
            Statement::Emit(_) => Counts {
                emits: fact.emits.saturating_add(1),
                ..fact
            },
            Statement::Set {
                target: Target::Variable(variable),
                ..
            } if !self.logged.contains(variable) => Counts {
                direct: fact.direct.saturating_add(1),
                ..fact
            },
            _ => fact,
        }
    }

    fn join(&self, one: Counts, other: Counts) -> Counts {
        Counts {
            emits: one.emits.max(other.emits),
            direct: one.direct.max(other.direct),
        }
    }
}
