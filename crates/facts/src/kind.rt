// What a fact kind is.
ghost use Rattle.std.specs.Prelude.{◌≡◌};
ghost use Rattle.program.specs.declared.statement.Statement.{Statement};

use program::statement::Statement;

// A kind is a value, which holds what its facts rest on besides the statements.
pub trait Kind {
    type Fact: Copy;

    // The fact before the first statement.
    ghost start: { Self → Self.Fact };

    // The fact after a statement, from the fact before it.
    ghost effect: { Self → Statement → Self.Fact → Self.Fact };

    // The fact where two paths meet.
    ghost join: { Self → Self.Fact → Self.Fact → Self.Fact };

    fn start(&self) -> Self::Fact
        ensures { result ≡ start self.now };

    fn effect(&self, statement: Statement, fact: Self::Fact) -> Self::Fact
        ensures { result ≡ effect self.now statement fact };

    fn join(&self, one: Self::Fact, other: Self::Fact) -> Self::Fact
        ensures { result ≡ join self.now one other };

    // The laws of the join.
    ghost associative: { (k : Self) (a b c : Self.Fact) → join k (join k a b) c ≡ join k a (join k b c) };

    ghost commutative: { (k : Self) (a b : Self.Fact) → join k a b ≡ join k b a };

    ghost idempotent: { (k : Self) (a : Self.Fact) → join k a a ≡ a };

    // The law of the effects.
    ghost distributes: { (k : Self) (s : Statement) (a b : Self.Fact) → effect k s (join k a b) ≡ join k (effect k s a) (effect k s b) };
}
