// The statements of a task, and what they name.
ghost use Rattle.std.specs.Prelude.{◌≡◌, ◌<◌, ◌≤◌, MatchOption};

use std::fmt;

pub mod arithmetic;

// One of at most N things of a kind, by its number in the order of their declarations. Seen as a number by a model it
// would be no plainer to use: an enum that holds a value with a model cannot be passed by value twice in proved code.
#[derive(Clone, Copy, PartialEq, Eq, Debug)]
pub struct Index<const N: u8> {
    number: u8,
    ghost known: { number < N },
}

impl<const N: u8> Index<N> {
    pub fn new(number: u8) -> Option<Index<N>>
        ensures { MatchOption result (N ≤ number) (λ i. i.number ≡ number) }
    {
        if number < N {
            Some(Index { number })
        } else {
            None
        }
    }

    pub fn number(self) -> u8
        ensures { result ≡ self.entry.number }
    {
        self.number
    }
}

// A word that lasts from visit to visit.
pub type Variable = Index<48>;

// A word that is 0 at the start of each visit.
pub type Local = Index<8>;

// A word of the visit's row.
pub type Input = Index<8>;

// A task of the program.
pub type Task = Index<16>;

// How many statements a skip passes over. No model, for the reason at `Index`.
#[derive(Clone, Copy, PartialEq, Eq, Debug)]
pub struct Reach {
    count: u8,
    ghost near: { (0 < count) × (count ≤ 15) },
}

impl Reach {
    pub fn new(count: u8) -> Option<Reach>
        ensures { MatchOption result ((0 < count → count ≤ 15 → ⊥)) (λ o. o.count ≡ count) }
    {
        if (1..=15).contains(&count) {
            Some(Reach { count })
        } else {
            None
        }
    }

    pub fn count(self) -> u8
        ensures { result ≡ self.count }
    {
        self.count
    }
}

#[derive(Clone, Copy, PartialEq, Eq, Debug)]
pub enum Operand {
    Number(u16),
    Variable(Variable),
    Local(Local),
    Input(Input),
}

#[derive(Clone, Copy, PartialEq, Eq, Debug)]
pub enum Operator {
    Plus,
    Minus,
    And,
    Or,
    Xor,
    Quotient,
    Remainder,
}

#[derive(Clone, Copy, PartialEq, Eq, Debug)]
pub enum Comparison {
    Equal,
    Less,
}

// A comparison of two operands, which holds or not.
#[derive(Clone, Copy, PartialEq, Eq, Debug)]
pub struct Test {
    pub left: Operand,
    pub comparison: Comparison,
    pub right: Operand,
}

// What a set alters.
#[derive(Clone, Copy, PartialEq, Eq, Debug)]
pub enum Target {
    Variable(Variable),
    Local(Local),
}

// The operand that reads what a set alters.
impl From<Target> for Operand {
    ghost use Rattle.program.specs.Runs.{reading};

    ghost from_gives = { λ target operand. operand ≡ reading target };

    fn from(target: Target) -> Operand {
        match target {
            Target::Variable(variable) => Operand::Variable(variable),
            Target::Local(local) => Operand::Local(local),
        }
    }
}

// `Next`, `Choose` and `Stop` are endings: each says which task comes at the next visit.
#[derive(Clone, Copy, PartialEq, Eq, Default, Debug)]
pub enum Statement {
    // what fills a table where no statement stands
    #[default]
    Stop,
    Set {
        target: Target,
        left: Operand,
        operator: Operator,
        right: Operand,
    },
    Emit(Operand),
    Skip {
        reach: Reach,
        test: Test,
    },
    Next(Task),
    Choose {
        test: Test,
        then: Task,
        otherwise: Task,
    },
}

// What comes at the next visit: a task, or nothing after a stop. No `Option<Task>`, whose `None` would not say that the
// program has stopped and could not be told as a word by `From`.
#[derive(Clone, Copy, PartialEq, Eq, Debug)]
pub enum Next {
    Task(Task),
    Stopped,
}

// As a word: the task's number, or 16 after a stop.
impl From<Next> for u16 {
    ghost use Rattle.program.specs.Runs.{next_word};

    ghost from_gives = { λ next word. word ≡ next_word next };

    fn from(next: Next) -> u16 {
        match next {
            Next::Task(task) => task.number() as u16,
            Next::Stopped => 16,
        }
    }
}

impl fmt::Display for Operator {
    ghost use Rattle.program.specs.Signs.{operator_sign};
    ghost use Rattle.std.specs.Prelude.{Some};

    ghost output = { λ o. Some (operator_sign o) };

    fn fmt<W: fmt::Write>(&self, f: &mut fmt::Formatter<W>) -> fmt::Result {
        f.write_str(match self {
            Operator::Plus => "+",
            Operator::Minus => "-",
            Operator::And => "&",
            Operator::Or => "|",
            Operator::Xor => "^",
            Operator::Quotient => "/",
            Operator::Remainder => "%",
        })
    }
}

impl fmt::Display for Comparison {
    ghost use Rattle.program.specs.Signs.{comparison_sign};
    ghost use Rattle.std.specs.Prelude.{Some};

    ghost output = { λ o. Some (comparison_sign o) };

    fn fmt<W: fmt::Write>(&self, f: &mut fmt::Formatter<W>) -> fmt::Result {
        f.write_str(match self {
            Comparison::Equal => "=",
            Comparison::Less => "<",
        })
    }
}
