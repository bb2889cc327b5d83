// A program in the making: one table of statements, and for each task where its statements stand in it.
ghost use Rattle.std.specs.Prelude.{◌≡◌, ◌≤◌, length};
ghost use Rattle.words.specs.Lists.{items};
ghost use Rattle.program.specs.Spans.{LieBehind, LieBehind-prop};

use crate::span::Span;
use crate::statement::Statement;
use words::list::{Short, Words};

pub mod build;
mod read;

#[derive(Clone, Copy)]
pub struct Draft {
    statements: Short<Statement, 256>,
    spans: Short<Span, 16>,
    locals: u8,
    firsts: Words<48>,
    ghost few: { locals ≤ 8 },
    ghost laid: { LieBehind 0 (items spans) (length (items statements)) } by { LieBehind-prop 0 (items spans) (length (items statements)) },
}
