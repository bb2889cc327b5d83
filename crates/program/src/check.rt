// Whether a task is well formed among what its program declares.
ghost use Rattle.std.specs.Prelude.{◌≡◌, ◌≤◌, ◌&&◌, length, nat_lt};
ghost use Rattle.program.specs.Sound.{all_placed, declared, few_emits, operand_declared, placed, target_declared, task_sound};

use crate::statement::{Operand, Statement, Target, Task, Test};

// How much a program declares.
#[derive(Clone, Copy, PartialEq, Eq, Debug)]
pub struct Scope {
    pub variables: u8,
    pub locals: u8,
    pub tasks: u8,
}

impl Scope {
    fn has_task(&self, task: Task) -> bool
        ensures { result ≡ nat_lt task.number self.now.tasks }
    {
        task.number() < self.tasks
    }

    fn has_operand(&self, operand: Operand) -> bool
        ensures { result ≡ operand_declared self.now operand }
    {
        match operand {
            Operand::Number(_) | Operand::Input(_) => true,
            Operand::Variable(variable) => variable.number() < self.variables,
            Operand::Local(local) => local.number() < self.locals,
        }
    }

    fn has_target(&self, target: Target) -> bool
        ensures { result ≡ target_declared self.now target }
    {
        match target {
            Target::Variable(variable) => variable.number() < self.variables,
            Target::Local(local) => local.number() < self.locals,
        }
    }

    fn has_test(&self, test: Test) -> bool
        ensures { result ≡ (operand_declared self.now test.left && operand_declared self.now test.right) }
    {
        self.has_operand(test.left) && self.has_operand(test.right)
    }

    // What the statement names is declared.
    fn has_names_of(&self, statement: Statement) -> bool
        ensures { result ≡ declared self.now statement }
    {
        match statement {
            Statement::Stop => true,
            Statement::Set {
                target,
                left,
                right,
                ..
            } => self.has_operand(left) && self.has_operand(right) && self.has_target(target),
            Statement::Emit(operand) => self.has_operand(operand),
            Statement::Skip { test, .. } => self.has_test(test),
            Statement::Next(task) => self.has_task(task),
            Statement::Choose {
                test,
                then,
                otherwise,
            } => self.has_test(test) && self.has_task(then) && self.has_task(otherwise),
        }
    }

    // The statement names what is declared and stands where it may, with so many statements behind it.
    fn admits(&self, statement: Statement, behind: usize) -> bool
        ensures { result ≡ (declared self.now statement && placed statement behind) }
    {
        self.has_names_of(statement) && well_placed(statement, behind)
    }

    // So does every statement of the task.
    fn admits_all(&self, task: &[Statement]) -> bool
        ensures { result ≡ all_placed self.now task.now }
    {
        // A loop: a chain of `rev`, `enumerate` and `all` was tried, and the search finds no equation for it.
        for (i, &statement) in task.iter().enumerate() {
            if !self.admits(statement, task.len() - 1 - i) {
                return false;
            }
        }
        true
    }

    // The task is well formed, if it has at most 64 statements.
    pub(crate) fn makes_well_formed(&self, task: &[Statement]) -> bool
        requires { length task.now ≤ 64 }
        ensures { result ≡ task_sound self.now task.now }
    {
        !task.is_empty() && self.admits_all(task) && emits_few(task)
    }
}

// With so many statements behind it: an ending is last, and a skip leads at most to the ending.
fn well_placed(statement: Statement, behind: usize) -> bool
    ensures { result ≡ placed statement behind }
{
    match statement {
        Statement::Stop | Statement::Next(_) | Statement::Choose { .. } => behind == 0,
        Statement::Skip { reach, .. } => (reach.count() as usize) < behind,
        Statement::Set { .. } | Statement::Emit(_) => behind > 0,
    }
}

// No path adds more than eight words to the record. Both ways are free at a skip, so that one path comes to every
// statement, and no path adds more than that one.
fn emits_few(task: &[Statement]) -> bool
    ensures { result ≡ few_emits task.now }
{
    let emits = task
        .iter()
        .filter(|statement| matches!(statement, Statement::Emit(_)));
    emits.count() <= 8
}
