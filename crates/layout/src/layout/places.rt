// The places of a layout, each by its name.
ghost use Rattle.std.specs.Prelude.{◌≡◌, ◌≤◌, length};
ghost use Rattle.program.specs.Programs.{program_source};
ghost use Rattle.layout.specs.Places.{head_place, length_place, least_length, log_place, next_place, number_high_place, number_low_place, page_end, record_place, variable_place};

use crate::layout::Layout;
use program::program::Program;
use program::statement::Variable;

impl Layout {
    // The layout of a program.
    pub fn of(program: &Program) -> Layout
        ensures { result.variables ≡ length (program_source program.now).firsts }
    {
        Layout {
            variables: program.firsts().len() as u8,
        }
    }

    // How many words a memory must have.
    pub fn least_length(self) -> u16
        ensures { result ≡ least_length self.variables }
    {
        49 + 4 * u16::from(self.variables)
    }

    // The head, the log's commit word: 0, or the log's place while a commit is under way.
    pub fn head(self) -> u16
        ensures { result ≡ head_place }
    {
        0
    }

    // The low word of the visit number.
    pub fn number_low(self) -> u16
        ensures { result ≡ number_low_place }
    {
        1
    }

    // The high word of the visit number.
    pub fn number_high(self) -> u16
        ensures { result ≡ number_high_place }
    {
        2
    }

    // The next task, or 16 after a stop.
    pub fn next(self) -> u16
        ensures { result ≡ next_place }
    {
        3
    }

    // The record's length.
    pub fn length(self) -> u16
        ensures { result ≡ length_place }
    {
        4
    }

    // The record's first word.
    pub fn record(self) -> u16
        ensures { result ≡ record_place }
    {
        5
    }

    // The first variable.
    pub fn variables(self) -> u16
        ensures { result ≡ variable_place 0 }
    {
        13
    }

    // A variable.
    pub fn variable(self, variable: Variable) -> u16
        ensures { result ≡ variable_place variable.number }
    {
        self.variables() + u16::from(variable.number())
    }

    // The end of the page: the places that a commit may store to lie from the visit number up to it.
    pub fn page_end(self) -> u16
        ensures { result ≡ page_end self.variables }
    {
        self.variables() + u16::from(self.variables)
    }

    // The log, where its first entry stands.
    pub fn log(self) -> u16
        ensures { result ≡ log_place self.variables }
    {
        self.page_end()
    }
}
