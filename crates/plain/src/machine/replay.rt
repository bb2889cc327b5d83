// The machine after a whole series of visits.
ghost use Rattle.std.specs.Prelude.{◌≡◌};
ghost use Rattle.plain.specs.Machines.{Continues, replayed, running};

use crate::machine::Machine;
use program::program::Program;

impl<'p> Machine<'p> {
    // One row more of a series: its visit, or nothing where there is none.
    fn take_row(&mut self, row: &[u16; 8])
        ensures { Continues row.now (running self.old) (running self.new) }
    {
        let _ = self.visit(row);
    }

    // The machine after a visit for each row. There are at most 4,294,967,295 visits, and none after a stop.
    pub fn replay(program: &'p Program, rows: &[[u16; 8]]) -> Machine<'p>
        ensures { running result ≡ replayed program.now rows.now }
    {
        let mut machine = Machine::new(program);
        for row in rows {
            machine.take_row(row);
        }
        machine
    }
}
