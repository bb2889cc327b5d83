// Takes one lending rule through one visit of the plain machine, and tells what was done.
#![tactic(auto)]

use crate::keep::Kept;
use crate::tell::Told;
use grammar::names::Names;
use plain::machine::Machine;
use plain::visit::Visit;
use std::{fmt, io};

mod keep;
mod knows;
mod rule;
mod tell;

// The visit's row: the day of lending is 100.
const ROW: [u16; 8] = [100, 0, 0, 0, 0, 0, 0, 0];

// Words with blanks between them.
#[derive(Clone, Copy)]
struct Spaced<'a>(&'a [u16]);

impl fmt::Display for Spaced<'_> {
    fn fmt<W: fmt::Write>(&self, f: &mut fmt::Formatter<W>) -> fmt::Result {
        for (place, word) in self.0.iter().enumerate() {
            if place > 0 {
                f.write_str(" ")?;
            }
            write!(f, "{word}")?;
        }
        Ok(())
    }
}

// Each statement that the visit comes to, with the values that it reads and writes.
fn trace(rt: &impl Print, mut visit: Visit<'_>, names: &Names<'_>) -> io::Result<()> {
    while let Some(statement) = visit.statement() {
        let told = Told {
            statement,
            visit: &visit,
            names,
        };
        println!(rt; "  {told}")?;
        visit.step();
    }
    Ok(())
}

fn run(rt: &impl Print) -> anyhow::Result<()> {
    println!(rt; "The rule of due dates: a loan is due 14 days after the day of the visit.")?;
    for line in rule::TEXT.lines() {
        println!(rt; "  {line}")?;
    }
    let compiled = rule::due_date()?;
    knows::tell(rt, &compiled)?;
    let mut machine = Machine::new(compiled.rules.program());
    println!(rt;
        "Visit 0 with row {} on the plain machine, task a:",
        Spaced(&ROW)
    )?;
    trace(rt, machine.begin(&ROW)?, &compiled.names)?;
    machine.visit(&ROW)?;
    show(rt, &machine)
}

// The record and the page.
fn show(rt: &impl Print, machine: &Machine<'_>) -> anyhow::Result<()> {
    println!(rt; "Record: {}", Spaced(machine.last_record().as_slice()))?;
    let mut page = [0; 14];
    machine.page(&mut page)?;
    println!(rt; "Page: {}", Spaced(&page))?;
    println!(rt;
        "  that is the visit number low and high, the next task, the record's length and eight words, due, n"
    )?;
    tell_kept(rt, page[12])
}

// The page's first variable, stored through a cut and read again.
fn tell_kept(rt: &impl Print, due: u16) -> anyhow::Result<()> {
    let mut bytes = [0; 6];
    let Kept { word, cut, .. } = keep::through_a_cut(&mut bytes, due);
    let place = cut.place;
    println!(rt;
        "Kept through a cut: due = {due} is stored in three cells over an image, power fails at place {place} of the image, and after a relight it reads {word}"
    )?;
    Ok(())
}

fn main(rt: HostRuntime) -> anyhow::Result<()> {
    run(&rt)
}
