// Reads a lending rule from standard input, and tells what it can cost, or why it is refused.
#![tactic(auto)]

use crate::answer::answer;
use crate::input::{ROOM, read_text};
use std::process::ExitCode;

mod acceptance;
mod answer;
mod input;
mod line;
mod offence;
mod sentence;
mod shown;

// Succeeds if the rule is accepted.
fn run(rt: &(impl Input + Print)) -> anyhow::Result<ExitCode> {
    let mut buffer = [0; ROOM];
    let text = read_text(&mut rt.reader(), &mut buffer)?;
    match answer(text) {
        Ok(accepted) => {
            println!(rt; "{accepted}")?;
            Ok(ExitCode::SUCCESS)
        }
        Err(refused) => {
            println!(rt; "{refused}")?;
            Ok(ExitCode::FAILURE)
        }
    }
}

fn main(rt: HostRuntime) -> anyhow::Result<ExitCode> {
    run(&rt)
}
