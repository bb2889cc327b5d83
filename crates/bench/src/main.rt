// Compiles the largest text that is accepted; with the argument `time`, a thousand times, and tells how long that took.
#![tactic(auto)]

use crate::largest::Page;
use compile::compile::compile;
use facts::kind::Kind;
use facts::most::Counts;
use facts::pass::LEAST_SCRATCH;
use facts::touched::Touched;
use rules::rules::bounds::bounds;
use std::env;
use std::rt::Clock;
use std::time::Instant;

mod largest;

// The bounds of the rules that the text says; none if it is refused.
fn compiled(text: &[u8]) -> Option<(u16, u16)> {
    let mut touched = [Touched.start(); LEAST_SCRATCH];
    let mut most = [Counts {
        emits: 0,
        direct: 0,
    }; LEAST_SCRATCH];
    let compiled = compile(text, &mut touched, &mut most).ok()?;
    Some(bounds(&compiled.rules))
}

// A thousand compiles.
fn time<R: Clock + Print>(rt: &R, text: &[u8]) -> anyhow::Result<()> {
    let start = Instant::now(rt)?;
    let mut all = true;
    for _ in 0..1000 {
        all = compiled(text).is_some() && all;
    }
    let took = start.elapsed(rt)?.as_millis();
    let answer = if all { "accepted" } else { "refused" };
    println!(rt; "{answer} a thousand times, in {took} milliseconds")?;
    Ok(())
}

fn main(rt: HostRuntime) -> anyhow::Result<()> {
    let page = Page::largest();
    let text = page.text();
    println!(&rt; "the largest text has {} bytes", text.len())?;
    match compiled(text) {
        Some((stores, steps)) => println!(&rt; "accepted, bounds {stores} {steps}")?,
        None => println!(&rt; "refused")?,
    }
    if env::args(&rt)?
        .nth(1)
        .is_some_and(|argument| argument.as_str() == "time")
    {
        time(&rt, text)?;
    }
    Ok(())
}
