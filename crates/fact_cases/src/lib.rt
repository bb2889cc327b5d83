// Tests of facts over paths: examples, small tasks, limits, and a walk along every path of many tasks.
#![tactic(auto)]

#[cfg(test)]
mod examples;
#[cfg(test)]
mod limits;
#[cfg(test)]
mod lines;
#[cfg(test)]
mod rule;
#[cfg(test)]
mod slices;
#[cfg(test)]
mod told;
#[cfg(test)]
mod walk;
#[cfg(test)]
mod walked;
