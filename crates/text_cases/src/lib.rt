// Tests of compile: what is told of texts that are refused, and what accepted texts come to.
#![tactic(auto)]

#[cfg(test)]
mod accepted;
#[cfg(test)]
mod blanks;
#[cfg(test)]
mod bytes;
#[cfg(test)]
mod examples;
#[cfg(test)]
mod frames;
#[cfg(test)]
mod limits;
#[cfg(test)]
mod lines;
#[cfg(test)]
mod many;
#[cfg(test)]
mod names;
#[cfg(test)]
mod numbers;
#[cfg(test)]
mod operands;
#[cfg(test)]
mod order;
#[cfg(test)]
mod reader;
#[cfg(test)]
mod said;
#[cfg(test)]
mod scratches;
#[cfg(test)]
mod targets;
#[cfg(test)]
mod tasks;
#[cfg(test)]
mod told;
#[cfg(test)]
mod written;
