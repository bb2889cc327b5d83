// Tests of programs and of the plain machine, on examples and at their limits.
#![tactic(auto)]

#[cfg(test)]
mod build;
#[cfg(test)]
mod comparisons;
#[cfg(test)]
mod drafts;
#[cfg(test)]
mod limits;
#[cfg(test)]
mod malformed;
#[cfg(test)]
mod operators;
#[cfg(test)]
mod pages;
#[cfg(test)]
mod read;
#[cfg(test)]
mod records;
#[cfg(test)]
mod skips;
#[cfg(test)]
mod steps;
#[cfg(test)]
mod visits;
