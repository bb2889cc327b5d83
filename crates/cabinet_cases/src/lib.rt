// Tests of the cabinet: each refusal, each chain, and visits that are carried on after a cut at each store.
#![tactic(auto)]

#[cfg(test)]
mod begins;
#[cfg(test)]
mod chains;
#[cfg(test)]
mod cut;
#[cfg(test)]
mod driver;
#[cfg(test)]
mod lays;
#[cfg(test)]
mod make;
#[cfg(test)]
mod memories;
#[cfg(test)]
mod reopened;
#[cfg(test)]
mod shown;
#[cfg(test)]
mod stores;
#[cfg(test)]
mod texts;
#[cfg(test)]
mod two_tasks;
#[cfg(test)]
mod uncut;
#[cfg(test)]
mod visits;
