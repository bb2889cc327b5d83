// Tests of memories: a word written at every charge, cut, relit and cut again, over each memory and over two layers.
#![tactic(auto)]

#[cfg(test)]
mod dark;
#[cfg(test)]
mod layers;
#[cfg(test)]
mod lowest_cuts;
#[cfg(test)]
mod make;
#[cfg(test)]
mod makers;
#[cfg(test)]
mod single;
#[cfg(test)]
mod through;
#[cfg(test)]
mod trial;
