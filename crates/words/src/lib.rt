// Short lists with a fixed capacity, of words and of other items.
#![tactic(auto)]

pub mod list;
