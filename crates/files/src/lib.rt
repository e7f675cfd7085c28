// What the programs that read a file of either family share: what they are asked for, what feeds them the file, and counts that stop at the largest number.
#![tactic(auto)]

pub mod asked;
pub mod counting;
pub mod feeding;
