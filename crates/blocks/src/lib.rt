// One GSI block to records and back: judged and taken word by word, with no record kept between, and the list of word records that a caller lends.
#![tactic(auto)]

pub mod answers;
mod digits;
mod fitting;
pub mod judging;
pub mod lists;
mod putting;
mod taking;
