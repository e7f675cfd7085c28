// What the program reading prints of a piece of a GSI file: the block, each word with its count, its step and its value in people's form, or the
// refusal and its byte.
#![tactic(auto)]

pub mod piece;
