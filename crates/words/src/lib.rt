// One word of a GSI block: its bytes, the record that it gives, and the bytes that a record has. Everything above reads and writes words through
// this crate.
#![tactic(auto)]

pub mod reading;
pub mod records;
