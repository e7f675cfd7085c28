// A block of a printed listing mended: what a print program spoiled is put back, nothing else is changed, and each edit is told.
#![tactic(auto)]

pub mod edits;
pub mod lists;
pub mod mending;
pub mod unjudged;
pub mod walking;
