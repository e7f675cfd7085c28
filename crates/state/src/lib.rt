// The state of the stand-in: settings, stored values and the undo list, by value, and its image, the bytes that a host lends.
#![tactic(auto)]

pub mod entries;
pub mod image;
pub mod judging;
pub mod laying;
