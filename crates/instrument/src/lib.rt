// What the instrument has: its settings and its stored values, a constant row for each.
#![tactic(auto)]

pub mod keys;
pub mod settings;
pub mod tps100;
pub mod tps300;
pub mod values;
