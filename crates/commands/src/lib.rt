// What a line commands: its end, its keyword and its shape, before any state is looked at.
#![tactic(auto)]

pub mod shapes;
