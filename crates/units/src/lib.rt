// What a word's index, information and figures mean: the kind of a word, its unit and sign, and the count that its figures make.
#![tactic(auto)]

mod classes;
pub mod counts;
pub mod information;
pub mod kinds;
