// The line machine: one line judged, run and answered, over a state that a host lends as an image.
#![tactic(auto)]

mod images;
pub mod machine;
pub mod orders;
pub mod replies;
pub mod verdicts;
