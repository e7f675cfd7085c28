// The state sheet, written from an image and loaded into one, moved from one form to the other, and an input of lines played to its sheet.
#![tactic(auto)]

pub mod answers;
pub mod forms;
pub mod loading;
pub mod moving;
pub mod playing;
pub mod undo;
pub mod writing;
