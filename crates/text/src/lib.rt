// Reads a figure's text into a plan and numbers. The same walk goes over the text twice: first with slices of no length,
// which judges all of it and writes nothing, and then, where it passed and there is room, with the caller's slices.
// `lines` reads one line, `put` has the reader, which stores what it says, `figure` has the lines' order.
#![tactic(auto)]

mod figure;
mod lines;
mod put;

pub use figure::read;
