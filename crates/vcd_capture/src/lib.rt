// A capture: the characters of two wires of a value change dump, by document 01's receiver, into two lent logs.
#![tactic(auto)]

mod capturing;
mod ear;
mod hops;
mod logs;

pub use capturing::{Asked, Captured, capture, read_capture};
