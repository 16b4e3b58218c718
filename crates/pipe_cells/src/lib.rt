//! A pipe as a row of cells, and its simulation between the rings of a hub.
#![tactic(auto)]

mod cell;
mod pipe;
mod ports;
mod row;

pub use pipe::{Pipe, simulate};
