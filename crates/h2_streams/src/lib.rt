//! HTTP/2 connections, polled by hand, for both ends (RFC 9113).
#![tactic(auto)]

mod begin;
mod blocks;
mod conn;
mod frames;
mod puts;
mod reading;
mod sending;
mod settings;
mod states;
mod verdicts;

pub use conn::Conn;
pub use h2_history::CallEvent;
pub use sending::OpenStop;
