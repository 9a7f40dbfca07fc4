//! Lines and replies: cuts a script into lines, reads what a line says, and writes the bytes of replies.
#![tactic(auto)]

mod append;
mod asks;
mod chunk;
mod clients;
mod commands;
mod edits;
mod feed;
mod heads;
mod line_reader;
mod node;
mod partial;
mod questions;
mod replies;
mod words;

pub use commands::command;
pub use line_reader::{LineReader, PullFault, Pulled};
pub use replies::reply;
pub use sx_run::{Command, Line, Reply, Said};
