// The commands `read` and `write` of the probe, and `gread` and `gwrite`, which are the same for group calls: each a module with a function that answers a line's
// words, given the protocol. Between the words and the messages stand the numbers that the library for C has of a message.
#![tactic(auto)]

mod kinds;
pub mod read_command;
pub mod write_command;
