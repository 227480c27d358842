// The codes of clause 9 that a message's first two octets, a half octet or a cause carry: protocol discriminators (9.1), message types (9.3), call states (9.4.2), causes (9.4.3), state
// attributes (9.4.6); and document 01's numbers of events, answers and actions.
#![tactic(auto)]

pub mod action;
pub mod answer;
pub mod attributes;
pub mod cause;
pub mod event;
pub mod message_type;
pub mod protocol;
pub mod state;
pub mod wide;
