// Heidezirkel for C: what include/heidezirkel.h declares, one module a topic. The crates below do the work; here it takes C's numbers.
#![tactic(auto)]

pub mod configuring;
pub mod judging;
pub mod mending;
pub mod messages;
pub mod numbering;
pub mod recording;
pub mod stepping;
