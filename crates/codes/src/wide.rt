// The numbers that a host in C has in 32 bits.
pub mod answer;
pub mod event;
