// Text for programs: hexadecimal, decimal, lines and words, and a lent buffer that text is put into.
#![tactic(auto)]

pub mod decimal;
pub mod hex;
pub mod output;
pub mod words;
