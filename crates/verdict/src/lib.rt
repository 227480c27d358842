// What the log judge answers, as a type; its meaning stands in specs/ and the promises about it in proofs/.
// The judge itself is the crate above.
#![tactic(auto)]

use timer::Window;

// What is told of the invitation timer: nothing by a table that has none; else its least and its greatest length.
#[derive(Clone, Copy)]
pub enum Invitation {
    Untold,
    Told(Window),
}

// 0 with the count of entries, the least and the greatest joining timer, and what is told of the invitation timer; 8 and 9 with the entry; 10; 4.
#[derive(Clone, Copy)]
pub enum Judged {
    Accepted(usize, Window, Invitation),
    Unreadable(usize),
    Unexplained(usize),
    TooLong,
    OutOfRange,
}
