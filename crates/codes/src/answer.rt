// Answers, document 01, "Answer numbers", in an octet; a host in C has them in 32 bits: wide::answer.
pub const TAKEN: u8 = 0;

pub const IGNORED: u8 = 1;

pub const REPORTED: u8 = 2;

pub const NO_STEP: u8 = 3;

pub const OUT_OF_RANGE: u8 = 4;

pub const SHORT_BUFFER: u8 = 5;

pub const LONG_MESSAGE: u8 = 6;

pub const NO_CONTEXT: u8 = 7;

pub const UNREADABLE_LOG: u8 = 8;

pub const UNEXPLAINED: u8 = 9;

pub const LONG_LOG: u8 = 10;

pub const NO_ROOM: u8 = 11;

pub const SETTINGS_REFUSED: u8 = 12;

pub const UNREADABLE: u8 = 13;

// The greatest that an entry of a log claims: the answers to arguments that no step takes are not recorded.
pub const GREATEST_RECORDED: u8 = NO_STEP;
