// Answers.
use crate::answer;

pub const TAKEN: u32 = answer::TAKEN as u32;

pub const IGNORED: u32 = answer::IGNORED as u32;

pub const REPORTED: u32 = answer::REPORTED as u32;

pub const NO_STEP: u32 = answer::NO_STEP as u32;

pub const OUT_OF_RANGE: u32 = answer::OUT_OF_RANGE as u32;

pub const SHORT_BUFFER: u32 = answer::SHORT_BUFFER as u32;

pub const LONG_MESSAGE: u32 = answer::LONG_MESSAGE as u32;

pub const NO_CONTEXT: u32 = answer::NO_CONTEXT as u32;

pub const UNREADABLE_LOG: u32 = answer::UNREADABLE_LOG as u32;

pub const UNEXPLAINED: u32 = answer::UNEXPLAINED as u32;

pub const LONG_LOG: u32 = answer::LONG_LOG as u32;

pub const NO_ROOM: u32 = answer::NO_ROOM as u32;

pub const SETTINGS_REFUSED: u32 = answer::SETTINGS_REFUSED as u32;

pub const UNREADABLE: u32 = answer::UNREADABLE as u32;

pub const GREATEST_RECORDED: u32 = answer::GREATEST_RECORDED as u32;
