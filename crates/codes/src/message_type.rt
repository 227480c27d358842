// Message types, 9.3, table 9.1: bits 6 to 1 of a message's second octet.
pub const IMMEDIATE_SETUP: u8 = 0b110001;

pub const SETUP: u8 = 0b110010;

pub const CONNECT: u8 = 0b110011;

pub const TERMINATION: u8 = 0b110100;

pub const TERMINATION_REQUEST: u8 = 0b110101;

pub const TERMINATION_REJECT: u8 = 0b110110;

pub const STATUS: u8 = 0b111000;

pub const GET_STATUS: u8 = 0b111001;

pub const SET_PARAMETER: u8 = 0b111010;
