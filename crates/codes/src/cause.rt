// Causes, 9.4.3, table 9.4: bits 7 to 1 of the first octet of a cause's value.
pub const ILLEGAL_MS: u8 = 3;

pub const IMEI_NOT_ACCEPTED: u8 = 5;

pub const ILLEGAL_ME: u8 = 6;

pub const SERVICE_NOT_AUTHORIZED: u8 = 8;

pub const APPLICATION_NOT_SUPPORTED: u8 = 9;

pub const RR_CONNECTION_ABORTED: u8 = 10;

pub const NORMAL_CALL_CLEARING: u8 = 16;

pub const NETWORK_FAILURE: u8 = 17;

pub const BUSY: u8 = 20;

pub const CONGESTION: u8 = 22;

pub const USER_NOT_ORIGINATOR: u8 = 23;

pub const NETWORK_WANTS_TO_MAINTAIN_CALL: u8 = 24;

pub const RESPONSE_TO_GET_STATUS: u8 = 30;

pub const SERVICE_OPTION_NOT_SUPPORTED: u8 = 32;

pub const SERVICE_OPTION_NOT_SUBSCRIBED: u8 = 33;

pub const SERVICE_OPTION_OUT_OF_ORDER: u8 = 34;

pub const CALL_CANNOT_BE_IDENTIFIED: u8 = 38;

// Retry upon entry into a new cell: from the first to the last, both among them.
pub const RETRY_FIRST: u8 = 48;

pub const RETRY_LAST: u8 = 63;

pub const INVALID_TRANSACTION_IDENTIFIER: u8 = 81;

pub const SEMANTICALLY_INCORRECT: u8 = 95;

pub const INVALID_MANDATORY_INFORMATION: u8 = 96;

pub const TYPE_NON_EXISTENT: u8 = 97;

pub const TYPE_NOT_COMPATIBLE: u8 = 98;

pub const ELEMENT_NON_EXISTENT: u8 = 99;

// The table has these words twice.
pub const TYPE_NOT_COMPATIBLE_AGAIN: u8 = 100;

pub const PROTOCOL_ERROR: u8 = 112;
