// Events, document 01, "Events and steps", in an octet, as the step table and a log have them; a host tells them in 32 bits: wide::event.
pub const SET_UP: u8 = 1;

pub const IMMEDIATE_SET_UP: u8 = 2;

pub const JOIN: u8 = 3;

pub const TERMINATE: u8 = 4;

pub const RELEASE: u8 = 5;

pub const MM_ESTABLISHED: u8 = 6;

pub const MM_FAILED: u8 = 7;

pub const RADIO_LINK_FAILURE: u8 = 8;

pub const ABORT_OR_RELEASE: u8 = 9;

pub const NOTIFIED: u8 = 10;

pub const GROUP_RECEIVE: u8 = 11;

pub const NO_CHANNEL: u8 = 12;

pub const CHANNEL_AVAILABLE: u8 = 13;

pub const MM_EST_EXPIRED: u8 = 14;

pub const TERM_EXPIRED: u8 = 15;

pub const CONN_REQ_EXPIRED: u8 = 16;

pub const NO_CHANNEL_EXPIRED: u8 = 17;

pub const RECEIVED: u8 = 18;

// The third step table's, request A13.
pub const PRES_EXPIRED: u8 = 19;

// A group call's, request A5.
pub const RECEIVE_MODE: u8 = 32;

pub const TALK: u8 = 33;

pub const GROUP_TRANSMIT: u8 = 34;

pub const DEDICATED: u8 = 35;

pub const DELETE_REQUEST: u8 = 36;
