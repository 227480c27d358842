// Actions, document 01: what the host is to do. A step gives their sum.
pub const NONE: u8 = 0;

// Inform higher layers.
pub const INFORM: u8 = 1;

// Request an MM connection.
pub const REQUEST_MM: u8 = 2;

// Request group receive mode.
pub const REQUEST_GROUP_RECEIVE: u8 = 4;

// Ask lower layers to abort the call, or to release it.
pub const ABORT: u8 = 8;

pub const RELEASE: u8 = 16;

// Tell lower layers that the MM connection exists implicitly.
pub const TELL_MM_EXISTS: u8 = 32;

// Request group transmit mode, a group call's.
pub const REQUEST_GROUP_TRANSMIT: u8 = 64;

// All that a step of a broadcast call may ask for, and of a group call.
pub const ALL_BROADCAST: u8 = INFORM
    + REQUEST_MM
    + REQUEST_GROUP_RECEIVE
    + ABORT
    + RELEASE
    + TELL_MM_EXISTS;

pub const ALL_GROUP: u8 = ALL_BROADCAST + REQUEST_GROUP_TRANSMIT;
