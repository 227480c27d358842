// Events.
use crate::event;

pub const SET_UP: u32 = event::SET_UP as u32;

pub const IMMEDIATE_SET_UP: u32 = event::IMMEDIATE_SET_UP as u32;

pub const JOIN: u32 = event::JOIN as u32;

pub const TERMINATE: u32 = event::TERMINATE as u32;

pub const RELEASE: u32 = event::RELEASE as u32;

pub const MM_ESTABLISHED: u32 = event::MM_ESTABLISHED as u32;

pub const MM_FAILED: u32 = event::MM_FAILED as u32;

pub const RADIO_LINK_FAILURE: u32 = event::RADIO_LINK_FAILURE as u32;

pub const ABORT_OR_RELEASE: u32 = event::ABORT_OR_RELEASE as u32;

pub const NOTIFIED: u32 = event::NOTIFIED as u32;

pub const GROUP_RECEIVE: u32 = event::GROUP_RECEIVE as u32;

pub const NO_CHANNEL: u32 = event::NO_CHANNEL as u32;

pub const CHANNEL_AVAILABLE: u32 = event::CHANNEL_AVAILABLE as u32;

pub const MM_EST_EXPIRED: u32 = event::MM_EST_EXPIRED as u32;

pub const TERM_EXPIRED: u32 = event::TERM_EXPIRED as u32;

pub const CONN_REQ_EXPIRED: u32 = event::CONN_REQ_EXPIRED as u32;

pub const NO_CHANNEL_EXPIRED: u32 = event::NO_CHANNEL_EXPIRED as u32;

pub const RECEIVED: u32 = event::RECEIVED as u32;

pub const PRES_EXPIRED: u32 = event::PRES_EXPIRED as u32;

pub const RECEIVE_MODE: u32 = event::RECEIVE_MODE as u32;

pub const TALK: u32 = event::TALK as u32;

pub const GROUP_TRANSMIT: u32 = event::GROUP_TRANSMIT as u32;

pub const DEDICATED: u32 = event::DEDICATED as u32;

pub const DELETE_REQUEST: u32 = event::DELETE_REQUEST as u32;
