//! The standard requests, as bRequest has them (USB 2.0, table 9-4).

/// GET_STATUS (9.4.5).
pub const GET_STATUS: u8 = 0;

/// CLEAR_FEATURE (9.4.1).
pub const CLEAR_FEATURE: u8 = 1;

/// SET_FEATURE (9.4.9).
pub const SET_FEATURE: u8 = 3;

/// SET_ADDRESS (9.4.6).
pub const SET_ADDRESS: u8 = 5;

/// GET_DESCRIPTOR (9.4.3).
pub const GET_DESCRIPTOR: u8 = 6;

/// SET_DESCRIPTOR (9.4.8).
pub const SET_DESCRIPTOR: u8 = 7;

/// GET_CONFIGURATION (9.4.2).
pub const GET_CONFIGURATION: u8 = 8;

/// SET_CONFIGURATION (9.4.7).
pub const SET_CONFIGURATION: u8 = 9;

/// GET_INTERFACE (9.4.4).
pub const GET_INTERFACE: u8 = 10;

/// SET_INTERFACE (9.4.10).
pub const SET_INTERFACE: u8 = 11;

/// SYNCH_FRAME (9.4.11).
pub const SYNCH_FRAME: u8 = 12;
