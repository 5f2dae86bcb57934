//! The error codes of a message's header (RFC 4271, sections 4.5 and 6.1).

/// Message Header Error, the code of each fault of a header (RFC 4271, section 6.1).
pub const HEADER_ERROR: u8 = 1;

/// Connection Not Synchronized: the marker isn't all ones. It has no data (RFC 4271, section 6.1).
pub const NOT_SYNCHRONIZED: u8 = 1;

/// Bad Message Length: the length isn't one that the message may have. The data is its two bytes (RFC 4271, section
/// 6.1).
pub const BAD_LENGTH: u8 = 2;

/// Bad Message Type: there is no such type of message. The data is its byte (RFC 4271, section 6.1).
pub const BAD_TYPE: u8 = 3;
