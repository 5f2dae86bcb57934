//! The numbers of OPEN and NOTIFICATION (RFC 4271, sections 4.2, 4.5 and 6).

/// The version of the protocol (RFC 4271, section 4.2). An OPEN of another one is refused.
pub const VERSION: u8 = 4;

/// AS_TRANS, which stands in two bytes for a number that needs four (RFC 6793, section 9).
pub const AS_TRANS: u16 = 23_456;

/// The least hold time in seconds besides 0 (RFC 4271, section 4.2).
pub const MIN_HOLD: u16 = 3;

/// The type of the optional parameter that holds capabilities (RFC 5492, section 4). Other types are refused.
pub const CAPABILITIES: u8 = 2;

/// Multiprotocol Extensions, a family of which routes are carried (RFC 4760, section 8). Capabilities of other codes
/// than these are passed over.
pub const MULTIPROTOCOL: u8 = 1;
/// Route Refresh, without a value (RFC 2918, section 2).
pub const ROUTE_REFRESH: u8 = 2;
/// BGP Extended Message, without a value (RFC 8654, section 3).
pub const EXTENDED_MESSAGE: u8 = 6;
/// Support for 4-octet AS numbers, the speaker's number (RFC 6793, section 3).
pub const FOUR_BYTE_AS: u8 = 65;
/// ADD-PATH, entries of a family and a way (RFC 7911, section 4).
pub const ADD_PATH: u8 = 69;

/// The way of an ADD-PATH entry whose speaker takes path identifiers (RFC 7911, section 4). A capability with an entry
/// of another way than these three is passed over.
pub const RECEIVE: u8 = 1;
/// The way of one whose speaker writes them.
pub const SEND: u8 = 2;
/// The way of one whose speaker does both.
pub const BOTH: u8 = 3;

/// The byte between AFI and SAFI (RFC 4760, section 8; RFC 2918, section 3). It isn't looked at.
pub const RESERVED: u8 = 0;

/// Unspecific, the subcode where a code has none that fits (RFC 4271, section 4.5). An OPEN whose optional parameters
/// don't fill their field has it, too (section 6.2).
pub const UNSPECIFIC: u8 = 0;

/// OPEN Message Error (RFC 4271, section 6.2). The subcodes follow.
pub const OPEN_ERROR: u8 = 2;
/// Unsupported Version Number. The data is the version that is supported, in two bytes (RFC 4271, section 6.2).
pub const UNSUPPORTED_VERSION: u8 = 1;
/// Bad Peer AS (RFC 4271, section 6.2).
pub const BAD_PEER_AS: u8 = 2;
/// Bad BGP Identifier (RFC 4271, section 6.2).
pub const BAD_IDENTIFIER: u8 = 3;
/// Unsupported Optional Parameter (RFC 4271, section 6.2).
pub const UNSUPPORTED_PARAMETER: u8 = 4;
/// Unacceptable Hold Time (RFC 4271, section 6.2).
pub const UNACCEPTABLE_HOLD_TIME: u8 = 6;
/// Unsupported Capability. The data is the capability that is wanted (RFC 5492, section 5).
pub const UNSUPPORTED_CAPABILITY: u8 = 7;

/// Hold Timer Expired (RFC 4271, section 6.5). Its subcode is [`UNSPECIFIC`].
pub const HOLD_TIMER_EXPIRED: u8 = 4;

/// Finite State Machine Error (RFC 4271, section 6.6). It is sent with the subcode [`UNSPECIFIC`].
pub const STATE_MACHINE_ERROR: u8 = 5;

/// Cease (RFC 4271, section 6.7). The subcodes follow.
pub const CEASE: u8 = 6;
/// Maximum Number of Prefixes Reached (RFC 4486, section 3).
pub const MAX_PREFIXES: u8 = 1;
/// Administrative Shutdown (RFC 4486, section 3).
pub const ADMINISTRATIVE_SHUTDOWN: u8 = 2;
/// Peer De-configured (RFC 4486, section 3).
pub const PEER_DECONFIGURED: u8 = 3;
/// Administrative Reset (RFC 4486, section 3).
pub const ADMINISTRATIVE_RESET: u8 = 4;
/// Connection Rejected (RFC 4486, section 3).
pub const CONNECTION_REJECTED: u8 = 5;
/// Other Configuration Change (RFC 4486, section 3).
pub const OTHER_CONFIGURATION_CHANGE: u8 = 6;
/// Connection Collision Resolution (RFC 4486, section 3).
pub const CONNECTION_COLLISION: u8 = 7;
/// Out of Resources (RFC 4486, section 3).
pub const OUT_OF_RESOURCES: u8 = 8;
