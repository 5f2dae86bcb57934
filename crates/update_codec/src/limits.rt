//! The law of the limits.
ghost use Rattle.update_codec.specs.LimitLaws.{AttributesFit, AnnouncementFits, WithdrawalFits};

/// A route within the limits, with one key, fits a message of 4,096 bytes, the greatest that every session takes
/// (RFC 4271, section 4.1).
///
/// It stands for attributes that have a text, and for keys of the next hop's family, with identifiers and without. The
/// function does nothing: its contract is the law.
///
/// - `attributes`: the attributes take at most 3,803 bytes for IPv4, NEXT_HOP among them, and 3,820 for IPv6,
///   MP_REACH_NLRI without prefixes among them.
/// - `announcement`: the message that announces one key has at most 3,835 bytes for IPv4, and 3,864 for IPv6.
/// - `withdrawal`: the message that withdraws one key has at most 32 bytes for IPv4, and 50 for IPv6.
pub fn limits_fit()
    ensures attributes { AttributesFit }
    ensures announcement { AnnouncementFits }
    ensures withdrawal { WithdrawalFits }
{}
