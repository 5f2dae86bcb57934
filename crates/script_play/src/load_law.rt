//! The law of loads.
ghost use Rattle.script_play.specs.LoadLaws.{LoadsLeaveCounted};

/// What a load leaves where its configuration has one neighbour with the settings of `load_settings`: the session that
/// came up stands to the end, and the routes that are counted as left are those that its messages have left at the
/// neighbour, by the grammar of UPDATE messages (RFC 4271, section 4.3).
///
/// The function does nothing: its contract is the law.
pub fn loads_leave_counted()
    ensures { LoadsLeaveCounted }
{}
