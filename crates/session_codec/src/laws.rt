//! The law of OPEN.
ghost use Rattle.session_codec.specs.Laws.{WrittenIsRead};

/// An OPEN that was written is read back as what the writer's settings offer, by a neighbour that has the writer's AS
/// configured.
///
/// It stands for settings with a family, a router identifier that isn't 0 and a hold time that isn't 1 or 2. The
/// function does nothing: its contract is the law.
pub fn written_is_read()
    ensures { WrittenIsRead }
{}
