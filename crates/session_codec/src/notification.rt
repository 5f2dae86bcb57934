//! What a NOTIFICATION says.
ghost use Rattle.std.specs.Prelude.{◌≡◌, ◌≤◌, ◌∷◌, length};

/// What a NOTIFICATION says (RFC 4271, section 4.5). Each code and subcode is taken.
#[derive(Clone, Copy, Debug, PartialEq, Eq)]
pub struct Notification<'a> {
    /// The error code.
    pub code: u8,
    /// The error subcode.
    pub sub: u8,
    /// The data.
    pub detail: &'a [u8],
}

/// What the body of a NOTIFICATION says. The cutter lets no shorter one through.
pub fn read_notification(body: &[u8]) -> Notification<'_>
    requires { 2 ≤ length body.now }
    ensures { body.now ≡ result.code ∷ result.sub ∷ result.detail.now }
{
    let [code, sub, detail @ ..] = body else {
        unreachable!();
    };
    Notification {
        code: *code,
        sub: *sub,
        detail,
    }
}
