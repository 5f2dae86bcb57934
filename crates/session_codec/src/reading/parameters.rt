//! Reads optional parameters and the capabilities in them (RFC 4271, section 4.2; RFC 5492, section 4).
ghost use Rattle.std.specs.Prelude.{◌≡◌};
ghost use Rattle.std.specs.Result.{result_map_both};
ghost use Rattle.session_codec.specs.ReadOpen.{parameter_step};
ghost use Rattle.session_codec.specs.Said.{field_of, said_by, told};
ghost use Rattle.session_codec.specs.Said.{said_in_caps, said_in_parameter, said_in_all};

use super::field::{RawField, field_at};
use super::refused;
use super::said::{Said, said_of};
use crate::codes::{CAPABILITIES, UNSPECIFIC, UNSUPPORTED_PARAMETER};
use frame_cutter::Refusal;

/// What the capabilities of all parameters say that the bytes are made of.
pub fn said_in(bytes: &[u8]) -> Result<Said, Refusal>
    ensures { result ≡ said_in_all bytes.now }
{
    let mut said = Said::nothing();
    let mut rest = bytes;
    'parameters: while !rest.is_empty() {
        let (more, behind) = parameter_at(rest)?;
        said = said.followed_by(more);
        rest = behind;
    }
    Ok(said)
}

// What the parameter at the front says, and the bytes behind it.
fn parameter_at(bytes: &[u8]) -> Result<(Said, &[u8]), Refusal>
    ensures { result_map_both (λ one. (one.0, one.1.now)) (λ refusal. refusal) result
        ≡ told parameter_step said_by tt bytes.now }
{
    let Some((parameter, behind)) = field_at(bytes) else {
        return Err(refused(UNSPECIFIC));
    };
    Ok((caps_in(&parameter)?, behind))
}

// What the capabilities of a parameter say.
fn caps_in(parameter: &RawField<'_>) -> Result<Said, Refusal>
    ensures { result ≡ said_in_parameter (field_of parameter.now) }
{
    if parameter.code != CAPABILITIES {
        return Err(refused(UNSUPPORTED_PARAMETER));
    }
    said_by(parameter.value)
}

// What the capabilities say that the bytes are made of.
fn said_by(bytes: &[u8]) -> Result<Said, Refusal>
    ensures { result ≡ said_in_caps bytes.now }
{
    let mut said = Said::nothing();
    let mut rest = bytes;
    'caps: while !rest.is_empty() {
        let Some((cap, behind)) = field_at(rest) else {
            return Err(refused(UNSPECIFIC));
        };
        said = said.followed_by(said_of(&cap));
        rest = behind;
    }
    Ok(said)
}
