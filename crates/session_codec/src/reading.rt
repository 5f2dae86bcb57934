//! Reads the bodies of OPEN and ROUTE-REFRESH.
ghost use Rattle.std.specs.Prelude.{ℕ, ◌≡◌, ◌≤◌, [], length, Some};
ghost use Rattle.route_values.specs.declared.addr.Family.{Family};
ghost use Rattle.frame_cutter.specs.Refusals.{refused};
ghost use Rattle.session_codec.specs.Written.{family_field};
ghost use Rattle.session_codec.specs.Found.{family_in};
ghost use Rattle.session_codec.specs.ReadOpen.{opens, opens_four, judged, bad_version, wants_as};
ghost use Rattle.session_codec.specs.Said.{said_at, open_by};

mod field;
mod parameters;
mod said;
mod ways;

use crate::codes::{
    BAD_IDENTIFIER, BAD_PEER_AS, FOUR_BYTE_AS, MIN_HOLD, OPEN_ERROR, UNACCEPTABLE_HOLD_TIME,
    UNSPECIFIC, UNSUPPORTED_CAPABILITY, UNSUPPORTED_VERSION, VERSION,
};
use crate::offer::{Open, Path};
use attr_codec::numbers::{read_u16, read_u32, u16_bytes, u32_bytes};
use field::family_in;
use frame_cutter::Refusal;
use parameters::said_in;
use route_values::{Family, Settings};
use said::{AS_LEN, Said};

// Where the hold time, the identifier, the length of the parameters and the parameters stand (RFC 4271, section 4.2).
const HOLD_AT: usize = 3;

const ID_AT: usize = 5;

const LEN_AT: usize = 9;

const PARAMETERS_AT: usize = 10;

/// The OPEN that a body says, or the first reason to refuse it, under the own settings (RFC 4271, section 6.2;
/// RFC 5492, section 5).
///
/// The checks come in this order: the version; the optional parameters, from the front; that there is a number of an AS
/// of four bytes; that it is the configured one; the identifier; the hold time. The AS of two bytes isn't looked at. Of
/// several numbers of an AS the first one counts, and of several ways of a family the first one. A neighbour that says
/// nothing of families has IPv4. The cutter lets no shorter body through.
pub fn read_open(body: &[u8], own: &Settings) -> Result<Open, Refusal>
    requires { 10 ≤ length body.now }
    ensures { result ≡ opens own.now body.now }
{
    if body[0] != VERSION {
        return Err(bad_version());
    }
    open_of_four(body, own)
}

// The same for a body of the right version.
fn open_of_four(body: &[u8], own: &Settings) -> Result<Open, Refusal>
    requires { 10 ≤ length body.now }
    ensures { result ≡ opens_four own.now body.now }
{
    let said = said_at(body)?;
    let Some(asn) = said.asn else {
        return Err(wants_as(own.local_as));
    };
    judged(own, open_by(body, &said, asn))
}

/// The family that the body of a ROUTE-REFRESH asks for, or None where it isn't one of these. The byte between AFI and
/// SAFI isn't looked at. The cutter lets no body of another length than 4 through.
pub fn read_refresh(body: &[u8]) -> Option<Family>
    requires { 4 ≤ length body.now }
    ensures exact { result ≡ family_in body.now }
    ensures written { (family : Family) → body.now ≡ family_field family → result ≡ Some family }
{
    family_in(body)
}

/// A refusal of an OPEN that has no data.
pub fn refused(sub: u8) -> Refusal
    ensures { result ≡ refused 2 sub [] }
{
    Refusal::new(OPEN_ERROR, sub, &[])
}

fn bad_version() -> Refusal
    ensures { result ≡ bad_version }
{
    Refusal::new(OPEN_ERROR, UNSUPPORTED_VERSION, &u16_bytes(VERSION.into()))
}

// Says that the number of an AS of four bytes is wanted, by the own one.
fn wants_as(asn: u32) -> Refusal
    ensures { result ≡ wants_as asn }
{
    let [first, second, third, fourth] = u32_bytes(asn);
    Refusal::new(
        OPEN_ERROR,
        UNSUPPORTED_CAPABILITY,
        &[FOUR_BYTE_AS, AS_LEN as u8, first, second, third, fourth],
    )
}

// What the optional parameters of a body say.
fn said_at(body: &[u8]) -> Result<Said, Refusal>
    requires { 10 ≤ length body.now }
    ensures { result ≡ said_at body.now }
{
    let parameters = &body[PARAMETERS_AT..];
    if usize::from(body[LEN_AT]) != parameters.len() {
        return Err(refused(UNSPECIFIC));
    }
    said_in(parameters)
}

// What a body says whose parameters say this.
fn open_by(body: &[u8], said: &Said, asn: u32) -> Open
    requires { 10 ≤ length body.now }
    ensures { result ≡ open_by body.now said.now asn }
{
    Open {
        asn,
        hold: read_u16(&body[HOLD_AT..]),
        id: read_u32(&body[ID_AT..]),
        ipv4: said.ipv4 || !said.families,
        ipv6: said.ipv6,
        refresh: said.refresh,
        extended: said.extended,
        ipv4_path: said.ways.ipv4.unwrap_or(Path::None),
        ipv6_path: said.ways.ipv6.unwrap_or(Path::None),
    }
}

// What is said, unless its AS, its identifier or its hold time refuses it.
fn judged(own: &Settings, said: Open) -> Result<Open, Refusal>
    ensures { result ≡ judged own.now said }
{
    if said.asn != own.peer_as {
        return Err(refused(BAD_PEER_AS));
    }
    if said.id == 0 {
        return Err(refused(BAD_IDENTIFIER));
    }
    if said.hold != 0 && said.hold < MIN_HOLD {
        return Err(refused(UNACCEPTABLE_HOLD_TIME));
    }
    Ok(said)
}
