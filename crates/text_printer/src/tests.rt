//! Messages as commands.
use crate::{
    MAX_LINE, NoPrint, Printed, Unread, print_effect, print_gone, print_here, print_refusal,
    read_message,
};
use command_grammar::{Command, read_command};
use lines::{FULL, MESSAGES, REFUSED};
use route_values::{Addr, AsPath, Caps, Family, Key, NoMemory, Origin, Prefix, WireAttrs};
use std::alloc::Global;
use std::test::Fail;
use update_codec::{Announced, Effects};
use update_grammar::Effect;

mod lines;

// What a session carries.
#[derive(Clone, Copy)]
enum Carried {
    // IPv4.
    Ipv4,
    // Both families.
    Both,
    // IPv4 with path identifiers.
    Identified,
}

impl Carried {
    fn caps(self) -> Caps {
        let none = Caps::none();
        match self {
            Carried::Ipv4 => none.with(Family::Ipv4, false),
            Carried::Both => none.with(Family::Ipv4, false).with(Family::Ipv6, false),
            Carried::Identified => none.with(Family::Ipv4, true),
        }
    }
}

// The lines of the third line of an input, each with its line feed.
fn decoded(alloc: Global, line: &[u8], caps: &Caps) -> Result<Vec<u8>, NoMemory> {
    let mut text = Vec::new(alloc);
    match read_message(alloc, line, caps) {
        Ok(effects) => put_effects(alloc, &mut text, &effects)?,
        Err(unread) => put_line(&mut text, &print_refusal(alloc, 3, &unread)?)?,
    }
    Ok(text)
}

fn put_effects(alloc: Global, text: &mut Vec<u8>, effects: &Effects) -> Result<(), NoMemory> {
    let parts = effects.parts();
    for key in parts.gone {
        put_line(text, &print_gone(alloc, key)?)?;
    }
    for announced in parts.here {
        put_announced(alloc, text, announced)?;
    }
    Ok(())
}

fn put_announced(alloc: Global, text: &mut Vec<u8>, announced: &Announced) -> Result<(), NoMemory> {
    for key in announced.keys.as_slice() {
        match print_here(alloc, key, &announced.attrs) {
            Ok(line) => put_line(text, &line)?,
            Err(NoPrint::Unprintable) => text.extend_from_slice(b"# unprintable\n")?,
            Err(NoPrint::NoMemory) => return Err(NoMemory),
        }
    }
    Ok(())
}

fn put_line(text: &mut Vec<u8>, line: &Printed) -> Result<(), NoMemory> {
    text.extend_from_slice(line.as_slice())?;
    text.push(b'\n')?;
    Ok(())
}

// 10.0.0.0/24 without an identifier.
fn ten() -> Result<Key, &'static str> {
    let prefix = Prefix::new(Addr::V4(0x0a00_0000), 24).ok_or("no prefix")?;
    Ok(Key { prefix, id: 0 })
}

fn printed(alloc: Global, effect: &Effect) -> Result<Printed, &'static str> {
    match print_effect(alloc, effect) {
        Ok(line) => Ok(line),
        Err(_) => Err("an effect that isn't printed"),
    }
}

#[test]
fn a_message_is_printed_as_the_commands_that_say_the_same(rt: HostRuntime) -> Result<(), Fail> {
    for (carried, line, text) in &MESSAGES {
        let decoded = decoded(rt.alloc(), line.as_bytes(), &carried.caps())?;
        assert_eq!(rt; decoded.as_slice(), text.as_bytes(), "{line}");
    }
    Ok(())
}

#[test]
fn a_line_that_tells_nothing_is_refused_with_its_number_and_first_fault(
    rt: HostRuntime,
) -> Result<(), Fail> {
    for (line, text) in &REFUSED {
        let decoded = decoded(rt.alloc(), line.as_bytes(), &Carried::Ipv4.caps())?;
        assert_eq!(rt; decoded.as_slice(), text.as_bytes(), "{line}");
    }
    Ok(())
}

#[test]
fn a_line_of_a_byte_too_many_is_long_whatever_it_holds(rt: HostRuntime) -> Result<(), Fail> {
    let caps = Carried::Ipv4.caps();
    let longest = vec![in rt.alloc(); b'x'; MAX_LINE]?;
    let decoded_longest = decoded(rt.alloc(), &longest, &caps)?;
    assert_eq!(rt; decoded_longest.as_slice(), b"# refused 3 hex\n".as_slice());
    let longer = vec![in rt.alloc(); b'x'; MAX_LINE + 1]?;
    let decoded_longer = decoded(rt.alloc(), &longer, &caps)?;
    assert_eq!(rt; decoded_longer.as_slice(), b"# refused 3 long\n".as_slice());
    Ok(())
}

#[test]
fn a_printed_line_is_read_as_a_command(rt: HostRuntime) -> Result<(), Fail> {
    let caps = Carried::Identified.caps();
    let effects = read_message(rt.alloc(), FULL.as_bytes(), &caps);
    let Ok(effects) = effects else {
        return Err("a message that isn't read")?;
    };
    let parts = effects.parts();
    let announced = parts.here.first().ok_or("no announcement")?;
    let key = announced.keys.as_slice().first().ok_or("no key")?;
    let Ok(line) = print_here(rt.alloc(), key, &announced.attrs) else {
        return Err("an announcement that isn't printed")?;
    };
    let said = read_command(rt.alloc(), line.as_slice());
    assert!(rt; matches!(said, Ok(Command::Announce { .. })));
    Ok(())
}

#[test]
fn an_effect_is_printed_as_its_key_and_attributes_are(rt: HostRuntime) -> Result<(), Fail> {
    let path = AsPath::from_segments(Vec::new(rt.alloc()));
    let attrs = WireAttrs::new(rt.alloc(), Addr::V4(0xc000_0201), Origin::Egp, path);
    let gone = Effect::Gone(ten()?);
    let gone_line = printed(rt.alloc(), &gone)?;
    assert_eq!(rt;
        gone_line.as_slice(),
        b"withdraw route 10.0.0.0/24".as_slice()
    );
    let here = Effect::Here(ten()?, attrs);
    let here_line = printed(rt.alloc(), &here)?;
    let text = b"announce route 10.0.0.0/24 next-hop 192.0.2.1 origin egp as-path [ ]";
    assert_eq!(rt; here_line.as_slice(), text.as_slice());
    Ok(())
}

#[test]
fn want_of_memory_has_no_remark(rt: HostRuntime) {
    assert!(rt; print_refusal(rt.alloc(), 1, &Unread::NoMemory).is_err());
}
