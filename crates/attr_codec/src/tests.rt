ghost use Rattle.std.specs.Prelude.{◌≡◌, ◌<◌, ◌≤◌, All, IfOk, length};
ghost use Rattle.route_values.specs.declared.addr.Family.TheVariants.{Ipv4};
ghost use Rattle.route_values.specs.Addr.{family_of};
ghost use Rattle.update_grammar.specs.Codes.{short_max};
ghost use Rattle.attr_codec.specs.Buffer.{max_message};
ghost use Rattle.attr_codec.specs.Sizes.{IsShort};

mod reading;

use super::*;
use answers::NoMemory;
use route_values::{Addr, AsPath, Family, Items, Origin, Segment, WireAttrs};
use std::alloc::Global;
use std::test::Fail;

// One sequence of so many AS numbers 65001 to the next hop 192.0.2.1.
fn of_path(alloc: Global, count: usize) -> Result<WireAttrs, NoMemory>
    requires some { 0 < count }
    requires short { count ≤ short_max }
    ensures hop { IfOk result (λ w. family_of w.hop ≡ Ipv4) }
    ensures short { IfOk result (λ w. All IsShort w.path) }
{
    let only = Segment {
        set: false,
        numbers: Items::from_vec(vec![in alloc; 65001; count]?),
    };
    let path = AsPath::from_segments(vec![in alloc; only]?);
    Ok(WireAttrs::new(alloc, Addr::V4(0xC000_0201), Origin::Igp, path))
}

// What is written where so many bytes fit, or None where it is refused.
fn written(alloc: Global, attrs: &WireAttrs, room: usize) -> Result<Option<Message>, NoMemory>
    requires hop { family_of attrs.now.hop ≡ Ipv4 }
    requires short { All IsShort attrs.now.path }
    requires room { room ≤ max_message }
{
    let mut out = Message::new(alloc, room)?;
    let fits = put_attrs(&mut out, attrs, Family::Ipv4);
    Ok(if fits { Some(out) } else { None })
}

const SHORT: &[u8] = &[
    0x40, 0x01, 0x01, 0x00, // ORIGIN IGP
    0x40, 0x02, 0x06, // AS_PATH
    0x02, 0x01, 0x00, 0x00, 0xFD, 0xE9, // sequence 65001
    0x40, 0x03, 0x04, 0xC0, 0x00, 0x02, 0x01, // NEXT_HOP 192.0.2.1
];

#[test]
fn attributes_that_fit_exactly_are_written(rt: HostRuntime) -> Result<(), Fail> {
    let attrs = of_path(rt.alloc(), 1)?;
    assert_eq!(rt; attrs_len(&attrs, Family::Ipv4), 20);
    let out = written(rt.alloc(), &attrs, 20)?.ok_or("room for 20 bytes")?;
    assert_eq!(rt; out.bytes(), SHORT);
    assert!(rt; written(rt.alloc(), &attrs, 19)?.is_none());
    Ok(())
}

#[test]
fn a_value_past_255_bytes_has_a_length_of_two(rt: HostRuntime) -> Result<(), Fail> {
    let alloc = rt.alloc();
    let short = written(alloc, &of_path(alloc, 63)?, 4096)?.ok_or("room")?;
    assert_eq!(rt;
        short.bytes().get(4..9),
        Some([0x40, 0x02, 0xFE, 0x02, 0x3F].as_slice())
    );
    let long = written(alloc, &of_path(alloc, 64)?, 4096)?.ok_or("room")?;
    assert_eq!(rt;
        long.bytes().get(4..10),
        Some([0x50, 0x02, 0x01, 0x02, 0x02, 0x40].as_slice())
    );
    Ok(())
}

const SEALED: &[u8] = &[
    0x00, 0x00, 0x00, 0x00, 0x00, 0x00, 0x00, 0x00, // marker
    0x00, 0x00, 0x00, 0x00, 0x00, 0x00, 0x00, 0x00, //
    0x00, 0x19, // length
    0x00, // type
    0x80, 0x0F, 0x03, 0x00, 0x02, 0x01, // MP_UNREACH_NLRI of IPv6 unicast
];

#[test]
fn a_buffer_is_filled_and_sealed_and_emptied(rt: HostRuntime) -> Result<(), Fail> {
    let mut out = Message::new(rt.alloc(), 25)?;
    out.append(&[0; 19]);
    append_unreach(&mut out);
    out.seal();
    assert_eq!(rt; out.bytes(), SEALED);
    assert_eq!(rt; out.spare(), 0);
    out.clear();
    assert_eq!(rt; out.spare(), 25);
    Ok(())
}

#[test]
fn bytes_of_a_buffer_are_written_over_and_moved(rt: HostRuntime) -> Result<(), Fail> {
    let mut out = Message::new(rt.alloc(), 6)?;
    out.append(&[1, 2, 3, 4, 5, 6]);
    out.overwrite(1, &[7, 8]);
    assert_eq!(rt; out.bytes(), [1, 7, 8, 4, 5, 6].as_slice());
    out.move_last(1, 2);
    assert_eq!(rt; out.bytes(), [1, 5, 6, 7, 8, 4].as_slice());
    Ok(())
}

// A value that may go to another thread.
fn sent<T: Send>(value: T) -> T
    ensures { result ≡ value }
{
    value
}

#[test]
fn a_buffer_is_moved_as_a_pointer(rt: HostRuntime) -> Result<(), Fail> {
    assert!(rt; std::mem::size_of::<Message>() <= 24);
    let full = vec![in rt.alloc(); 0xFF; 65_535]?;
    let mut out = Message::new(rt.alloc(), full.len())?;
    out.append(&full);
    let moved = sent(out);
    assert_eq!(rt; moved.bytes().len(), 65_535);
    assert_eq!(rt; moved.spare(), 0);
    Ok(())
}
