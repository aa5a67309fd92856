//! Scripts: their events, and what refuses them. The rows are written by hand from the script's grammar.

use domain_model::{Event, What};
use event_script::{ScriptError, parse_script};
use std::alloc::Global;
use std::test::Fail;

/// An event as plain values: its time, its verb, the two numbers that follow, and how many bytes a packet has.
type Told = (u64, &'static str, u8, u8, usize);

fn told(event: &Event) -> Told {
    match &event.what {
        What::Load(image) => (event.time, "load", *image, 0, 0),
        What::Unload(id) => (event.time, "unload", *id, 0, 0),
        What::Radio { to, sort, bytes } => (
            event.time,
            "radio",
            *to,
            *sort,
            bytes.as_slice().len(),
        ),
        What::Dump => (event.time, "dump", 0, 0, 0),
    }
}

fn has_events(
    alloc: Global,
    text: &str,
    images: usize,
    rows: &[Told],
) -> Result<bool, ScriptError> {
    let script = parse_script(alloc, text.as_bytes(), images)?;
    let mut pairs = script.events.iter().zip(rows.iter());
    Ok(script.events.len() == rows.len() && pairs.all(|(event, row)| told(event) == *row))
}

#[test]
fn scripts_are_their_events(rt: HostRuntime) -> Result<(), Fail> {
    let alloc = rt.alloc();
    assert!(rt; has_events(alloc, "", 1, &[])?);
    assert!(rt; has_events(alloc, "\n# load 7\n#\n", 1, &[])?);
    assert!(rt; has_events(alloc, "0 load 0\n", 1, &[(0, "load", 0, 0, 0)])?);
    let two = [(5, "load", 1, 0, 0), (5, "unload", 10, 0, 0)];
    assert!(rt; has_events(alloc, "# one\n\n5 load 1\n\n5 unload 10\n", 2, &two)?);
    let late = [(4_294_967_295, "unload", 254, 0, 0)];
    assert!(rt; has_events(alloc, "4294967295 unload 254\n", 0, &late)?);
    let packets = "5 radio 1 7 aabb\n5 radio 254 255 -\n9 dump\n";
    let told = [
        (5, "radio", 1, 7, 2),
        (5, "radio", 254, 255, 0),
        (9, "dump", 0, 0, 0),
    ];
    assert!(rt; has_events(alloc, packets, 0, &told)?);
    Ok(())
}

#[test]
fn the_bytes_of_a_packet_are_its_pairs(rt: HostRuntime) -> Result<(), Fail> {
    let script = parse_script(rt.alloc(), b"5 radio 1 7 0aa0ff\n", 0)?;
    match &script.events[0].what {
        What::Radio { bytes, .. } => assert!(rt; bytes.as_slice() == [0x0A, 0xA0, 0xFF].as_slice()),
        _ => assert!(rt; false, "an event of another sort"),
    }
    Ok(())
}

#[test]
fn bad_scripts_are_refused(rt: HostRuntime) -> Result<(), Fail> {
    let rows = [
        ("01 dump\n", 1, ScriptError::Line(1)),
        ("0 dump", 1, ScriptError::Line(1)),
        ("0 dump\n# end", 1, ScriptError::Line(2)),
        ("5 dump\n4 dump\n", 1, ScriptError::Order(2)),
        ("0 load 1\n", 1, ScriptError::ImageIndex(1)),
        ("#\n5 dump\n4 load 9\n", 1, ScriptError::Order(3)),
        ("0 dump\n0 load 1\n0 x\n", 1, ScriptError::ImageIndex(2)),
        ("4294967296 dump\n", 1, ScriptError::Line(1)),
        ("0 load 256\n", 1, ScriptError::Line(1)),
        ("0 load 00\n", 1, ScriptError::Line(1)),
        ("0 load -\n", 1, ScriptError::Line(1)),
        ("0 load\n", 1, ScriptError::Line(1)),
        ("0 unload 0\n", 1, ScriptError::Line(1)),
        ("0 unload 255\n", 1, ScriptError::Line(1)),
        ("0 radio 0 7 -\n", 1, ScriptError::Line(1)),
        ("0 radio 255 7 -\n", 1, ScriptError::Line(1)),
        ("0 radio 1 256 -\n", 1, ScriptError::Line(1)),
        ("0 radio 1 7\n", 1, ScriptError::Line(1)),
        ("0 radio 1 7 \n", 1, ScriptError::Line(1)),
        ("0 radio 1 7 abc\n", 1, ScriptError::Line(1)),
        ("0 radio 1 7 AB\n", 1, ScriptError::Line(1)),
        ("0 radio 1 7 ab cd\n", 1, ScriptError::Line(1)),
        ("0  dump\n", 1, ScriptError::Line(1)),
        ("0 dump \n", 1, ScriptError::Line(1)),
        ("0 dump\r\n", 1, ScriptError::Line(1)),
        (" 0 dump\n", 1, ScriptError::Line(1)),
        ("0 send 0\n", 1, ScriptError::Line(1)),
    ];
    for (text, images, refusal) in rows {
        let found = parse_script(rt.alloc(), text.as_bytes(), images);
        assert_eq!(rt; found.err(), Some(refusal), "{text}");
    }
    Ok(())
}

#[test]
fn packets_have_at_most_96_bytes(rt: HostRuntime) -> Result<(), Fail> {
    let alloc = rt.alloc();
    for (pairs, accepted) in [(1u8, true), (96, true), (97, false)] {
        let mut text = Vec::new(alloc);
        text.extend_from_slice(b"0 radio 1 7 ")?;
        for _ in 0..pairs {
            text.extend_from_slice(b"0f")?;
        }
        text.push(b'\n')?;
        let found = parse_script(alloc, text.as_slice(), 1);
        assert_eq!(rt; found.is_ok(), accepted, "{pairs}");
    }
    Ok(())
}

#[test]
fn a_script_has_at_most_65536_events(rt: HostRuntime) -> Result<(), Fail> {
    let alloc = rt.alloc();
    let mut text = Vec::new(alloc);
    for _ in 0..65_536u32 {
        text.extend_from_slice(b"0 dump\n")?;
    }
    let script = parse_script(alloc, text.as_slice(), 1)?;
    assert_eq!(rt; script.events.len(), 65_536);
    text.extend_from_slice(b"0 dump\n")?;
    let refused = parse_script(alloc, text.as_slice(), 1);
    assert_eq!(rt; refused.err(), Some(ScriptError::TooMany(65_537)));
    Ok(())
}
