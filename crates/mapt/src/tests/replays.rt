//! What is replayed, packet by packet.

use super::files::{
    DOMAIN, EMPTY, HOME, PLAIN, RULE, WHOLE_ADDRESS, capture_of, folder_of, words_of,
};
use mapt_tool::{Status, mapt, mapt_plain};
use outside::{FreeGate, SureFolder, SureSink};
use pcap_files::Writer;
use std::alloc::Global;
use std::sync::Wait;
use std::test::Fail;
use std::thread::Threads;

/// A home without a capture.
const SILENT: &str = "[[edge]]
name = \"home\"
prefix = \"2001:db8:12:3400::/56\"
lan = \"192.168.1.1\"
";

/// The packets of a host: on its LAN, on the access network, and in the core.
const FLOWS: [(&[u8], &[u8], &[u8]); 7] = [
    // a UDP packet, which gets the least port that the home may claim
    (
        b"\x45\x00\x00\x1e\x00\x01\x00\x00\x40\x11\x8e\xe1\xc0\xa8\x01\x0a\xc6\x33\x64\x07\x13\x88\x00\x35\x00\x0a\x97\xc6\x68\x69",
        b"\x60\x00\x00\x00\x00\x0a\x11\x3f\x20\x01\x0d\xb8\x00\x12\x34\x00\x00\x00\xc0\x00\x02\x12\x00\x34\x20\x01\x0d\xb8\xff\xff\x00\x00\x00\xc6\x33\x64\x07\x00\x00\x00\x04\xd0\x00\x35\x00\x0a\x05\x77\x68\x69",
        b"\x45\x00\x00\x1e\x00\x00\x00\x00\x3e\x11\x90\x82\xc0\x00\x02\x12\xc6\x33\x64\x07\x04\xd0\x00\x35\x00\x0a\xa6\x1e\x68\x69",
    ),
    // from port 2257, which is in the home's set and is kept
    (
        b"\x45\x00\x00\x1e\x00\x01\x00\x00\x40\x11\x8e\xe1\xc0\xa8\x01\x0a\xc6\x33\x64\x07\x08\xd1\x00\x35\x00\x0a\xa2\x7d\x68\x69",
        b"\x60\x00\x00\x00\x00\x0a\x11\x3f\x20\x01\x0d\xb8\x00\x12\x34\x00\x00\x00\xc0\x00\x02\x12\x00\x34\x20\x01\x0d\xb8\xff\xff\x00\x00\x00\xc6\x33\x64\x07\x00\x00\x00\x08\xd1\x00\x35\x00\x0a\x01\x76\x68\x69",
        b"\x45\x00\x00\x1e\x00\x00\x00\x00\x3e\x11\x90\x82\xc0\x00\x02\x12\xc6\x33\x64\x07\x08\xd1\x00\x35\x00\x0a\xa2\x1d\x68\x69",
    ),
    // a TCP packet
    (
        b"\x45\x00\x00\x28\x00\x01\x00\x00\x40\x06\x8e\xe2\xc0\xa8\x01\x0a\xc6\x33\x64\x07\x13\x88\x01\xbb\x00\x00\x00\x00\x00\x00\x00\x00\x50\x02\xff\xff\xae\xb2\x00\x00",
        b"\x60\x00\x00\x00\x00\x14\x06\x3f\x20\x01\x0d\xb8\x00\x12\x34\x00\x00\x00\xc0\x00\x02\x12\x00\x34\x20\x01\x0d\xb8\xff\xff\x00\x00\x00\xc6\x33\x64\x07\x00\x00\x00\x04\xd0\x01\xbb\x00\x00\x00\x00\x00\x00\x00\x00\x50\x02\xff\xff\x1c\x63\x00\x00",
        b"\x45\x00\x00\x28\x00\x00\x00\x00\x3e\x06\x90\x83\xc0\x00\x02\x12\xc6\x33\x64\x07\x04\xd0\x01\xbb\x00\x00\x00\x00\x00\x00\x00\x00\x50\x02\xff\xff\xbd\x0a\x00\x00",
    ),
    // a UDP sum that becomes 0 is written as 65535
    (
        b"\x45\x00\x00\x1e\x00\x01\x00\x00\x40\x11\x8e\xe1\xc0\xa8\x01\x0a\xc6\x33\x64\x07\x13\x88\x00\x35\x00\x0a\x92\x4f\x6d\xe0",
        b"\x60\x00\x00\x00\x00\x0a\x11\x3f\x20\x01\x0d\xb8\x00\x12\x34\x00\x00\x00\xc0\x00\x02\x12\x00\x34\x20\x01\x0d\xb8\xff\xff\x00\x00\x00\xc6\x33\x64\x07\x00\x00\x00\x04\xd0\x00\x35\x00\x0a\xff\xff\x6d\xe0",
        b"\x45\x00\x00\x1e\x00\x00\x00\x00\x3e\x11\x90\x82\xc0\x00\x02\x12\xc6\x33\x64\x07\x04\xd0\x00\x35\x00\x0a\xa0\xa7\x6d\xe0",
    ),
    // a UDP sum that is missing is computed
    (
        b"\x45\x00\x00\x1e\x00\x01\x00\x00\x40\x11\x8e\xe1\xc0\xa8\x01\x0a\xc6\x33\x64\x07\x13\x88\x00\x35\x00\x0a\x00\x00\x68\x69",
        b"\x60\x00\x00\x00\x00\x0a\x11\x3f\x20\x01\x0d\xb8\x00\x12\x34\x00\x00\x00\xc0\x00\x02\x12\x00\x34\x20\x01\x0d\xb8\xff\xff\x00\x00\x00\xc6\x33\x64\x07\x00\x00\x00\x04\xd0\x00\x35\x00\x0a\x05\x77\x68\x69",
        b"\x45\x00\x00\x1e\x00\x00\x00\x00\x3e\x11\x90\x82\xc0\x00\x02\x12\xc6\x33\x64\x07\x04\xd0\x00\x35\x00\x0a\xa6\x1e\x68\x69",
    ),
    // a wrong sum stays wrong
    (
        b"\x45\x00\x00\x1e\x00\x01\x00\x00\x40\x11\x8e\xe1\xc0\xa8\x01\x0a\xc6\x33\x64\x07\x13\x88\x00\x35\x00\x0a\x97\xc7\x68\x69",
        b"\x60\x00\x00\x00\x00\x0a\x11\x3f\x20\x01\x0d\xb8\x00\x12\x34\x00\x00\x00\xc0\x00\x02\x12\x00\x34\x20\x01\x0d\xb8\xff\xff\x00\x00\x00\xc6\x33\x64\x07\x00\x00\x00\x04\xd0\x00\x35\x00\x0a\x05\x78\x68\x69",
        b"\x45\x00\x00\x1e\x00\x00\x00\x00\x3e\x11\x90\x82\xc0\x00\x02\x12\xc6\x33\x64\x07\x04\xd0\x00\x35\x00\x0a\xa6\x1f\x68\x69",
    ),
    // options, the reserved flag, and octets after the end
    (
        b"\x46\x00\x00\x22\x00\x01\xc0\x00\x40\x11\xcb\xdb\xc0\xa8\x01\x0a\xc6\x33\x64\x07\x01\x01\x01\x00\x13\x88\x00\x35\x00\x0a\x97\xc6\x68\x69\xff\xff",
        b"\x60\x00\x00\x00\x00\x0a\x11\x3f\x20\x01\x0d\xb8\x00\x12\x34\x00\x00\x00\xc0\x00\x02\x12\x00\x34\x20\x01\x0d\xb8\xff\xff\x00\x00\x00\xc6\x33\x64\x07\x00\x00\x00\x04\xd0\x00\x35\x00\x0a\x05\x77\x68\x69",
        b"\x45\x00\x00\x1e\x00\x00\x00\x00\x3e\x11\x90\x82\xc0\x00\x02\x12\xc6\x33\x64\x07\x04\xd0\x00\x35\x00\x0a\xa6\x1e\x68\x69",
    ),
];

/// An Ethernet capture with the highest octet first, in nanoseconds: the plain packet at 7.000001999 s, behind one
/// tag and before 16 octets of padding.
pub const PADDED: [u8; 104] = [
    0xa1, 0xb2, 0x3c, 0x4d, 0x00, 0x02, 0x00, 0x04, 0x00, 0x00, 0x00, 0x00, 0x00, 0x00, 0x00, 0x00,
    0x00, 0x00, 0xff, 0xff, 0x00, 0x00, 0x00, 0x01, 0x00, 0x00, 0x00, 0x07, 0x00, 0x00, 0x07, 0xcf,
    0x00, 0x00, 0x00, 0x40, 0x00, 0x00, 0x00, 0x40, 0x02, 0x00, 0x00, 0x00, 0x00, 0x01, 0x02, 0x00,
    0x00, 0x00, 0x00, 0x02, 0x81, 0x00, 0x00, 0x05, 0x08, 0x00, 0x45, 0x00, 0x00, 0x1e, 0x00, 0x01,
    0x00, 0x00, 0x40, 0x11, 0x8e, 0xe1, 0xc0, 0xa8, 0x01, 0x0a, 0xc6, 0x33, 0x64, 0x07, 0x13, 0x88,
    0x00, 0x35, 0x00, 0x0a, 0x97, 0xc6, 0x68, 0x69, 0x00, 0x00, 0x00, 0x00, 0x00, 0x00, 0x00, 0x00,
    0x00, 0x00, 0x00, 0x00, 0x00, 0x00, 0x00, 0x00,
];

/// The captures that a replay is to write.
#[derive(Clone, Copy)]
struct Expected<'a> {
    access: &'a [u8],
    core: &'a [u8],
}

/// Whether these captures were written.
fn holds(folder: &SureFolder, expected: &Expected<'_>) -> bool {
    let access = folder.file("out-access.pcap");
    let core = folder.file("out-core.pcap");
    access == Some(expected.access) && core == Some(expected.core)
}

/// Whether both top calls replay this configuration and LAN capture, write these captures, and print nothing.
fn replays<R: Threads + Wait + Sync>(
    rt: &R,
    alloc: Global,
    config: &[&str],
    lan: &[u8],
    expected: &Expected<'_>,
) -> Result<bool, Fail> {
    let words = words_of(alloc, &["replay", "home.toml", "out-"])?;
    let mut plain = folder_of(alloc, config, lan)?;
    let mut shared = folder_of(alloc, config, lan)?;
    let mut out = SureSink::new(alloc);
    let alone = mapt_plain(alloc, &words, &mut plain, &mut out);
    let together = mapt(rt, alloc, &words, &mut shared, &mut out, &FreeGate::new());
    let is_silent = out.as_slice() == b"".as_slice();
    let are_done = alone == Status::Done && together == Status::Done && is_silent;
    Ok(are_done && holds(&plain, expected) && holds(&shared, expected))
}

/// The first packet as the record of number 1, in the core: a record's number is its identification.
const SECOND: &[u8] =
    b"\x45\x00\x00\x1e\x00\x01\x00\x00\x3e\x11\x90\x81\xc0\x00\x02\x12\xc6\x33\x64\x07\x04\xd0\x00\x35\x00\x0a\xa6\x1e\x68\x69";

/// The plain packet from 2001:db8:12:0:0:c000:212:0 with its port, and in the core.
const FROM_WHOLE: (&[u8], &[u8]) = (
    b"\x60\x00\x00\x00\x00\x0a\x11\x3f\x20\x01\x0d\xb8\x00\x12\x00\x00\x00\x00\xc0\x00\x02\x12\x00\x00\x00\x64\xff\x9b\x00\x00\x00\x00\x00\x00\x00\x00\xc6\x33\x64\x07\x13\x88\x00\x35\x00\x0a\x69\x9b\x68\x69",
    b"\x45\x00\x00\x1e\x00\x00\x00\x00\x3e\x11\x90\x82\xc0\x00\x02\x12\xc6\x33\x64\x07\x13\x88\x00\x35\x00\x0a\x97\x66\x68\x69",
);

#[test]
fn packets_are_replayed(rt: HostRuntime) -> Result<(), Fail> {
    let alloc = rt.alloc();
    for (packet, outward, arriving) in FLOWS {
        let lan = capture_of(&rt, alloc, &[packet])?;
        let access = capture_of(&rt, alloc, &[outward])?;
        let core = capture_of(&rt, alloc, &[arriving])?;
        let (lan, access, core) = (lan.as_slice(), access.as_slice(), core.as_slice());
        assert!(rt; replays(&rt, alloc, &HOME, lan, &Expected { access, core })?);
    }
    Ok(())
}

/// One host of each protocol; an edge with all ports of its address; and no packets, with a capture and without one.
#[test]
fn edges_are_replayed(rt: HostRuntime) -> Result<(), Fail> {
    let alloc = rt.alloc();
    let [udp, _, tcp, ..] = FLOWS;
    let two = capture_of(&rt, alloc, &[tcp.0, udp.0])?;
    let two_access = capture_of(&rt, alloc, &[tcp.1, udp.1])?;
    let two_core = capture_of(&rt, alloc, &[tcp.2, SECOND])?;
    let one = capture_of(&rt, alloc, &[&PLAIN])?;
    let whole_access = capture_of(&rt, alloc, &[FROM_WHOLE.0])?;
    let whole_core = capture_of(&rt, alloc, &[FROM_WHOLE.1])?;
    let without_capture = [DOMAIN, RULE, SILENT];
    let rows: [(&[&str], &[u8], &[u8], &[u8]); 4] = [
        (
            &HOME,
            two.as_slice(),
            two_access.as_slice(),
            two_core.as_slice(),
        ),
        (
            &WHOLE_ADDRESS,
            one.as_slice(),
            whole_access.as_slice(),
            whole_core.as_slice(),
        ),
        (&HOME, &EMPTY, &EMPTY, &EMPTY),
        (&without_capture, b"", &EMPTY, &EMPTY),
    ];
    for (config, lan, access, core) in rows {
        assert!(rt; replays(&rt, alloc, config, lan, &Expected { access, core })?);
    }
    Ok(())
}

#[test]
fn padding_belongs_to_no_packet(rt: HostRuntime) -> Result<(), Fail> {
    let alloc = rt.alloc();
    let [udp, ..] = FLOWS;
    let mut access = Writer::new(alloc)?;
    access.add(7_000_001, udp.1)?;
    let mut core = Writer::new(alloc)?;
    core.add(7_000_001, udp.2)?;
    let expected = Expected {
        access: access.as_slice(),
        core: core.as_slice(),
    };
    assert!(rt; replays(&rt, alloc, &HOME, &PADDED, &expected)?);
    Ok(())
}
