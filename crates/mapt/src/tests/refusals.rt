//! Words that are no form, and what isn't served or is refused.

use super::files::{
    DOMAIN, EDGE, EMPTY, HOME, PLAIN, RULE, WHOLE_ADDRESS, capture_of, set_header_sum, status_of,
    words_of,
};
use super::replays::PADDED;
use byteorder::{BigEndian, ByteOrder};
use inet_sum::{check_of, sum};
use mapt_setup::SetupCause;
use mapt_tool::{Status, mapt_plain};
use outside::{FileId, SureFolder, SureSink};
use pcap_files::{CaptureFault, Writer};
use std::alloc::Global;
use std::process::Abort;
use std::test::Fail;

#[test]
fn words_that_are_no_form(rt: HostRuntime) -> Result<(), Fail> {
    let alloc = rt.alloc();
    let cases: [(&[&str], u32); 12] = [
        (&[], 0),
        (&["--help"], 0),
        (&["Replay", "home.toml", "out-"], 0),
        (&["replay"], 1),
        (&["replay", "", "out-"], 1),
        (&["replay", "home.toml"], 2),
        (&["replay", "home.toml", "out-", "17"], 3),
        (&["rules", "home.toml", "65"], 2),
        (&["owner", "home.toml", "0", "192.0.2.300", "5"], 3),
        (&["owner", "home.toml", "0", "192.0.2.18", "05"], 4),
        (&["options", ""], 1),
        (&["options", "container.txt", "more"], 2),
    ];
    for (words, number) in cases {
        let words = words_of(alloc, words)?;
        let mut folder = SureFolder::new(alloc);
        let mut out = SureSink::new(alloc);
        let status = mapt_plain(alloc, &words, &mut folder, &mut out);
        assert_eq!(rt; status, Status::Usage(number));
    }
    Ok(())
}

/// The packet with another octet, and its header's sum right again.
fn with_octet(rt: &impl Abort, at: usize, octet: u8) -> [u8; 30] {
    let mut packet = PLAIN;
    assert!(rt; at < 30);
    packet[at] = octet;
    set_header_sum(&mut packet);
    packet
}

/// Whether a replay of a capture with these two packets ends as one that isn't served yet. The first may be
/// left out.
fn is_not_served(
    rt: &impl Abort,
    alloc: Global,
    first: Option<&[u8]>,
    packet: &[u8],
) -> Result<bool, Fail> {
    let mut writer = Writer::new(alloc)?;
    if let Some(first) = first {
        assert!(rt; first.len() < 65_536);
        writer.add(0, first)?;
    }
    assert!(rt; packet.len() < 65_536);
    writer.add(1_000_000, packet)?;
    Ok(status_of(alloc, &HOME, writer.as_slice())? == Status::NotBuilt(FileId::InLan(0)))
}

#[test]
fn packets_that_are_not_served(rt: HostRuntime) -> Result<(), Fail> {
    let alloc = rt.alloc();
    // A datagram that options leave too short, a total that is too long, more fragments, an offset, a TTL of 2, ICMP, TCP
    // without its header, a UDP length that is too long, and a destination in a group.
    let octets = [
        (0, 0x46),
        (3, 31),
        (6, 0x20),
        (7, 1),
        (8, 2),
        (9, 1),
        (9, 6),
        (25, 11),
        (16, 224),
    ];
    for (at, octet) in octets {
        let packet = with_octet(&rt, at, octet);
        assert!(rt; is_not_served(&rt, alloc, None, &packet)?, "octet {at}");
    }
    Ok(())
}

#[test]
fn captures_that_are_not_served(rt: HostRuntime) -> Result<(), Fail> {
    let alloc = rt.alloc();
    let mut wrong_sum = PLAIN;
    wrong_sum[11] = 0xe2;
    assert!(rt; is_not_served(&rt, alloc, None, &wrong_sum)?);
    // In the rule's own 192.0.2.0/24.
    let mut inside = PLAIN;
    BigEndian::write_u32(&mut inside[16..], 0xc000_0207);
    set_header_sum(&mut inside);
    assert!(rt; is_not_served(&rt, alloc, None, &inside)?);
    assert!(rt; is_not_served(&rt, alloc, None, &PLAIN[..27])?);
    assert!(rt; is_not_served(&rt, alloc, None, b"")?);
    let other_port = with_octet(&rt, 21, 0x89);
    assert!(rt; is_not_served(&rt, alloc, Some(&PLAIN), &other_port)?);
    let other_host = with_octet(&rt, 15, 0x0b);
    assert!(rt; is_not_served(&rt, alloc, Some(&PLAIN), &other_host)?);
    // Times that fall.
    let mut writer = Writer::new(alloc)?;
    writer.add(2, &PLAIN)?;
    writer.add(1, &PLAIN)?;
    let not_built = Status::NotBuilt(FileId::InLan(0));
    assert_eq!(rt; status_of(alloc, &HOME, writer.as_slice())?, not_built);
    // With the type of ARP behind the tag.
    let mut arp = PADDED;
    arp[57] = 0x06;
    assert_eq!(rt; status_of(alloc, &HOME, &arp)?, not_built);
    Ok(())
}

/// A UDP packet with so many octets behind its header, and no UDP sum.
fn sized(rt: &impl Abort, alloc: Global, len: usize) -> Result<Vec<u8>, Fail> {
    assert!(rt; 8 <= len && len < 2_000);
    let mut packet = vec![in alloc; 0; 20 + len]?;
    for i in 0..24 {
        packet[i] = PLAIN[i];
    }
    BigEndian::write_u16(&mut packet[2..], 20 + len as u16);
    BigEndian::write_u16(&mut packet[24..], len as u16);
    BigEndian::write_u16(&mut packet[10..], 0);
    let check = check_of(sum(&packet[..20]));
    BigEndian::write_u16(&mut packet[10..], check);
    Ok(packet)
}

#[test]
fn packets_fit_both_networks(rt: HostRuntime) -> Result<(), Fail> {
    let alloc = rt.alloc();
    let not_built = Status::NotBuilt(FileId::InLan(0));
    let rows: [(&[&str], usize, Status); 4] = [
        // 40 octets of header and these are 1500
        (&HOME, 1460, Status::Done),
        (&HOME, 1461, not_built),
        // 20 octets of header and these are 1280
        (&WHOLE_ADDRESS, 1260, Status::Done),
        (&WHOLE_ADDRESS, 1261, not_built),
    ];
    for (config, len, want) in rows {
        let packet = sized(&rt, alloc, len)?;
        let lan = capture_of(&rt, alloc, &[&packet])?;
        assert_eq!(rt; status_of(alloc, config, lan.as_slice())?, want);
    }
    Ok(())
}

/// The octets without the last one.
fn cut(octets: &[u8]) -> &[u8] {
    match octets {
        [kept @ .., _] => kept,
        [] => octets,
    }
}

/// An edge beside the home, one whose prefix no rule fits, and one that has port 0 alone, with its rule.
const NEXT_DOOR: &str = "[[edge]]
name = \"next\"
prefix = \"2001:db8:12:3500::/56\"
lan = \"192.168.1.1\"
capture = \"lan-home.pcap\"
";

const UNFIT: &str = "[[edge]]
name = \"e0\"
prefix = \"2001:db8:12:3400::/57\"
lan = \"192.168.1.1\"
capture = \"lan-home.pcap\"
";

const ONE_PORT: &str = "[[rule]]
prefix6 = \"2001:db8::/40\"
prefix4 = \"192.0.2.0/24\"
ea = 24
offset = 0
";

const PORT_0: &str = "[[edge]]
name = \"e0\"
prefix = \"2001:db8:12::/64\"
lan = \"192.168.1.1\"
capture = \"lan-home.pcap\"
";

const FORWARD: &str = "[[forward]]
edge = \"home\"
proto = \"udp\"
port = 1232
host = \"192.168.1.20\"
host_port = 80
";

const CHANGE: &str = "[[change]]
at = 0
action = \"remove\"
prefix6 = \"2001:db8::/40\"
";

/// Configurations that aren't served yet.
const NOT_SERVED: [&[&str]; 8] = [
    &[DOMAIN, RULE],
    &[DOMAIN, RULE, EDGE, NEXT_DOOR],
    &[DOMAIN, "access = \"access-in.pcap\"\n", RULE, EDGE],
    &[DOMAIN, "core = \"core-in.pcap\"\n", RULE, EDGE],
    &[DOMAIN, RULE, UNFIT],
    &[DOMAIN, ONE_PORT, PORT_0],
    &[DOMAIN, RULE, EDGE, FORWARD],
    &[DOMAIN, RULE, EDGE, CHANGE],
];

#[test]
fn configurations_that_are_not_served(rt: HostRuntime) -> Result<(), Fail> {
    let alloc = rt.alloc();
    let lan = capture_of(&rt, alloc, &[&PLAIN])?;
    for config in NOT_SERVED {
        let status = status_of(alloc, config, lan.as_slice())?;
        assert_eq!(rt; status, Status::NotBuilt(FileId::Config));
    }
    Ok(())
}

/// The LAN's capture is refused for this.
fn lan_refused(fault: CaptureFault) -> Status {
    Status::CaptureRefused(FileId::InLan(0), fault)
}

#[test]
fn files_that_are_refused(rt: HostRuntime) -> Result<(), Fail> {
    let alloc = rt.alloc();
    let lan = capture_of(&rt, alloc, &[&PLAIN])?;
    let lan = lan.as_slice();
    let mut longer = Vec::from_slice(alloc, lan)?;
    longer.push(0)?;
    let mut stray = Vec::from_slice(alloc, &EMPTY)?;
    stray.extend_from_slice(&[0; 10])?;
    let rows: [(&[&str], &[u8], Status); 6] = [
        (&[], lan, Status::SetupRefused(SetupCause::BadDomain, 0)),
        (&["["], lan, Status::SetupRefused(SetupCause::NotToml, 0)),
        (&HOME, b"", lan_refused(CaptureFault::NotPcap)),
        (&HOME, cut(lan), lan_refused(CaptureFault::Cut(0))),
        (&HOME, &longer, lan_refused(CaptureFault::Cut(1))),
        (&HOME, &stray, lan_refused(CaptureFault::Cut(0))),
    ];
    for (config, lan, status) in rows {
        assert_eq!(rt; status_of(alloc, config, lan)?, status);
    }
    Ok(())
}
