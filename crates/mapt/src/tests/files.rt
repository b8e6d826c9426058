//! Configurations, packets and captures, and what is put into folders.

use byteorder::{BigEndian, ByteOrder};
use inet_sum::{check_of, sum};
use mapt_tool::{Status, mapt_plain};
use outside::{SureFolder, SureSink};
use pcap_files::Writer;
use std::alloc::Global;
use std::process::Abort;
use std::test::Fail;

pub const DOMAIN: &str = "[domain]
dmr = \"2001:db8:ffff::/64\"
relay = \"198.51.100.1\"
mtu4 = 1500
mtu6 = 1500
";

pub const RULE: &str = "[[rule]]
prefix6 = \"2001:db8::/40\"
prefix4 = \"192.0.2.0/24\"
ea = 16
";

pub const EDGE: &str = "[[edge]]
name = \"home\"
prefix = \"2001:db8:12:3400::/56\"
lan = \"192.168.1.1\"
capture = \"lan-home.pcap\"
";

/// A home's configuration, in parts.
pub const HOME: [&str; 3] = [DOMAIN, RULE, EDGE];

/// A configuration with a prefix of 96 bits for far addresses, and an edge that has all ports of its address.
pub const WHOLE_ADDRESS: [&str; 3] = [
    "[domain]
dmr = \"64:ff9b::/96\"
relay = \"198.51.100.1\"
mtu4 = 1280
mtu6 = 1500
",
    "[[rule]]
prefix6 = \"2001:db8::/40\"
prefix4 = \"192.0.2.0/24\"
ea = 8
",
    "[[edge]]
name = \"whole\"
prefix = \"2001:db8:12::/48\"
lan = \"192.168.1.1\"
capture = \"lan-home.pcap\"
",
];

/// UDP from 192.168.1.10:5000 to 198.51.100.7:53.
pub const PLAIN: [u8; 30] = [
    0x45, 0x00, 0x00, 0x1e, 0x00, 0x01, 0x00, 0x00, 0x40, 0x11, 0x8e, 0xe1, 0xc0, 0xa8, 0x01, 0x0a,
    0xc6, 0x33, 0x64, 0x07, 0x13, 0x88, 0x00, 0x35, 0x00, 0x0a, 0x97, 0xc6, 0x68, 0x69,
];

/// The capture without a packet, as it is read and written.
pub const EMPTY: [u8; 24] = [
    0xd4, 0xc3, 0xb2, 0xa1, 0x02, 0x00, 0x04, 0x00, 0x00, 0x00, 0x00, 0x00, 0x00, 0x00, 0x00, 0x00,
    0x00, 0x00, 0x04, 0x00, 0x65, 0x00, 0x00, 0x00,
];

/// A capture of these packets, the first at time 0 and each one a second after the one before.
pub fn capture_of(rt: &impl Abort, alloc: Global, packets: &[&[u8]]) -> Result<Writer, Fail> {
    let mut writer = Writer::new(alloc)?;
    let mut time = 0;
    for packet in packets {
        assert!(rt; time < 1_000_000_000 && packet.len() < 65_536);
        writer.add(time, packet)?;
        time += 1_000_000;
    }
    Ok(writer)
}

/// The words as the program has them.
pub fn words_of(alloc: Global, words: &[&str]) -> Result<Vec<String>, Fail> {
    let mut all = Vec::new(alloc);
    for word in words {
        all.push(String::from_str(alloc, word)?)?;
    }
    Ok(all)
}

/// A file of these parts.
pub fn text_of(alloc: Global, parts: &[&str]) -> Result<String, Fail> {
    let mut text = String::new(alloc);
    for part in parts {
        text.push_str(part)?;
    }
    Ok(text)
}

/// A folder with the configuration of these parts and a LAN capture.
pub fn folder_of(alloc: Global, config: &[&str], lan: &[u8]) -> Result<SureFolder, Fail> {
    let mut folder = SureFolder::new(alloc);
    folder.put_file("home.toml", text_of(alloc, config)?.as_bytes())?;
    folder.put_file("lan-home.pcap", lan)?;
    Ok(folder)
}

/// How a replay of these ends.
pub fn status_of(alloc: Global, config: &[&str], lan: &[u8]) -> Result<Status, Fail> {
    let mut folder = folder_of(alloc, config, lan)?;
    let mut out = SureSink::new(alloc);
    let words = words_of(alloc, &["replay", "home.toml", "out-"])?;
    Ok(mapt_plain(alloc, &words, &mut folder, &mut out))
}

/// Sets the sum of the header of 20 octets at the beginning of a packet.
pub fn set_header_sum(packet: &mut [u8; 30]) {
    packet[10] = 0;
    packet[11] = 0;
    let check = check_of(sum(&packet[..20]));
    BigEndian::write_u16(&mut packet[10..], check);
}
