//! What the commands print that print.

use super::files::{DOMAIN, EDGE, HOME, RULE, folder_of, text_of, words_of};
use mapt_setup::SetupCause;
use mapt_tool::{Status, mapt, mapt_plain};
use outside::{FreeGate, SureSink};
use std::alloc::Global;
use std::sync::Wait;
use std::test::Fail;
use std::thread::Threads;

const CONTAINER: &str = "005f001e0059000d011018c00002002820010db800005b00094020010db8ffff0000";

/// Without its last octet, with a bit of the IPv4 prefix set past its length, and with two default mapping rules.
const CUT: &str = "005f001e0059000d011018c00002002820010db800005b00094020010db8ffff00";

const PADDED: &str = "005f001e0059000d011018c00002012820010db800005b00094020010db8ffff0000";

const TWO_DMRS: &str =
    "005f002b0059000d011018c00002002820010db800005b00094020010db8ffff0000005b00094020010db8ffff0000";

const CONTAINER_LINES: &str = "dmr 2001:db8:ffff::/64
rule 2001:db8::/40 192.0.2.0/24 ea 16 offset 6 forward 1
octets 005f001e0059000d011018c00002002820010db800005b00094020010db8ffff0000
";

/// The home's domain, with its rule and default mapping rule in a container.
const BY_OPTIONS: &str = "[domain]
options = \"005f001e0059000d011018c00002002820010db800005b00094020010db8ffff0000\"
relay = \"198.51.100.1\"
mtu4 = 1500
mtu6 = 1500
";

const OVERLAP: &str = "[[rule]]
prefix6 = \"2001:db8:100::/40\"
prefix4 = \"192.0.2.128/25\"
ea = 16
";

/// In a second generation the home's rule is gone.
const REMOVAL: &str = "[[change]]
at = 0
action = \"remove\"
prefix6 = \"2001:db8::/40\"
";

/// How a command is to end, and the text that it is to print.
#[derive(Clone, Copy)]
struct Expected<'a> {
    status: Status,
    text: &'a str,
}

/// Whether these words, with this configuration or container, end so and print this text, by both top calls.
fn prints<R: Threads + Wait + Sync>(
    rt: &R,
    alloc: Global,
    file: &[&str],
    words: &[&str],
    expected: &Expected<'_>,
) -> Result<bool, Fail> {
    let words = words_of(alloc, words)?;
    let mut folder = folder_of(alloc, file, b"")?;
    folder.put_file("container.txt", text_of(alloc, file)?.as_bytes())?;
    let mut plain = SureSink::new(alloc);
    let mut out = SureSink::new(alloc);
    let alone = mapt_plain(alloc, &words, &mut folder, &mut plain);
    let shared = mapt(rt, alloc, &words, &mut folder, &mut out, &FreeGate::new());
    let text = expected.text.as_bytes();
    let is_same = plain.as_slice() == text && out.as_slice() == text;
    Ok(alone == expected.status && shared == expected.status && is_same)
}

/// A file of these parts, the words, and the text that they print.
const PRINTED: [(&[&str], &[&str], &str); 7] = [
    (
        &HOME,
        &["rules", "home.toml", "0"],
        "dmr 2001:db8:ffff::/64\nrule 2001:db8::/40 192.0.2.0/24 ea 16 offset 6 forward 0\n",
    ),
    (
        &[DOMAIN, RULE, EDGE, REMOVAL],
        &["rules", "home.toml", "1"],
        "dmr 2001:db8:ffff::/64\n",
    ),
    (
        &[BY_OPTIONS, EDGE],
        &["rules", "home.toml", "0"],
        "dmr 2001:db8:ffff::/64\nrule 2001:db8::/40 192.0.2.0/24 ea 16 offset 6 forward 1\n",
    ),
    (
        &HOME,
        &["owner", "home.toml", "0", "192.0.2.18", "1023"],
        "none\n",
    ),
    (
        &HOME,
        &["owner", "home.toml", "0", "192.0.2.18", "1232"],
        "2001:db8:12:3400:0:c000:212:34 psid 52 edge home\n",
    ),
    (
        &HOME,
        &["owner", "home.toml", "0", "192.0.2.18", "1236"],
        "2001:db8:12:3500:0:c000:212:35 psid 53 edge -\n",
    ),
    (&[CONTAINER], &["options", "container.txt"], CONTAINER_LINES),
];

/// A file of these parts, the words, and the cause and the place for which they are refused, so that nothing is printed.
const REFUSED: [(&[&str], &[&str], SetupCause, u32); 6] = [
    (
        &[DOMAIN, RULE, EDGE, OVERLAP],
        &["rules", "home.toml", "0"],
        SetupCause::Overlap4,
        1,
    ),
    (
        &HOME,
        &["rules", "home.toml", "1"],
        SetupCause::NoGeneration,
        1,
    ),
    (
        &["0g"],
        &["options", "container.txt"],
        SetupCause::BadHex,
        1,
    ),
    (
        &[CUT],
        &["options", "container.txt"],
        SetupCause::BadContainer,
        33,
    ),
    (
        &[PADDED],
        &["options", "container.txt"],
        SetupCause::BadContainer,
        14,
    ),
    (
        &[TWO_DMRS],
        &["options", "container.txt"],
        SetupCause::BadContainer,
        34,
    ),
];

#[test]
fn files_are_printed_or_refused(rt: HostRuntime) -> Result<(), Fail> {
    let alloc = rt.alloc();
    for (file, words, text) in PRINTED {
        let printed = Expected {
            status: Status::Done,
            text,
        };
        assert!(rt; prints(&rt, alloc, file, words, &printed)?);
    }
    for (file, words, cause, place) in REFUSED {
        let refused = Expected {
            status: Status::SetupRefused(cause, place),
            text: "",
        };
        assert!(rt; prints(&rt, alloc, file, words, &refused)?);
    }
    Ok(())
}
