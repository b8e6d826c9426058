//! The lines that the program prints for what went wrong.

use mapt_setup::SetupCause;
use mapt_tool::Status;
use outside::FileId;
use pcap_files::CaptureFault;
use std::test::Fail;

/// Each way in which a command ends.
const STATUSES: [(Status, &str); 9] = [
    (Status::Done, "done [Done]"),
    (
        Status::Usage(300),
        "usage: mapt replay C P, mapt rules C G, mapt owner C G A X or mapt options F [Usage(300)]",
    ),
    (
        Status::ReadFault(FileId::Config),
        "the configuration could not be read [ReadFault(Config)]",
    ),
    (
        Status::WriteFault(FileId::Report),
        "the report could not be written [WriteFault(Report)]",
    ),
    (
        Status::SetupRefused(SetupCause::EdgeName, 1),
        "refused: edge 1 has the name of an earlier edge [SetupRefused(EdgeName, 1)]",
    ),
    (
        Status::CaptureRefused(FileId::InLan(0), CaptureFault::Cut(3)),
        "the LAN capture of edge 0 is refused: record 3 is incomplete [CaptureRefused(InLan(0), Cut(3))]",
    ),
    (
        Status::TooLong(FileId::InLan(0)),
        "the LAN capture of edge 0 is too long: a file has at most 64 MiB, and all files of a command 128 MiB [TooLong(InLan(0))]",
    ),
    (Status::NoMemory, "out of memory [NoMemory]"),
    (
        Status::NotBuilt(FileId::InLan(0)),
        "the LAN capture of edge 0 is of a form that is not served yet [NotBuilt(InLan(0))]",
    ),
];

/// Each file.
const FILES: [(FileId, &str); 11] = [
    (FileId::Config, "the configuration"),
    (FileId::Options, "the option file"),
    (FileId::InLan(300), "the LAN capture of edge 300"),
    (FileId::InAccess, "the access network's capture"),
    (FileId::InCore, "the core's capture"),
    (FileId::OutLan(300), "the written LAN capture of edge 300"),
    (
        FileId::OutAccess,
        "the written capture of the access network",
    ),
    (FileId::OutCore, "the written capture of the core"),
    (
        FileId::OutUnrouted,
        "the written capture of unrouted packets",
    ),
    (FileId::Trace, "the trace"),
    (FileId::Report, "the report"),
];

/// Each fault of a capture.
const CAPTURE_FAULTS: [(CaptureFault, &str); 6] = [
    (CaptureFault::NotPcap, "not a pcap file"),
    (CaptureFault::BadVersion(2 * 65536 + 3), "pcap version 2.3"),
    (CaptureFault::BadLink(70_000), "link type 70000"),
    (CaptureFault::Cut(199_999), "record 199999 is incomplete"),
    (CaptureFault::TooManyRecords, "too many records"),
    (CaptureFault::NoMemory, "out of memory"),
];

/// Each cause for which a configuration or an option file is refused, at a place past 65,535, so that none is cut short.
const SETUP_CAUSES: [(SetupCause, &str); 22] = [
    (
        SetupCause::NotToml,
        "refused: the configuration is no TOML [SetupRefused(NotToml, 70000)]",
    ),
    (
        SetupCause::TooMany,
        "refused: the configuration has too many tables of a kind [SetupRefused(TooMany, 70000)]",
    ),
    (
        SetupCause::BadDomain,
        "refused: the domain of the configuration, or a name at its top, is not as it should be [SetupRefused(BadDomain, 70000)]",
    ),
    (
        SetupCause::BadRule,
        "refused: rule 70000 is not as it should be [SetupRefused(BadRule, 70000)]",
    ),
    (
        SetupCause::BadEdge,
        "refused: edge 70000 is not as it should be [SetupRefused(BadEdge, 70000)]",
    ),
    (
        SetupCause::BadForward,
        "refused: forward 70000 is not as it should be [SetupRefused(BadForward, 70000)]",
    ),
    (
        SetupCause::BadChange,
        "refused: change 70000 is not as it should be [SetupRefused(BadChange, 70000)]",
    ),
    (
        SetupCause::BadHex,
        "refused: the options are no hexadecimal octets from character 70000 on [SetupRefused(BadHex, 70000)]",
    ),
    (
        SetupCause::BadContainer,
        "refused: the options are no container that is accepted, by octet 70000 [SetupRefused(BadContainer, 70000)]",
    ),
    (
        SetupCause::RuleShape,
        "refused: the lengths and the offset of rule 70000 do not go together [SetupRefused(RuleShape, 70000)]",
    ),
    (
        SetupCause::Overlap4,
        "refused: the IPv4 prefix of rule 70000 overlaps that of an earlier rule [SetupRefused(Overlap4, 70000)]",
    ),
    (
        SetupCause::Overlap6,
        "refused: the IPv6 prefix of rule 70000 overlaps that of an earlier rule [SetupRefused(Overlap6, 70000)]",
    ),
    (
        SetupCause::OverlapDmr,
        "refused: the IPv6 prefix of rule 70000 overlaps that of the default mapping rule [SetupRefused(OverlapDmr, 70000)]",
    ),
    (
        SetupCause::EdgeName,
        "refused: edge 70000 has the name of an earlier edge [SetupRefused(EdgeName, 70000)]",
    ),
    (
        SetupCause::EdgeOverlap,
        "refused: the prefix of edge 70000 is longer than 64 bits or overlaps that of an earlier edge [SetupRefused(EdgeOverlap, 70000)]",
    ),
    (
        SetupCause::EdgeOverDmr,
        "refused: the prefix of edge 70000 overlaps that of the default mapping rule [SetupRefused(EdgeOverDmr, 70000)]",
    ),
    (
        SetupCause::ForwardEdge,
        "refused: forward 70000 names no edge [SetupRefused(ForwardEdge, 70000)]",
    ),
    (
        SetupCause::ForwardPort,
        "refused: the port of forward 70000 is not claimable at its edge [SetupRefused(ForwardPort, 70000)]",
    ),
    (
        SetupCause::ForwardTwice,
        "refused: forward 70000 has the port or the host end of an earlier forward [SetupRefused(ForwardTwice, 70000)]",
    ),
    (
        SetupCause::ChangeOrder,
        "refused: change 70000 comes before the one that is listed before it [SetupRefused(ChangeOrder, 70000)]",
    ),
    (
        SetupCause::ChangeRefused,
        "refused: the rules refuse change 70000 [SetupRefused(ChangeRefused, 70000)]",
    ),
    (
        SetupCause::NoGeneration,
        "refused: the configuration has no generation 70000 [SetupRefused(NoGeneration, 70000)]",
    ),
];

#[test]
fn fault_lines(rt: HostRuntime) -> Result<(), Fail> {
    let alloc = rt.alloc();
    for (status, line) in STATUSES {
        assert_eq!(rt; status.to_string(alloc)?.as_str(), line);
    }
    for (file, name) in FILES {
        assert_eq!(rt; file.to_string(alloc)?.as_str(), name);
    }
    for (fault, line) in CAPTURE_FAULTS {
        assert_eq!(rt; fault.to_string(alloc)?.as_str(), line);
    }
    for (cause, line) in SETUP_CAUSES {
        assert_eq!(rt;
            Status::SetupRefused(cause, 70_000)
                .to_string(alloc)?
                .as_str(),
            line
        );
    }
    Ok(())
}
