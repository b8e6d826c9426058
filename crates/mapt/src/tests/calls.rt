//! Calls of the outside that fail, and real files and texts.

use super::files::{HOME, PLAIN, capture_of, text_of, words_of};
use mapt_tool::{Status, mapt_plain};
use octets::Bytes;
use outside::{FileId, Folder, MemFolder, MemSink, RealFolder, RealSink, Sink};
use std::alloc::Global;
use std::test::Fail;

#[test]
fn calls_that_fail(rt: HostRuntime) -> Result<(), Fail> {
    let alloc = rt.alloc();
    let lan = capture_of(&rt, alloc, &[&PLAIN])?;
    let words = words_of(alloc, &["replay", "home.toml", "out-"])?;
    let text = text_of(alloc, &HOME)?;
    let config = Status::ReadFault(FileId::Config);
    let capture = Status::ReadFault(FileId::InLan(0));
    // Each file takes one read of its octets and one of its end.
    for (call, want) in [
        (0, config),
        (1, config),
        (2, capture),
        (3, capture),
        (4, Status::Done),
    ] {
        let mut folder = MemFolder::new(alloc, vec![in alloc; call]?, vec![in alloc]?);
        folder.put_file("home.toml", text.as_bytes())?;
        folder.put_file("lan-home.pcap", lan.as_slice())?;
        let mut out = MemSink::new(alloc, vec![in alloc; 0]?);
        let status = mapt_plain(alloc, &words, &mut folder, &mut out);
        assert_eq!(rt; status, want, "read {call}");
        assert_eq!(rt;
            folder.file("out-access.pcap").is_some(),
            want == Status::Done
        );
    }
    let mut folder = MemFolder::new(alloc, vec![in alloc]?, vec![in alloc; 0]?);
    folder.put_file("home.toml", text.as_bytes())?;
    let mut out = MemSink::new(alloc, vec![in alloc; 0]?);
    let status = mapt_plain(alloc, &words, &mut folder, &mut out);
    assert_eq!(rt; status, capture, "a file that isn't there");
    folder.put_file("lan-home.pcap", lan.as_slice())?;
    let status = mapt_plain(alloc, &words, &mut folder, &mut out);
    assert_eq!(rt; status, Status::WriteFault(FileId::OutAccess));
    assert_eq!(rt; folder.file("out-access.pcap"), None);
    assert_eq!(rt; folder.file("out-core.pcap"), None);
    assert!(rt; out.put(alloc, b"text").is_err());
    assert!(rt; out.put(alloc, b"text").is_ok());
    assert_eq!(rt; out.as_slice(), b"text".as_slice());
    Ok(())
}

/// The home's configuration with a comment at its end, of this length.
fn of_length(alloc: Global, length: usize) -> Result<Bytes, Fail> {
    let mut octets = Bytes::new(alloc);
    octets.extend(text_of(alloc, &HOME)?.as_bytes())?;
    octets.push(b'#')?;
    for _ in octets.as_slice().len()..length {
        octets.push(b' ')?;
    }
    Ok(octets)
}

#[test]
fn a_file_is_read_in_pieces_of_65_536_octets(rt: HostRuntime) -> Result<(), Fail> {
    let alloc = rt.alloc();
    let words = words_of(alloc, &["rules", "home.toml", "0"])?;
    // The third read fails, which a file of one piece doesn't take: it is read, and then its end.
    for (length, want) in [
        (65_536, Status::Done),
        (65_537, Status::ReadFault(FileId::Config)),
    ] {
        let mut folder = MemFolder::new(alloc, vec![in alloc; 2]?, vec![in alloc]?);
        folder.put_file("home.toml", of_length(alloc, length)?.as_slice())?;
        let mut out = MemSink::new(alloc, vec![in alloc]?);
        let status = mapt_plain(alloc, &words, &mut folder, &mut out);
        assert_eq!(rt; status, want, "{length} octets");
    }
    Ok(())
}

#[test]
fn real_files_are_read_again(rt: HostRuntime) -> Result<(), Fail> {
    let alloc = rt.alloc();
    let name = "real-folder-test";
    let mut folder = RealFolder::new(&rt);
    assert!(rt;
        folder
            .write(alloc, FileId::OutAccess, name, b"some text")
            .is_ok()
    );
    let mut buf = [0u8; 6];
    assert_eq!(rt;
        folder
            .read_at(alloc, FileId::InCore, name, 5, &mut buf)
            .ok(),
        Some(4)
    );
    assert_eq!(rt; buf.as_slice(), b"text\0\0".as_slice());
    assert_eq!(rt;
        folder
            .read_at(alloc, FileId::InCore, name, 9, &mut buf)
            .ok(),
        Some(0)
    );
    let missing = folder.read_at(alloc, FileId::InCore, "no-such-file", 0, &mut buf);
    assert!(rt; missing.is_err());
    Ok(())
}

#[test]
fn text_is_put_on_the_real_sink(rt: HostRuntime) {
    let mut out = RealSink::new(&rt);
    assert!(rt; out.put(rt.alloc(), b"text on standard output\n").is_ok());
}
