use pcap_files::Writer;

/// The captures of the access network and of the core.
#[derive(Debug, Drop)]
pub struct Captures {
    pub access: Writer,
    pub core: Writer,
}
