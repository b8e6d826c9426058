//! What holds of captures beyond one call. Each law is the contract of a function that does nothing.

ghost use Rattle.std.specs.Prelude.{◌≡◌, ◌≤◌, ℕ, List, ◌++◌, ◌<◌, ◌↔◌, All, Ok, Err, length};
ghost use Rattle.pcap_files.specs.declared.records.Record.{Record};
ghost use Rattle.pcap_files.specs.declared.fault.CaptureFault.{CaptureFault};
ghost use Rattle.pcap_files.specs.Grammar.{IsCapture, HasFault};
ghost use Rattle.pcap_files.specs.Written.{written, IsWritable};
ghost use Rattle.pcap_files.specs.Capture.{capture};

/// A written capture is read again as the records that were written.
pub fn written_is_read()
    ensures { (room : ℕ) (records : List Record)
        → All IsWritable records → length records ≤ room → capture room (written records) ≡ Ok records }
{}

/// Octets that follow a capture change none of its records: what is read of both together begins with
/// what is read of the first alone.
pub fn followers_change_nothing()
    ensures { (room : ℕ) (octets more : List ℕ) (records all : List Record)
        → capture room octets ≡ Ok records → capture room (octets ++ more) ≡ Ok all
        → (others : List Record) × (all ≡ records ++ others) }
{}

/// What is read and what the first fault is, by the grammar of captures, for any octets.
pub fn reading_is_by_the_grammar()
    ensures read { (room : ℕ) (octets : List ℕ) (records : List Record)
        → All (λ octet. octet < 256) octets → (capture room octets ≡ Ok records) ↔ IsCapture room octets records }
    ensures refused { (room : ℕ) (octets : List ℕ) (fault : CaptureFault)
        → All (λ octet. octet < 256) octets → (capture room octets ≡ Err fault) ↔ HasFault room octets fault }
{}
