//! What holds of translated packets beyond one call. Each law is the contract of a function that does nothing.

ghost use Rattle.std.specs.Prelude.{◌≡◌, ℕ, ◌<◌, Some};
ghost use Rattle.octets.specs.declared.address.Addr4.{Addr4 as Address};
ghost use Rattle.l4_headers.specs.declared.ports.Ports.{Ports as TwoPorts};
ghost use Rattle.l4_headers.specs.PseudoHeader.{pseudo_header4, pseudo_header6, IsRightOver};
ghost use Rattle.xlat64.specs.Whole.{Parts6, offset_of, IsCarried6, payload64, ArePorts};

/// A transport sum that is right over IPv6 is right over IPv4 once it was changed, in a whole packet and in a first
/// fragment, whose length is that of all fragments together.
pub fn a_right_sum_stays_right_over_ipv4()
    ensures { (p : Parts6) (src dst : Address) (ports : TwoPorts) (len later : ℕ) → IsCarried6 p → offset_of p ≡ 0
        → ArePorts ports → len < 65536
        → IsRightOver (pseudo_header6 p.head.src p.head.dst p.head.upper len) p.payload later
        → IsRightOver (pseudo_header4 src dst p.head.upper len) (payload64 p src dst (Some ports)) later }
{}
