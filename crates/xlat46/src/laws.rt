//! What holds of translated packets beyond one call. Each law is the contract of a function that does nothing.

ghost use Rattle.std.specs.Prelude.{◌≡◌, ℕ, ◌<◌, true, false, Some, length};
ghost use Rattle.octets.specs.declared.address.Addr6.{Addr6 as Address};
ghost use Rattle.l4_headers.specs.declared.ports.Ports.{Ports as TwoPorts};
ghost use Rattle.l4_headers.specs.PseudoHeader.{pseudo_header4, pseudo_header6, IsRightOver};
ghost use Rattle.xlat46.specs.Whole.{Parts4, IsCarried4, has_no_sum, payload46, ArePorts};

/// A transport sum that is right over IPv4 is right over IPv6 once it was changed, in a whole packet and in a first
/// fragment, whose length is that of all fragments together. One that had to be computed is right too.
pub fn a_right_sum_stays_right_over_ipv6()
    ensures changed { (p : Parts4) (src dst : Address) (ports : TwoPorts) (len later : ℕ) → IsCarried4 p
        → p.head.offset ≡ 0 → ArePorts ports → has_no_sum p ≡ false → len < 65536
        → IsRightOver (pseudo_header4 p.head.src p.head.dst p.head.proto len) p.payload later
        → IsRightOver (pseudo_header6 src dst p.head.proto len) (payload46 p src dst (Some ports)) later }
    ensures computed { (p : Parts4) (src dst : Address) (ports : TwoPorts) → IsCarried4 p → p.head.offset ≡ 0
        → ArePorts ports → has_no_sum p ≡ true
        → IsRightOver (pseudo_header6 src dst 17 (length p.payload)) (payload46 p src dst (Some ports)) 0 }
{}
