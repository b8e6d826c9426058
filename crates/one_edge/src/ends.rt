ghost use Rattle.std.specs.Prelude.{◌≡◌, IfSome, IfNone};
ghost use Rattle.one_edge.specs.Edge.{edge_in, IsEdgeUnder, LacksEdge, outside_port, own4, own6, far6};
ghost use Rattle.one_edge.specs.Crossed.{ports_outside};

use crate::OneEdge;
use l4_headers::Ports;
use octets::{Addr4, Addr6, Mtus, Prefix6};
use rule_book::{Book, RuleView};

impl OneEdge {
    /// The edge with this prefix under this book's rules. `None` exactly where no rule gives it an address and a port
    /// set, or the set has no port that it may claim (RFC 7597, section 5.2).
    pub fn of(book: Book, prefix: Prefix6, mtus: Mtus) -> Option<OneEdge>
        ensures found { IfSome result (λ one. IsEdgeUnder book prefix mtus (edge_in one)) }
        ensures lacking { IfNone result (LacksEdge book prefix) }
    {
        let Some(holder) = book.edge_of(prefix) else {
            return None;
        };
        let Some(least) = holder.ports.at(0) else {
            return None;
        };
        Some(OneEdge {
            book,
            holder,
            least,
            mtus,
        })
    }

    /// The outside port of the only host end of a protocol.
    fn outside_port(&self, inside: u16) -> u16
        ensures { result ≡ outside_port (edge_in self.now) inside }
    {
        if self.holder.ports.claimable(inside) {
            inside
        } else {
            self.least
        }
    }

    /// The ports of a packet that leaves.
    pub(crate) fn ports(&self, inside: Ports) -> Ports
        ensures { result ≡ ports_outside (edge_in self.now) inside }
    {
        Ports {
            src: self.outside_port(inside.src),
            dst: inside.dst,
        }
    }

    /// The edge's IPv4 address, which other edges may hold with other ports.
    pub(crate) fn own4(&self) -> Addr4
        ensures { result ≡ own4 (edge_in self.now) }
    {
        self.holder.addr
    }

    /// The edge's MAP address.
    pub(crate) fn own6(&self) -> Addr6
        ensures { result ≡ own6 (edge_in self.now) }
    {
        self.holder.own6
    }

    /// A far IPv4 address as the access network sees it.
    pub(crate) fn far6(&self, addr: Addr4) -> Addr6
        ensures { result ≡ far6 (edge_in self.now) addr }
    {
        self.book.dmr().embed(addr)
    }
}
