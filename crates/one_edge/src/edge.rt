ghost use Rattle.std.specs.Prelude.{◌≡◌, Some};
ghost use Rattle.port_set.specs.PortSet.{rank_of};

use map_rules::EdgeId;
use octets::Mtus;
use rule_book::Book;

/// One customer edge, by the rules of its configuration.
#[derive(Drop)]
pub struct OneEdge {
    pub(crate) book: Book,
    pub(crate) holder: EdgeId,
    /// The least port that it may claim.
    pub(crate) least: u16,
    pub(crate) mtus: Mtus,
    pub ghost least_is: { rank_of holder.ports.a holder.ports.k holder.ports.psid least ≡ Some 0 },
}
