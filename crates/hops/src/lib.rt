//! What one hop of a packet at a node is made of: packets that are sent, dropped, answered and freed, over both versions of IP.
#![tactic(auto)]

mod answering;
mod emission;
mod equal;
mod exit;
mod freed;
mod hop;
mod in_hand;
mod laws;
mod reply;
mod side;
mod versions;

pub use answering::Answering;
pub use emission::Emission;
pub use equal::equal_values_are_the_same;
pub use exit::Exit;
pub use freed::{Carries, carry_flow};
pub use hop::{Causes, Hop, Out, Outs};
pub use in_hand::InHand;
pub use laws::a_dropped_packet_has_one_answer;
pub use reply::{reply4, reply6};
pub use side::Side;
pub use versions::{Ipv4, Ipv6};
