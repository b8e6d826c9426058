//! What a node makes of a packet that it can't pass on as it is: an ICMP error, or fragments.
#![tactic(auto)]

mod cut;
mod equal;
mod error4;
mod error6;
mod notice;

pub use cut::cut6;
pub use equal::equal_values_are_the_same;
pub use error4::{answer4, fault4};
pub use error6::{answer6, fault6};
pub use notice::{Notice, Origin};
