//! Where the steps of a picture are drawn, and the paths of messages to them (docs/formats.md, "Pictures").

mod guides;
mod paths;
mod senders;
mod sources;
mod spots;

pub use guides::put_guides;
pub use paths::{offset, put_receipt};
pub use senders::{Origin, comes_from_right, met};
pub use sources::{Sender, Source, source_of};
pub use spots::{Middle, Spot, in_row, lane_middle, middle_of, spot_at};
