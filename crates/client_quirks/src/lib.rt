//! What programs mean that don't keep to the letter of the session protocol: their properties as
//! they are meant, their answers to a logout that was called off, and the ends of those that leave too
//! early. It calls no device.
#![tactic(auto)]

mod amender;
mod answerer;
mod exchange;
mod heeding;
mod keeper;
mod meanings;
mod naming;
mod pieces;
mod quiet;
mod restarting;
mod side;
mod speech;
mod stage;
mod stand_in;
mod tongue;
mod views;

pub use amender::Amender;
pub use answerer::{Answerer, Answering, HandedOver};
pub use keeper::{Keeper, KeptEnd};
pub use meanings::{amended, is_amended};
pub use pieces::{PieceList, StreamPiece};
pub use quiet::Quiet;
pub use stage::Stage;
pub use stand_in::{StandIn, Stood};
