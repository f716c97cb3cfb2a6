//! A relay between two parties that write their numbers in different orders.
#![tactic(auto)]

mod fault;
mod laws;
mod passing;
mod relay;
mod respeller;
mod respelling;
mod row;
mod serving;
mod turning;

pub use fault::RelayFault;
pub use laws::{
    byte_orders_are_told_by_their_bytes, each_side_gets_its_part,
    messages_are_passed_on_in_their_order, one_side_gets_what_comes_from_the_other,
    unspelled_frames_are_refused, what_was_respelled_is_decoded,
};
pub use respelling::{RespellFault, respell};
pub use serving::serve_relay;
pub use turning::Leading;
