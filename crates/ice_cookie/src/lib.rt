//! The cookie by which a client shows that it may join, and the authority file from which the
//! client has it.
#![tactic(auto)]

mod authority;
mod cookies;
mod laws;
mod reading;
mod refusals;
mod spelling;

pub use authority::{AuthorityEntry, AuthorityList};
pub use cookies::Cookie;
pub use laws::{bytes_stand_for_one, entries_read_back};
pub use reading::read_authority;
pub use refusals::AuthorityRefusal;
pub use spelling::authority_bytes;
