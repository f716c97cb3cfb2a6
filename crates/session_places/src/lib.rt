//! Where a client finds its session's manager: the addresses that SESSION_MANAGER lists, the authority
//! file, and the cookie that this file has for an address.
#![tactic(auto)]

mod addresses;
mod authority;
mod cookies;
mod places;
mod splitting;

pub use addresses::session_places;
pub use authority::authority_path;
pub use cookies::{CookieRefusal, session_cookie};
pub use places::{PlaceList, SessionPlace, SocketName};
