//! Where an X display is, by what DISPLAY says, and the cookie that an X authority file has for it.
#![tactic(auto)]

mod authority;
mod cookies;
mod fronts;
mod laws;
mod names;
mod places;
mod refusals;
mod sockets;
mod splitting;
mod tails;

pub use authority::{DisplayEntry, DisplayEntryList, Family, read_entries};
pub use cookies::{IpAddress, entry_for};
pub use laws::{a_text_names_one_display, bytes_hold_one_list, own_cookies_stay_here};
pub use names::read_display;
pub use places::{DisplayName, Place};
pub use refusals::DisplayRefusal;
pub use sockets::socket_names;
