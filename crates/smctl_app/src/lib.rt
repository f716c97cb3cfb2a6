//! What `smctl` asks a session manager, what it shows of the answers, and the statuses.
#![tactic(auto)]

mod asking;
mod client_line;
mod clients;
mod connection;
mod control;
mod fault;
mod request;
mod table;
mod waiting;

pub use asking::{carry_out, run};
pub use client_line::{ClientLine, read_client_line};
pub use clients::wait_for_end;
pub use connection::ControlConnection;
pub use control::{Control, Look, Talk};
pub use fault::Fault;
pub use request::{Request, Task, read_request};
pub use table::table_of;
pub use waiting::{Course, Glance, Logout, read_course, waited_for};
