//! The windows of an X display, as what the display says lets them be known.
#![tactic(auto)]

mod answering;
mod asked;
mod atoms;
mod facts;
mod follower;
mod following;
mod hearing;
mod kinds;
mod laws;
mod mode;
mod names;
mod news;
mod question;
mod reading;
mod requests;
mod views;
mod windows;
mod wishes;

pub use asked::AskedQueue;
pub use atoms::Atoms;
pub use facts::{Fact, WindowFacts, WindowState};
pub use follower::{FollowFault, Follower, Took};
pub use kinds::{Kind, kind_of};
pub use laws::{windows_are_followed, windows_as_they_were_met};
pub use mode::Mode;
pub use names::{
    Name, NumberProperty, RootProperty, TextProperty, WindowProperty, WindowType, Word, spelling,
};
pub use news::News;
pub use question::{Question, QuestionList};
pub use reading::{read_fact, read_numbers};
pub use requests::{RequestList, request_of, requests_of};
pub use windows::{Followed, Windows};
pub use wishes::Wish;
