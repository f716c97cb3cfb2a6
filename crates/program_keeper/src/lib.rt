//! The keeper of one program that knows no session: it speaks for it as its client, and talks with its
//! user by asking the program's windows to close.
#![tactic(auto)]

mod acts;
mod going;
mod heeding;
mod keeper;
mod laws;
mod program;
mod progress;
mod saying;
mod taking;
mod talk;
mod windows;

pub use acts::{KeeperAct, KeeperActs, KeeperFault};
pub use keeper::ProgramKeeper;
pub use laws::{
    acts_are_due, closes_are_few, pieces_make_no_difference, rows_are_worked, saves_are_answered,
    starts_are_earned, talks_end_rightly,
};
pub use talk::{Move, UserTalk};
pub use windows::{Window, WindowKind, WindowList, WindowNumbers};
