ghost use Rattle.std.specs.Prelude.{◌≡◌, ◌≤◌, length};
ghost use Rattle.client_engine.specs.Hearing.{arrived};
ghost use Rattle.client_engine.specs.Places.{is_listening, phase_at};

use client_machine::{Client, ClientPhase};
use ice_setup::{AnyOpener, Joined, Offending};
use ice_values::Array8;

/// Where a client stands towards its manager.
#[derive(Drop)]
pub enum Place {
    /// The connection is being set up. The client will register with this previous ID, or with none.
    Opening(AnyOpener, Array8),
    /// The client has joined, and speaks XSMP.
    Speaking(Joined, Client),
    /// The client takes nothing more.
    Stopped,
}

/// What is counted of a stream.
#[derive(Clone, Copy, Debug)]
pub struct Counts {
    /// The number of the last frame, 0 before the first; after 4,294,967,295 comes 0.
    pub sequence: u32,
    /// The byte of the stream at which the next frame begins, counted from 0. A place behind
    /// 18,446,744,073,709,551,615 is told as that number.
    pub at: u64,
}

/// A frame that came.
#[derive(Clone, Copy, Debug)]
pub struct Arrival {
    /// The byte of the stream at which it begins.
    pub at: u64,
    /// What an Error names of it.
    pub offending: Offending,
    /// What is counted then.
    pub counts: Counts,
}

/// How far a client has come with its manager's stream.
#[derive(Drop)]
pub struct Talk {
    pub place: Place,
    pub counts: Counts,
}

impl Counts {
    /// A frame came.
    pub(crate) fn arrive(self, frame: &[u8]) -> Arrival
        requires { 8 ≤ length frame.now }
        ensures { result ≡ arrived self frame.now }
    {
        let sequence = self.sequence.wrapping_add(1);
        Arrival {
            at: self.at,
            offending: Offending {
                minor: frame[1],
                sequence,
            },
            counts: Counts {
                sequence,
                at: self.at.saturating_add(frame.len() as u64),
            },
        }
    }
}

impl Place {
    /// Whether frames are taken.
    pub fn is_listening(&self) -> bool
        ensures { result ≡ is_listening self.now }
    {
        match self {
            Place::Opening(_, _) => true,
            Place::Speaking(_, _) => true,
            Place::Stopped => false,
        }
    }

    /// The phase of the client: `Registering` until it has joined, and `Dead` once it takes nothing
    /// more.
    pub fn phase(&self) -> ClientPhase
        ensures { result ≡ phase_at self.now }
    {
        match self {
            Place::Opening(_, _) => ClientPhase::Registering,
            Place::Speaking(_, client) => client.phase(),
            Place::Stopped => ClientPhase::Dead,
        }
    }
}
