//! Each keeper of a client's connection is a client of which only this is known, that it takes each part
//! of its manager's stream as its tables say, and says by itself what it may. Definitions and laws alone;
//! no code.
#![tactic(auto)]

mod laws;

pub use laws::{
    agents_are_free, joiners_are_free, joins_are_free, lives_of_agents_are_free,
    named_calls_are_free, named_joiners_are_free,
};
