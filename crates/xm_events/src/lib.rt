//! What happens by a command, in the order in which it does: to orders, to stops, and to the phase of the security.
//!
//! `events` has the types, `specs/Story.antt` the definition: beside each definition of the model that changes a state it has one that
//! lists what happens by it. `laws` promises that nothing is lost: what an order had before a command is what the events take of it and
//! what is left. `specs/SeenStory.antt` puts the same events together from what is seen after a command, without the books between.
#![tactic(auto)]

mod events;
pub mod examples;
pub mod laws;
pub mod seen_examples;

pub use crate::events::{Deletion, Entry, Event, Fill, PriceRange};
