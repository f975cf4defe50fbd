//! Tests of the public calls of the crates below the desk. They stand in a crate of their own, so that a crate is proved once
//! and not again with its tests.
#![tactic(auto)]

#[cfg(test)]
mod auction;
#[cfg(test)]
mod board;
#[cfg(test)]
mod book;
#[cfg(test)]
mod ladders;
#[cfg(test)]
mod matching;
#[cfg(test)]
mod names;
#[cfg(test)]
mod openings;
#[cfg(test)]
mod positions;
#[cfg(test)]
mod prices;
#[cfg(test)]
mod queues;
#[cfg(test)]
mod refusing;
#[cfg(test)]
mod stops;
#[cfg(test)]
mod ticks;
