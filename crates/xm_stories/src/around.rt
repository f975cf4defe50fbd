//! What lies around a command.
use std::alloc::Allocator;
use xm_rules::{Order, Phase, Stop, Widths};
use xm_ticks::Price;

/// What a command touches of the state before it.
#[derive(Drop)]
pub enum Touched<A: Allocator> {
    Nothing,
    /// The order that a change finds.
    Changing(Order),
    /// The orders and stops that leave by a cancellation or the end of the day, each in their order.
    Leaving(Vec<Order, A>, Vec<Stop, A>),
}

/// What a story asks of the state before its command.
#[derive(Drop)]
pub struct Before<A: Allocator> {
    pub phase: Phase,
    /// The number of sweeps and of price determinations that traded.
    pub sweeps: u64,
    /// The widths of the price ranges.
    pub widths: Widths,
    /// The last price.
    pub last: Price,
    pub touched: Touched<A>,
}

/// What it asks of the state after it, and the price that interrupted trading, or led a call to its next stage, where one did.
#[derive(Clone, Copy)]
pub struct After {
    pub phase: Phase,
    pub sweeps: u64,
    pub interruption: Option<Price>,
}

/// What is the same for all orders that come in between two states.
#[derive(Clone, Copy)]
pub(crate) struct Between {
    pub widths: Widths,
    /// The number of sweeps before the command, and the last price.
    pub sweeps: u64,
    pub last: Price,
    /// The number of sweeps behind the command, and the price of an interruption.
    pub sweeps_after: u64,
    pub interruption: Option<Price>,
}
