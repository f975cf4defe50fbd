//! What the definitions give on worked examples. Each function promises one by its contract.
pub mod book_or_cancel;
pub mod calls;
pub mod carried;
pub mod days;
pub mod refusals;
pub mod replays_of_calls;
pub mod sweeps;
