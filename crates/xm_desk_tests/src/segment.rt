//! Tests of a segment: commands that workers give, each under the lock of its security, and what is gathered at the end.
mod crowd;
mod held;
mod many;
mod noted;
mod opening;
mod running;
mod trading;
