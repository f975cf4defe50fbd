//! A number of workers or of threads.
ghost use Rattle.std.specs.Prelude.{◌≡◌, ℕ, ◌≤◌, SomeIff};
ghost use Rattle.xm_config.specs.declared.opening.TheConstants.{MAX_WORKERS};

use std::marker::Model;
use xm_config::MAX_WORKERS;

/// A number of workers or of threads, 1 to `MAX_WORKERS`. A clause sees the number.
#[derive(Clone, Copy, PartialEq, Eq, Debug)]
pub struct Count {
    number: u32,
}

impl Model for Count {
    ghost Value = { ℕ };

    ghost view = { λ c. c.number };

    ghost invariant = { λ c. (1 ≤ c.number) × (c.number ≤ MAX_WORKERS) };

    ghost inverse = { λ n. record { number = n } };
}

impl Count {
    /// So many, if the number is in range.
    pub fn new(number: u32) -> Option<Count>
        ensures { SomeIff result ((1 ≤ number) × (number ≤ MAX_WORKERS)) number }
    {
        if (1..=MAX_WORKERS).contains(&number) {
            Some(Count { number })
        } else {
            None
        }
    }

    /// So many, or the nearest number in range.
    pub(crate) fn nearest(number: usize) -> Count {
        Count {
            number: number.clamp(1, MAX_WORKERS as usize) as u32,
        }
    }

    /// The number.
    pub fn get(self) -> u32
        ensures value { result ≡ self }
        ensures low { 1 ≤ result }
        ensures high { result ≤ MAX_WORKERS }
    {
        self.number
    }
}
