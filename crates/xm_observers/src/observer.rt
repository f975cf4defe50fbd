//! Who sees the rows of a day.
use std::alloc::Global;
use xm_config::Row;
use xm_desk::Desk;
use xm_memory::OutOfMemory;
use xm_rules::{Refusal, Reply};

/// Who sees the rows of a day, each as it is taken. A clause knows it by what it has seen.
pub trait Observer: Sized + Drop {
    ghost use Rattle.std.specs.Prelude.{◌≡◌, ◌+◌, ◌<◌, ◌≤◌, ◌^◌, ℕ, IfOk, OnOk, map};
    ghost use Rattle.xm_config.specs.Day.{Day, after_row, counted, day_of};
    ghost use Rattle.xm_config.specs.declared.rows.Row.{Row};

    /// What is seen of rows.
    ghost Seen: { Type 0 };

    /// What it has seen.
    ghost seen: { Self → Seen };

    /// What is seen with one row more, by the day before it.
    ghost next: { Seen → Day → Row → Seen };

    /// How many rows it counts, at most.
    ghost rows: { Seen → ℕ };

    /// Has the security of a row answer it, and sees what comes of it. `OutOfMemory` tells that a growth was refused.
    fn take(
        &mut self,
        desks: &mut [Desk<Global>],
        row: &Row,
    ) -> Result<Result<Reply, Refusal>, OutOfMemory>
        requires room { rows (seen self.old) + 1 < 2 ^ 64 }
        ensures taken { IfOk result (λ answer. (accepted refused : ℕ) → after_row (day_of desks.old accepted refused) row.now ≡ counted (day_of desks.new accepted refused) answer) }
        ensures seen { OnOk result ((accepted refused : ℕ) → seen self.new ≡ next (seen self.old) (day_of desks.old accepted refused) row.now) }
        ensures rows { OnOk result (rows (seen self.new) ≤ rows (seen self.old) + 1) };
}
