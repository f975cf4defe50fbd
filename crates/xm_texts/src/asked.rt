//! Which texts of a day are asked for.
ghost use Rattle.std.specs.Prelude.{◌≡◌, false};

/// Which texts are asked for beside the statement of a day: the answers to its rows, their trades, the events of its orders, and the
/// levels behind its rows.
#[derive(Clone, Copy, PartialEq, Eq, Debug)]
pub struct AskedTexts {
    pub answers: bool,
    pub trades: bool,
    pub events: bool,
    pub depth: bool,
}

impl AskedTexts {
    /// The statement alone.
    pub fn nothing() -> AskedTexts
        ensures answers { result.answers ≡ false }
        ensures trades { result.trades ≡ false }
        ensures events { result.events ≡ false }
        ensures depth { result.depth ≡ false }
    {
        AskedTexts {
            answers: false,
            trades: false,
            events: false,
            depth: false,
        }
    }
}
