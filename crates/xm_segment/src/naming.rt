//! Which segment a value is of, said by its type: what stands behind a lock is known by its type alone.
ghost use Rattle.std.specs.Prelude.{ℕ, List};

use std::marker::{Brand, PhantomData};
use std::sync::ledger::Ledger;
use xm_board::BoardNaming;

/// Which segment it is: the settings of its securities, and what names their ledgers and their boards.
pub trait Naming {
    ghost use Rattle.atomic_table.specs.Seated.{TableId};
    ghost use Rattle.std.specs.Prelude.{ℕ, List};
    ghost use Rattle.xm_rules.specs.declared.settings.DeskSettings.{DeskSettings};
    ghost use Rattle.xm_segment.specs.Ledgers.{LedgerNames};

    ghost settings: { List DeskSettings };

    ghost ledgers: { ℕ → LedgerNames };

    ghost boards: { ℕ → TableId };

    ghost workers: { ℕ };
}

impl Naming for Brand {
    ghost use Rattle.std.specs.Prelude.{[]};
    ghost use Rattle.xm_board.specs.Opened.{no_table};

    ghost settings = { [] };

    ghost ledgers = { λ _. record { accepted = 0; quantity = 0; money = 0 } };

    ghost boards = { λ _. no_table };

    ghost workers = { 0 };
}

/// Names the ledger of the commands that the desk with this index accepted.
pub struct AcceptedCount<S, const K: usize> {
    of: PhantomData<S>,
}

impl<S: Naming, const K: usize> Ledger for AcceptedCount<S, K> {
    ghost use Rattle.std.specs.Prelude.{◌+◌};

    ghost name = { (S.ledgers K).accepted };

    ghost parts = { S.workers + 1 };
}

/// Names the ledger of the units that were traded there.
pub struct Quantity<S, const K: usize> {
    of: PhantomData<S>,
}

impl<S: Naming, const K: usize> Ledger for Quantity<S, K> {
    ghost use Rattle.std.specs.Prelude.{◌+◌};

    ghost name = { (S.ledgers K).quantity };

    ghost parts = { S.workers + 1 };
}

/// Names the ledger of the money that was traded there, in ticks times units.
pub struct Money<S, const K: usize> {
    of: PhantomData<S>,
}

impl<S: Naming, const K: usize> Ledger for Money<S, K> {
    ghost use Rattle.std.specs.Prelude.{◌+◌};

    ghost name = { (S.ledgers K).money };

    ghost parts = { S.workers + 1 };
}

/// Names the board on which the quote of that security stands.
pub struct Quotes<S, const K: usize> {
    of: PhantomData<S>,
}

impl<S: Naming, const K: usize> BoardNaming for Quotes<S, K> {
    ghost table = { S.boards K };
}
