//! What holds of all watches. Each of these functions has an empty body, and its clause is the law.
ghost use Rattle.std.specs.Prelude.{◌≡◌, ◌≢◌, ℕ, Some, slice_get};
ghost use Rattle.xm_board.specs.Journals.{Begins, HasOwnEntries};
ghost use Rattle.xm_board.specs.declared.journal.Entry.{Entry};
ghost use Rattle.xm_board.specs.declared.journal.NumberedJournal.{NumberedJournal};
ghost use Rattle.xm_board.specs.declared.watch.Known.{Known};

/// Watches of two numbers that have each seen a beginning of one journal have no own entry in common: no two of theirs stand at
/// one version.
pub fn watches_of_two_numbers_share_no_own_entry()
    ensures { (j : NumberedJournal) (a b : Known) → HasOwnEntries a → HasOwnEntries b → Begins a.seen j → Begins b.seen j → a.number ≢ b.number
        → (k l : ℕ) (x y : ℕ × Entry) → slice_get a.own_entries k ≡ Some x → slice_get b.own_entries l ≡ Some y → x.0 ≢ y.0 }
{}
