//! Laws of the definitions, over all inputs. Each function promises one by its contract.
ghost use Rattle.std.specs.Prelude.{◌≡◌, ◌+◌, ◌<◌, ◌≤◌, ◌∷◌, ◌++◌, ℕ, List, [], Ok, Err, length, map};
ghost use Rattle.std.specs.List.{All};
ghost use Rattle.xm_files.specs.FileFaults.{own_fault};
ghost use Rattle.xm_files.specs.Names.{NameLists};
ghost use Rattle.xm_files.specs.OrderFiles.{StandsIn, behind_cut, orders_of_files, records_of_files, text_in_files};
ghost use Rattle.xm_files.specs.RecordTexts.{text_from};
ghost use Rattle.xm_files.specs.Orders.{later_orders, orders_from, orders_of, records_in};
ghost use Rattle.xm_files.specs.declared.bytes.TheConstants.{MAX_BYTES};
ghost use Rattle.xm_files.specs.declared.file_faults.FileFault.{FileFault};
ghost use Rattle.xm_files.specs.declared.orders.TheConstants.{MAX_RECORDS};
ghost use Rattle.xm_config.specs.declared.config.SegmentConfig.{SegmentConfig};
ghost use Rattle.xm_config.specs.declared.rows.Row.{Row};

/// A file that so many records come before gives what it gives alone, but that the numbers of its records count on: its rows, each
/// with a line raised by as many, or its fault, which is that of the file alone by the file's own number.
pub fn later_files_give_what_they_give_alone()
    ensures same { (names : NameLists) (config : SegmentConfig) (before : ℕ) (bytes : List ℕ)
        → orders_from names config (before + 1) bytes ≡ later_orders before (orders_of names config bytes) }
    ensures fault { (names : NameLists) (config : SegmentConfig) (before : ℕ) (bytes : List ℕ) (fault : FileFault)
        → orders_from names config (before + 1) bytes ≡ Err fault → orders_of names config bytes ≡ Err (own_fault before fault) }
{}

/// A file without a fault has fewer records than bytes, since its header takes eleven bytes at least, and each other record one: so the
/// records of 255 files are no more than may come before a file.
pub fn files_have_few_records()
    ensures { (names : NameLists) (config : SegmentConfig) (first : ℕ) (bytes : List ℕ) (rows : List Row)
        → orders_from names config first bytes ≡ Ok rows → length (records_in bytes) ≤ MAX_RECORDS }
{}

/// A day of one order file gives what the file gives.
pub fn a_lone_file_is_a_day()
    ensures rows { (names : NameLists) (config : SegmentConfig) (bytes : List ℕ) (rows : List Row)
        → orders_of names config bytes ≡ Ok rows → orders_of_files names config (bytes ∷ []) ≡ Ok rows }
    ensures fault { (names : NameLists) (config : SegmentConfig) (bytes : List ℕ) (fault : FileFault)
        → orders_of names config bytes ≡ Err fault → orders_of_files names config (bytes ∷ []) ≡ Err (record { file = 1; fault = fault }) }
{}

/// A file that has no fault may be cut in two behind any record, where the second part has the header again: the rows of both are those of
/// the whole, but that those behind the cut stand one line later.
pub fn a_file_may_be_cut()
    ensures { (names : NameLists) (config : SegmentConfig) (header : List (List ℕ)) (a b : List (List (List ℕ))) (whole first second : List ℕ) (rows : List Row)
        → records_in whole ≡ header ∷ (a ++ b) → orders_of names config whole ≡ Ok rows
        → records_in first ≡ header ∷ a → length first ≤ MAX_BYTES → records_in second ≡ header ∷ b → length second ≤ MAX_BYTES
        → orders_of_files names config (first ∷ second ∷ []) ≡ Ok (map (behind_cut (length a + 1)) rows) }
{}

/// The rows of a file stand behind its header, and before whatever comes behind the file.
pub fn rows_stand_in_their_file()
    ensures { (names : NameLists) (config : SegmentConfig) (first : ℕ) (bytes : List ℕ) (rows : List Row)
        → orders_from names config first bytes ≡ Ok rows → All (StandsIn first (first + length (records_in bytes))) rows }
{}

/// The free text of a record that is counted among those of all files is what its own file says, and no file behind it changes it.
pub fn texts_stand_in_their_file()
    ensures own { (done : List (List ℕ)) (bytes : List ℕ) (more : List (List ℕ)) (line : ℕ)
        → records_of_files done < line → line ≤ records_of_files done + length (records_in bytes)
        → text_in_files (done ++ bytes ∷ more) line ≡ text_from (records_of_files done + 1) bytes line }
    ensures earlier { (done more : List (List ℕ)) (line : ℕ)
        → 0 < line → line ≤ records_of_files done → text_in_files (done ++ more) line ≡ text_in_files done line }
{}
