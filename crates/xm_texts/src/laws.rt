//! Laws of the definitions, over all inputs. Each function promises one by its contract.
ghost use Rattle.std.specs.Prelude.{◌≡◌, List, Ok, map};
ghost use Rattle.xm_files.specs.Carry.{carry_of, with_lists};
ghost use Rattle.xm_files.specs.Names.{NameLists};
ghost use Rattle.xm_rules.specs.Step.{Journal, replay};
ghost use Rattle.xm_config.specs.declared.config.SegmentConfig.{SegmentConfig};
ghost use Rattle.xm_texts.specs.Carry.{CanBeRead, carry_text, carried_forward};

/// What a day leaves is what the next day reads: the carry file of lawful journals gives each security the orders and stops of its
/// journal's replay that are valid beyond the day, in their order, and no others. Premises: the names are those that a segment file
/// may have; each journal is of the security with its index, has that security's tick, and knows no more members than have names;
/// references have 32 bits, and dates eight digits; no security leaves more than a security takes, and the file is no longer than one
/// that is read.
pub fn carry_files_give_back_what_was_left()
    ensures { (names : NameLists) (config : SegmentConfig) (journals : List Journal) → CanBeRead names config journals
        → carry_of names config (carry_text names (map replay journals))
        ≡ Ok (record config { securities = with_lists config.securities (map carried_forward (map replay journals)) }) }
{}
