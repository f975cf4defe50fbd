//! Which board a value is of, said by its type.
use std::marker::Brand;

/// Which board it is. Each call of a program picks it, so that a pen and a watch of another board have other types.
pub trait BoardNaming {
    ghost use Rattle.atomic_table.specs.Seated.{TableId};

    ghost table: { TableId };
}

impl BoardNaming for Brand {
    ghost use Rattle.xm_board.specs.Opened.{no_table};

    ghost table = { no_table };
}
