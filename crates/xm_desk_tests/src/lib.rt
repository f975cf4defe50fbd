//! Tests of the public calls of `xm_desk` and `xm_segment`. They stand in a crate of their own, so that these are proved once
//! and not again with their tests.
#![tactic(auto)]

/// The entry of a free buy order for the day: member, reference, limit and quantity.
macro_rules! buy {
    ($member:expr, $reference:expr, $limit:expr, $quantity:expr) => {
        limited!(Side::Buy, $member, $reference, $limit, $quantity)
    };
}

/// The entry of a free sell order for the day: member, reference, limit and quantity.
macro_rules! sell {
    ($member:expr, $reference:expr, $limit:expr, $quantity:expr) => {
        limited!(Side::Sell, $member, $reference, $limit, $quantity)
    };
}

/// The entry of a free order for the day.
macro_rules! limited {
    ($side:expr, $member:expr, $reference:expr, $limit:expr, $quantity:expr) => {
        Command::Enter {
            member: $member,
            reference: $reference,
            side: $side,
            kind: Kind::Limit($limit),
            quantity: $quantity,
            validity: Validity::Day,
            restriction: Restriction::Free,
            condition: Condition::Plain,
        }
    };
}

/// The entry of a free order for the day, of any kind and condition.
macro_rules! enter {
    ($side:ident, $member:expr, $reference:expr, $kind:expr, $quantity:expr, $condition:ident) => {
        Command::Enter {
            member: $member,
            reference: $reference,
            side: Side::$side,
            kind: $kind,
            quantity: $quantity,
            validity: Validity::Day,
            restriction: Restriction::Free,
            condition: Condition::$condition,
        }
    };
}

/// The entry of a book-or-cancel order for the day.
macro_rules! boc {
    ($side:ident, $member:expr, $reference:expr, $limit:expr, $quantity:expr) => {
        enter!(
            $side,
            $member,
            $reference,
            Kind::Limit($limit),
            $quantity,
            Boc
        )
    };
}

/// The entry of a stop for the day, of this kind.
macro_rules! stop {
    ($side:ident, $member:expr, $reference:expr, $kind:expr, $quantity:expr) => {
        enter!($side, $member, $reference, $kind, $quantity, Plain)
    };
}

macro_rules! cancel {
    ($member:expr, $reference:expr) => {
        Command::Cancel {
            member: $member,
            reference: $reference,
        }
    };
}

macro_rules! change {
    ($member:expr, $reference:expr, $quantity:expr, $limit:expr) => {
        Command::Change {
            member: $member,
            reference: $reference,
            quantity: $quantity,
            limit: $limit,
        }
    };
}

#[cfg(test)]
mod desk;
#[cfg(test)]
mod segment;
