//! Tests of the public calls of `xm_files`, `xm_day` and `xm_program`. They stand in a crate of their own, so that each crate
//! is proved once and not again with its tests, and those of the desk are proved beside them.
#![tactic(auto)]

/// A segment file of one security, with this dynamic width in thousandths.
macro_rules! segment {
    ($dynamic:expr) => {
        concat!(
            "date = 20260105
members = [\"AAA\", \"BBB\"]

[[security]]
name = \"XYZ\"
tick = 100
reference = \"10.00\"
dynamic = ",
            $dynamic,
            "
static = 50
wide = 40
journal = 100
"
        )
    };
}

/// A segment file of these members, and of securities with these names, each with its dynamic width in thousandths.
macro_rules! securities {
    ($members:expr, $($name:expr => $dynamic:expr),+) => {
        concat!(
            "date = 20260105
members = [",
            $members,
            "]
",
            $(
                "
[[security]]
name = \"",
                $name,
                "\"
tick = 100
reference = \"10.00\"
dynamic = ",
                $dynamic,
                "
static = 200
wide = 150
journal = 1000
"
            ),+
        )
    };
}

/// An order file of these rows.
macro_rules! orders {
    ($rows:expr) => {
        concat!(
            "command,member,reference,security,side,kind,limit,trigger,quantity,validity,restriction,condition\n",
            $rows
        )
    };
}

/// An order file of the second format, of these rows.
macro_rules! second_orders {
    ($rows:expr) => {
        concat!(
            "command,member,reference,security,side,kind,limit,trigger,quantity,validity,restriction,condition,text\n",
            $rows
        )
    };
}

/// A carry file of these orders and stops.
macro_rules! carried {
    ($entries:expr) => {
        concat!(
            "security,member,reference,side,kind,limit,trigger,quantity,validity,restriction\n",
            $entries
        )
    };
}

#[cfg(test)]
mod day;
#[cfg(test)]
mod files;
#[cfg(test)]
mod memory;
#[cfg(test)]
mod program;
