//! What the definitions give on worked examples.
ghost use Rattle.std.specs.Prelude.{◌≡◌, codes, false, true, None, Some};
ghost use Rattle.xm_program.specs.Examples.{a_device, a_file, another_device, another_file, descriptors};
ghost use Rattle.xm_program.specs.Places.{is_one_file, is_statements};

/// Two paths lead to one file where they are the same, also where nothing lies there yet, and where one device has the same number at
/// both.
pub fn paths_to_one_file()
    ensures same { is_one_file (codes "a.csv") None (codes "a.csv") None ≡ true }
    ensures nothing { is_one_file (codes "a.csv") None (codes "b.csv") None ≡ false }
    ensures link { is_one_file (codes "a.csv") (Some a_file) (codes "b.csv") (Some a_file) ≡ true }
    ensures number { is_one_file (codes "a.csv") (Some a_file) (codes "b.csv") (Some another_file) ≡ false }
    ensures device { is_one_file (codes "a.csv") (Some a_file) (codes "b.csv") (Some another_device) ≡ false }
    ensures unmade { is_one_file (codes "a.csv") (Some a_file) (codes "b.csv") None ≡ false }
{}

/// The statement's is the file that standard output goes to, and where this is closed each file. A device may take more than one text,
/// and where the system tells of no descriptors nothing is known.
pub fn files_of_the_statement()
    ensures file { is_statements (Some a_file) (Some descriptors) (Some a_file) ≡ true }
    ensures another { is_statements (Some another_file) (Some descriptors) (Some a_file) ≡ false }
    ensures unmade { is_statements None (Some descriptors) (Some a_file) ≡ false }
    ensures device { is_statements (Some a_device) (Some descriptors) (Some a_device) ≡ false }
    ensures closed { is_statements None (Some descriptors) None ≡ true }
    ensures untold { is_statements (Some a_file) None None ≡ false }
{}
