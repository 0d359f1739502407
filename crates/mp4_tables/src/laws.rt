//! Laws of the definitions: contracts that functions without a body meet.
ghost use Rattle.mp4_tables.specs.format.FirstFaultLaws.{PassedTablesFit, FittingTablesPass, FailedTableTestStands};

/// Where no test of the tables of a track fails, each leaf is sound, they keep all rules, and
/// there is room for their samples.
pub fn passed_tables_fit()
    ensures { PassedTablesFit }
{}

/// No test fails of the tables of a track that are sound, keep all rules, and for whose samples
/// there is room.
pub fn fitting_tables_pass()
    ensures { FittingTablesPass }
{}

/// The first test of the tables of a track that fails names a fault that stands.
pub fn failed_table_test_stands()
    ensures { FailedTableTestStands }
{}
