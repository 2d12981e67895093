//! Laws over the definitions alone.

ghost use Rattle.qt_tables.specs.Laws.{SamplesAreCounted, WrittenSamplesAreGiven, WrittenTablesAreRead};

/// Tables that agree have as many samples as sizes.
#[tactic(auto, using(crate::proofs::Again::samples_counted))]
pub fn samples_are_counted()
    ensures { SamplesAreCounted }
{}

/// The samples of written tables are those that were given.

pub fn written_samples_are_given()
    ensures { WrittenSamplesAreGiven }
{}

/// Written tables are read back.

pub fn written_tables_are_read()
    ensures { WrittenTablesAreRead }
{}
