//! Laws over the definitions alone.

ghost use Rattle.rate_build.specs.Groups.{GroupTableIsTable};
ghost use Rattle.rate_build.specs.Laws.{CoefficientsAreOfLayout, TableIsTable, CodedIsReady, ChoiceHasIndices, FrameHasTableSize};

/// The coefficients of a picture have its layout, in every chroma format and interlace mode, with alpha and
/// without.
pub fn coefficients_are_of_layout()
    ensures { CoefficientsAreOfLayout }
{}

/// The table of coefficients is within the limits of tables.
pub fn table_is_table()
    ensures { TableIsTable }
{}

/// The table of a group of frames under one budget is within the limits of tables, if the budgets and the slices of
/// all its frames are.
pub fn group_table_is_table()
    ensures { GroupTableIsTable }
{}

/// What is coded with one index from 1 to 224 for each slice, as a choice of a table has them, can be written.
pub fn coded_can_be_written()
    ensures coded { CodedIsReady }
    ensures indices { ChoiceHasIndices }
{}

/// A frame that is coded with a choice of a table has the table's fixed bytes and the sizes of the chosen entries.
pub fn frame_has_table_size()
    ensures { FrameHasTableSize }
{}
