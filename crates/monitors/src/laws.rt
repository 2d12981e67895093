//! Laws over the definitions alone. The functions have no effect; their contracts are the laws.

ghost use Rattle.monitors.specs.States.{StepsInOrder, ReportsAllPictures};
ghost use Rattle.monitors.specs.Black.{RunsHaveAllBlack};

/// A monitor that received pictures in order reports its initial state's text for their list.
pub fn pictures_are_taken_in_order()
    ensures steps { StepsInOrder }
    ensures report { ReportsAllPictures }
{}

/// The lengths of the runs add up to the number of black pictures, if there are fewer than 2^64 pictures.
pub fn runs_have_all_black_pictures()
    ensures { RunsHaveAllBlack }
{}
