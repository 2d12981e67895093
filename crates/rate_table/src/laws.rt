//! Laws of the definitions, independent of any program.

ghost use Rattle.rate_table.specs.Laws.{BestExists, BestIsOne, NoneFitsBelowLeast, AllChoicesAreChoices, AllChoicesCount, IndicesTellChoice, GoodIsLeast, GoodNoneFits};
ghost use Rattle.rate_table.specs.Body.{BodyIsReadAgain};
ghost use Rattle.rate_table.specs.Spelled.{BodyIsSpelled};

/// If a choice fits, there is a best one.
pub fn best_exists()
    ensures { BestExists }
{}

/// The best choice is unique.
pub fn best_is_one()
    ensures { BestIsOne }
{}

/// No choice fits if and only if the fixed bytes plus the least sizes exceed the budget.
pub fn none_fits_below_least()
    ensures { NoneFitsBelowLeast }
{}

/// The list of all choices has exactly the choices.
pub fn all_choices_are_choices()
    ensures { AllChoicesAreChoices }
{}

/// Its length is the product of the numbers of entries.
pub fn all_choices_count()
    ensures { AllChoicesCount }
{}

/// The indices of a choice determine it.
pub fn indices_tell_choice()
    ensures { IndicesTellChoice }
{}

/// The choice of a good record fits and has the printed sums, and no fitting choice has less error.
pub fn good_is_least()
    ensures { GoodIsLeast }
{}

/// If a good record says that no choice fits, none does.
pub fn good_none_fits()
    ensures { GoodNoneFits }
{}

/// The body that is written for a table is read as that table, whatever follows it.
pub fn body_is_read_again()
    ensures { BodyIsReadAgain }
{}

/// A table that is read is within the limits. The bytes that were read are the body that is written for it; the
/// rest follows.
pub fn body_is_spelled()
    ensures { BodyIsSpelled }
{}
