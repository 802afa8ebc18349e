//! Laws: functions that do nothing, whose contracts are the laws.
ghost use Rattle.rest_answers.specs.Told.{FilteredListsAreCut};

/// A list with a filter is the list without it, cut to the objects that the filter takes.
pub fn filtered_lists_are_cut()
    ensures { FilteredListsAreCut }
{}
