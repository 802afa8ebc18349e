//! Laws: functions that do nothing, whose contracts are the laws.
ghost use Rattle.list_filter.specs.Laws.{AbsentIsUnequal, ClientIgnoresCase, ListsHaveNoValue, MembersAreLookedUp};
ghost use Rattle.list_filter.specs.Laws.{PlainComparesBytes, SettingsAreNamed, TakenAsMeant, UnequalIsNotEqual};
ghost use Rattle.list_filter.specs.Urls.{UrlsAreThoseOfRows};

/// What is read of a text takes the objects of which the filter that the text is is true.
pub fn filters_take_what_they_mean()
    ensures { TakenAsMeant }
{}

/// What a comparison of a field with a value says, with a value and without one, in both dialects.
pub fn comparisons()
    ensures opposite { UnequalIsNotEqual }
    ensures absent { AbsentIsUnequal }
    ensures plain { PlainComparesBytes }
    ensures client { ClientIgnoresCase }
{}

/// What fields lead to.
pub fn fields_lead()
    ensures members { MembersAreLookedUp }
    ensures settings { SettingsAreNamed }
    ensures lists { ListsHaveNoValue }
{}

/// The objects of a list have the URLs that the list has without recursion.
pub fn urls_are_those_of_rows()
    ensures { UrlsAreThoseOfRows }
{}
