//! The laws that a new operation is judged by what it claims alone, a new profile by what it has, and changes within a
//! project in that project.
ghost use Rattle.core_totals.specs.Alone.{ClaimsAreJudgedAlone};
ghost use Rattle.core_totals.specs.NewProfile.{NewProfilesAreJudgedAlone};
ghost use Rattle.core_totals.specs.OneProject.{ProjectsAreJudgedAlone};

/// Where all facts hold, the state with one more operation breaks a rule on what is counted, on policy or on limits
/// exactly where the claimed row breaks it: all else was judged before.
pub fn claims_are_judged_alone()
    ensures { ClaimsAreJudgedAlone }
{}

/// Where all facts hold, the state with one more profile breaks a rule on policy exactly where the profile breaks it,
/// and none on what is counted or on limits: no instance names it yet.
pub fn new_profiles_are_judged_alone()
    ensures { NewProfilesAreJudgedAlone }
{}

/// Where all facts hold, the state after changes of the rows of one project breaks a rule on policy, on what is counted
/// or on limits exactly where that project breaks it: all others have and use what they did. A project that gets another
/// name is one, and profiles of `default` are such rows where no other project shares them.
pub fn projects_are_judged_alone()
    ensures { ProjectsAreJudgedAlone }
{}
