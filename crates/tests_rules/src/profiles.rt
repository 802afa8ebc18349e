use crate::creations::is_rule;
use records::{Profile, Project, Rule};
use row_readings::StateRef;
use rules_policy::{policy_broken, profile_forbidden};
use size_values::{Boxed, NoMemory, Text};
use std::alloc::Global;
use tests_given::{Rows, both, config, device};

/// A new profile with one setting and one device, in a project of which there may be none, and the rule on policy that
/// it breaks first. The project `lab` is restricted.
#[derive(Clone, Copy)]
struct NewProfile {
    project: &'static str,
    key: &'static str,
    value: &'static str,
    device: &'static str,
    rule: Option<Rule>,
    of: &'static str,
}

const PROFILES: &[NewProfile] = &[
    NewProfile {
        project: "lab",
        key: "limits.cpu",
        value: "2",
        device: "none",
        rule: None,
        of: "nothing that is forbidden",
    },
    NewProfile {
        project: "lab",
        key: "security.nesting",
        value: "true",
        device: "none",
        rule: Some(Rule::F1),
        of: "a setting that is forbidden",
    },
    NewProfile {
        project: "lab",
        key: "limits.cpu",
        value: "2",
        device: "gpu",
        rule: Some(Rule::F6),
        of: "a device that is forbidden",
    },
    NewProfile {
        project: "lab",
        key: "raw.lxc",
        value: "1",
        device: "gpu",
        rule: Some(Rule::F3),
        of: "a setting and a device, of which the setting breaks an earlier rule",
    },
    NewProfile {
        project: "default",
        key: "security.nesting",
        value: "true",
        device: "gpu",
        rule: None,
        of: "a project that is not restricted",
    },
    NewProfile {
        project: "web",
        key: "security.nesting",
        value: "true",
        device: "gpu",
        rule: None,
        of: "a project that is missing",
    },
];

fn add_project(
    alloc: Global,
    rows: &mut Rows,
    name: &str,
    restricted: &str,
) -> Result<(), NoMemory> {
    let name = Text::from_text(alloc, name)?;
    let config = config(alloc, &[("restricted", restricted)])?;
    rows.projects.push(Project {
        name,
        description: Text::new(alloc),
        config,
    })?;
    Ok(())
}

fn profile(alloc: Global, case: NewProfile) -> Result<Profile, NoMemory> {
    let names = both(
        Text::from_text(alloc, case.project),
        Text::from_text(alloc, "web"),
    );
    let settings = both(
        config(alloc, &[(case.key, case.value)]),
        device(alloc, "d0", &[("type", case.device)]),
    );
    let ((project, name), (config, devices)) = both(names, settings)?;
    Ok(Profile {
        project,
        name,
        description: Text::new(alloc),
        config,
        devices,
    })
}

fn fill(alloc: Global, rows: &mut Rows, case: NewProfile) -> Result<(), NoMemory> {
    add_project(alloc, rows, "default", "")?;
    add_project(alloc, rows, "lab", "true")?;
    let profile = Boxed::of(alloc, profile(alloc, case))?;
    rows.profiles.push(profile)?;
    Ok(())
}

/// Whether the last profile breaks this rule first, over all rows and by what it has alone.
fn is_forbidden(alloc: Global, view: &StateRef<'_>, rule: Option<Rule>) -> bool {
    let Some(profile) = view.profiles.last() else {
        return false;
    };
    let of_all = is_rule(policy_broken(alloc, view), rule);
    let alone = is_rule(profile_forbidden(alloc, view, profile), rule);
    of_all && alone
}

/// Whether the new profile breaks its rule first.
fn breaks(alloc: Global, case: NewProfile) -> bool {
    let mut rows = Rows::empty(alloc);
    let filled = fill(alloc, &mut rows, case);
    let right = filled.is_ok() && is_forbidden(alloc, &rows.view(), case.rule);
    drop(rows);
    right
}

#[test]
fn new_profiles_are_judged_alone(rt: HostRuntime) {
    for case in PROFILES {
        assert!(rt; breaks(rt.alloc(), *case), "{}", case.of);
    }
}
