//! Which of three instances filters take: `a` has the setting `user.x` at 1, `b` at 2, and `c` has none.
use crate::shown::terms;
use config_lists::{Config, Devices};
use filter_texts::{Choice, read_choice};
use list_filter::takes;
use records::{Instance, View};
use rest_json::Dialect;
use rest_json::Dialect::{Client, Plain};
use size_values::{Kind, NoMemory, Power, Seq, Text};
use std::alloc::Global;
use tests_given::{both, config};

/// The names of the instances, and the value of their setting.
const ROWS: &[(&str, &str)] = &[("a", "1"), ("b", "2"), ("c", "")];

/// A dialect, a filter, and the names of the instances that it takes.
const CHOICES: &[(Dialect, &str, &str)] = &[
    (Plain, "config.user.x ne 1 and not (name eq c)", "b"),
    (Plain, "config.user.x ne 1", "bc"),
    (Plain, "not config.user.x eq 1", "bc"),
    (Plain, "config.user.x eq 1", "a"),
    (Plain, "config.user.x eq \"\"", ""),
    (Plain, "config.user.x ne \"\"", "abc"),
    (Plain, "name eq a or name eq c", "ac"),
    (Plain, "name eq a or name eq b and name eq b", "b"),
    (Plain, "name eq a or (name eq b and name eq b)", "ab"),
    (Plain, "name eq a and name eq b or name eq b", "b"),
    (Plain, "name eq A", ""),
    (Client, "name eq A", "a"),
    (Plain, "name ne A", "abc"),
    (Client, "name ne A", "bc"),
    (Plain, "status eq running", ""),
    (Client, "status eq running", "abc"),
    (Plain, "status eq Running", "abc"),
    (Client, "Name eq a", ""),
    (Plain, "status_code eq 103", "abc"),
    (Plain, "ephemeral eq false", "abc"),
    (Plain, "profiles eq default", ""),
    (Plain, "profiles ne default", "abc"),
    (Plain, "nothing ne 1", "abc"),
    (Plain, "nothing eq 1", ""),
];

fn view(alloc: Global, name: &str, x: &str) -> Result<View, NoMemory> {
    let (name, config) = both(
        Text::from_text(alloc, name),
        config(alloc, &[("user.x", x)]),
    )?;
    let row = Instance {
        project: Text::new(alloc),
        name,
        kind: Kind::Container,
        ephemeral: false,
        description: Text::new(alloc),
        origin: Text::new(alloc),
        created: 0,
        profiles: Seq::new(alloc),
        config,
        devices: Devices::new(alloc),
    };
    Ok(View::Instance {
        row,
        config: Config::new(alloc),
        devices: Devices::new(alloc),
        power: Power::Running,
    })
}

/// Whether a choice takes an instance, where there is memory.
fn choice_takes(
    alloc: Global,
    dialect: Dialect,
    choice: &Choice,
    name: &str,
    x: &str,
) -> Option<bool> {
    match view(alloc, name, x) {
        Ok(shown) => {
            let taken = takes(alloc, terms(dialect), choice, &shown);
            drop(shown);
            taken.ok()
        }
        Err(_) => None,
    }
}

/// Whether a filter takes an instance, where it is a filter and there is memory.
fn filter_takes(
    alloc: Global,
    dialect: Dialect,
    filter: &str,
    name: &str,
    x: &str,
) -> Option<bool> {
    match read_choice(alloc, filter) {
        Ok(choice) => {
            let taken = choice_takes(alloc, dialect, &choice, name, x);
            drop(choice);
            taken
        }
        Err(_) => None,
    }
}

#[test]
fn filters_take_those_that_they_say(rt: HostRuntime) {
    for (dialect, filter, names) in CHOICES {
        for (name, x) in ROWS {
            let taken = filter_takes(rt.alloc(), *dialect, filter, name, x);
            assert!(rt; taken == Some(names.contains(*name)), "{filter}: {name}");
        }
    }
}
