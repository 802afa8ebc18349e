//! What is told of a few rows and of some books.
ghost use Rattle.std.specs.Prelude.{◌≡◌, ◌+◌};
ghost use Rattle.size_values.specs.Amounts.{part};
ghost use Rattle.size_values.specs.declared.amounts.Part.{Part};

use config_lists::Config;
use records::Project;
use reservations::Books;
use row_readings::StateRef;
use serial_run::check_report;
use size_values::{Amounts, NoMemory, Text};
use std::alloc::Global;
use tests_given::in_order;

/// What is told of two projects, with a share that became its object's and one that went back.
const TOLD: &str =
    "projects 2\nprofiles 0\nnetworks 0\npools 0\nvolumes 0\ninstances 0\nsnapshots 0\n\
    granted 2 1 1 6 5368709120 300 21474836480\n\
    converted 1 1 0 4 1073741824 100 10737418240\n\
    returned 1 0 1 2 4294967296 200 10737418240\n\
    held 0 0 0 0 0 0 0\n";

/// What is told of nothing.
const NOTHING: &str =
    "projects 0\nprofiles 0\nnetworks 0\npools 0\nvolumes 0\ninstances 0\nsnapshots 0\n\
    granted 0 0 0 0 0 0 0\nconverted 0 0 0 0 0 0 0\nreturned 0 0 0 0 0 0 0\nheld 0 0 0 0 0 0 0\n";

fn some_books() -> Books
    ensures parts { (k : Part) → part k result.granted ≡ part k result.converted + part k result.returned + 0 }
    ensures pools { result.pool_granted ≡ result.pool_converted + result.pool_returned + 0 }
{
    Books {
        granted: Amounts {
            instances: 2,
            containers: 1,
            machines: 1,
            cpu: 6,
            memory: 5_368_709_120,
            processes: 300,
            disk: 21_474_836_480,
        },
        converted: Amounts {
            instances: 1,
            containers: 1,
            machines: 0,
            cpu: 4,
            memory: 1_073_741_824,
            processes: 100,
            disk: 10_737_418_240,
        },
        returned: Amounts {
            instances: 1,
            containers: 0,
            machines: 1,
            cpu: 2,
            memory: 4_294_967_296,
            processes: 200,
            disk: 10_737_418_240,
        },
        pool_granted: 10_737_418_240,
        pool_converted: 10_737_418_240,
        pool_returned: 0,
    }
}

fn no_books() -> Books
    ensures parts { (k : Part) → part k result.granted ≡ part k result.converted + part k result.returned + 0 }
    ensures pools { result.pool_granted ≡ result.pool_converted + result.pool_returned + 0 }
{
    Books {
        granted: Amounts::zero(),
        converted: Amounts::zero(),
        returned: Amounts::zero(),
        pool_granted: 0,
        pool_converted: 0,
        pool_returned: 0,
    }
}

/// Whether this is told of projects and books, where nothing is held.
fn is_told(alloc: Global, projects: &[Project], books: Books, text: &str) -> bool
    requires parts { (k : Part) → part k books.granted ≡ part k books.converted + part k books.returned + 0 }
    requires pools { books.pool_granted ≡ books.pool_converted + books.pool_returned + 0 }
{
    let view = StateRef {
        projects: in_order(projects),
        profiles: &[],
        networks: &[],
        pools: &[],
        volumes: &[],
        instances: &[],
        snapshots: &[],
        powers: &[],
        live: &[],
        ended: &[],
        next: 1,
        held: &[],
        books,
        closed: false,
    };
    let told = check_report(alloc, &view);
    drop(view);
    match told {
        Ok(told) => {
            let is = told.view() == text;
            drop(told);
            is
        }
        Err(NoMemory) => false,
    }
}

fn project_of(alloc: Global, name: &str) -> Result<Project, NoMemory> {
    let name = Text::from_text(alloc, name)?;
    Ok(Project {
        name,
        description: Text::new(alloc),
        config: Config::new(alloc),
    })
}

fn two_projects(alloc: Global) -> Result<Vec<Project>, NoMemory> {
    let mut projects = Vec::new(alloc);
    projects.push(project_of(alloc, "default")?)?;
    projects.push(project_of(alloc, "lab")?)?;
    Ok(projects)
}

fn are_told(alloc: Global) -> bool {
    let Ok(projects) = two_projects(alloc) else {
        return false;
    };
    let are = is_told(alloc, &projects, some_books(), TOLD);
    drop(projects);
    are
}

#[test]
fn rows_and_books_are_told(rt: HostRuntime) {
    assert!(rt; is_told(rt.alloc(), &[], no_books(), NOTHING));
    assert!(rt; are_told(rt.alloc()));
}
