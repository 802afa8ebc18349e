//! What the key of each kind of row is.
ghost use Rattle.std.specs.Prelude.{◌≡◌, ◌∷◌, ℕ, List, [], Bool, IfSome};
ghost use Rattle.std.specs.Str.{bytes_eq};
ghost use Rattle.records.specs.declared.rows.Row.TheVariants as row;
ghost use Rattle.row_codec.specs.Spelling.{two_names, three_names};
ghost use Rattle.row_machine.specs.machine.Changes.{has_key};
ghost use Rattle.row_machine.specs.machine.Rows.{same_names};
ghost use Rattle.row_readings.specs.Rising.{names_in};

use crate::keys::{is_three_names, is_two_names, three_names_in, two_names_in};
use records::{Instance, Network, Pool, Profile, Project, Snapshot, Volume};
use row_readings::{InstancePower, Named, Names};
use size_values::Boxed;

/// A row that stands in the order of its names, and has a key.
pub(crate) trait Placed: Named {
    /// Whether a row has this key.
    ghost keyed: { List ℕ → Self → Bool };

    fn has_key(&self, key: &str) -> bool
        ensures { result ≡ keyed key.now self.now };

    /// The names of the row that has this key, where the key tells them. A key of one name always does, and one of
    /// several names does where it has no slashes but those between them.
    fn names_of_key(key: &str) -> Option<Names<'_>>
        ensures { IfSome result (λ told. (row : Self) →
            keyed key.now row ≡ same_names (Self.names row) (names_in told)) };
}

/// The names of the row of a key of two names, where the key tells them.
fn two_told(key: &str) -> Option<Names<'_>>
    ensures { IfSome result (λ told. (first second : List ℕ) →
        bytes_eq (two_names first second) key.now ≡ same_names (first ∷ second ∷ []) (names_in told)) }
{
    match two_names_in(key) {
        Some((first, second)) => Some(Names::Two(first, second)),
        None => None,
    }
}

/// The names of the row of a key of three names, where the key tells them.
fn three_told(key: &str) -> Option<Names<'_>>
    ensures { IfSome result (λ told. (first second third : List ℕ) →
        bytes_eq (three_names first second third) key.now
        ≡ same_names (first ∷ second ∷ third ∷ []) (names_in told)) }
{
    match three_names_in(key) {
        Some((first, second, third)) => Some(Names::Three(first, second, third)),
        None => None,
    }
}

impl<T: Placed> Placed for Boxed<T> {
    ghost keyed = { T.keyed };

    fn has_key(&self, key: &str) -> bool {
        T::has_key(self, key)
    }

    fn names_of_key(key: &str) -> Option<Names<'_>> {
        T::names_of_key(key)
    }
}

impl Placed for Project {
    ghost keyed = { λ key r. has_key key (row.Project r) };

    fn has_key(&self, key: &str) -> bool {
        self.name.view() == key
    }

    fn names_of_key(key: &str) -> Option<Names<'_>> {
        Some(Names::One(key))
    }
}

impl Placed for Profile {
    ghost keyed = { λ key r. has_key key (row.Profile r) };

    fn has_key(&self, key: &str) -> bool {
        is_two_names(
            key.as_bytes(),
            self.project.view().as_bytes(),
            self.name.view().as_bytes(),
        )
    }

    fn names_of_key(key: &str) -> Option<Names<'_>> {
        two_told(key)
    }
}

impl Placed for Network {
    ghost keyed = { λ key r. has_key key (row.Network r) };

    fn has_key(&self, key: &str) -> bool {
        is_two_names(
            key.as_bytes(),
            self.project.view().as_bytes(),
            self.name.view().as_bytes(),
        )
    }

    fn names_of_key(key: &str) -> Option<Names<'_>> {
        two_told(key)
    }
}

impl Placed for Pool {
    ghost keyed = { λ key r. has_key key (row.Pool r) };

    fn has_key(&self, key: &str) -> bool {
        self.name.view() == key
    }

    fn names_of_key(key: &str) -> Option<Names<'_>> {
        Some(Names::One(key))
    }
}

impl Placed for Volume {
    ghost keyed = { λ key r. has_key key (row.Volume r) };

    fn has_key(&self, key: &str) -> bool {
        is_three_names(
            key.as_bytes(),
            self.project.view().as_bytes(),
            self.pool.view().as_bytes(),
            self.name.view().as_bytes(),
        )
    }

    fn names_of_key(key: &str) -> Option<Names<'_>> {
        three_told(key)
    }
}

impl Placed for Instance {
    ghost keyed = { λ key r. has_key key (row.Instance r) };

    fn has_key(&self, key: &str) -> bool {
        is_two_names(
            key.as_bytes(),
            self.project.view().as_bytes(),
            self.name.view().as_bytes(),
        )
    }

    fn names_of_key(key: &str) -> Option<Names<'_>> {
        two_told(key)
    }
}

impl Placed for Snapshot {
    ghost keyed = { λ key r. has_key key (row.Snapshot r) };

    fn has_key(&self, key: &str) -> bool {
        is_three_names(
            key.as_bytes(),
            self.project.view().as_bytes(),
            self.instance.view().as_bytes(),
            self.name.view().as_bytes(),
        )
    }

    fn names_of_key(key: &str) -> Option<Names<'_>> {
        three_told(key)
    }
}

impl Placed for InstancePower {
    ghost keyed = { λ key r. bytes_eq (two_names r.project r.name) key };

    fn has_key(&self, key: &str) -> bool {
        is_two_names(
            key.as_bytes(),
            self.project.view().as_bytes(),
            self.name.view().as_bytes(),
        )
    }

    fn names_of_key(key: &str) -> Option<Names<'_>> {
        two_told(key)
    }
}
