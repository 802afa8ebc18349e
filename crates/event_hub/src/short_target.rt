ghost use Rattle.std.specs.Prelude.{◌≡◌, IfOk};
ghost use Rattle.event_hub.specs.Telling.{IsShort, object_in};

use crate::progress::About;
use crate::short_text::ShortText;
use records::Target;
use size_values::{NoMemory, ObjectKind};
use std::alloc::Global;
use std::marker::Model;

/// The object that an operation is about, kept in place. Contracts see it as the target.
#[derive(Drop)]
pub(crate) struct ShortTarget {
    kind: ObjectKind,
    pool: ShortText,
    instance: ShortText,
    name: ShortText,
}

impl Model for ShortTarget {
    ghost use Rattle.records.specs.declared.commands.Target.{Target};

    ghost Value = { Target };

    ghost view = { λ t. record {
      kind = t.kind;
      pool = t.pool;
      instance = t.instance;
      name = t.name;
    } };
}

impl ShortTarget {
    /// The object that an operation is about. It takes no memory.
    pub(crate) fn of(about: About<'_>) -> ShortTarget
        requires { IsShort about }
        ensures { result ≡ object_in about.entry }
    {
        ShortTarget {
            kind: about.kind,
            pool: ShortText::of(about.pool),
            instance: ShortText::of(about.instance),
            name: ShortText::of(about.name),
        }
    }

    /// A target of its own.
    pub(crate) fn target(&self, alloc: Global) -> Result<Target, NoMemory>
        ensures { IfOk result (λ t. t ≡ self.now) }
    {
        Ok(Target {
            kind: self.kind,
            pool: self.pool.text(alloc)?,
            instance: self.instance.text(alloc)?,
            name: self.name.text(alloc)?,
        })
    }
}
