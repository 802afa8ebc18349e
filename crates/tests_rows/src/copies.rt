//! Copies of notices and refusals.
use crate::given::text_of;
use records::{Details, EventBody, Life, Notice, OpFault, OpView, Refusal, Rule, Status, Target};
use size_values::{ObjectKind, Text};
use std::alloc::Global;

fn operation_of(alloc: Global) -> EventBody {
    EventBody::Op(OpView {
        number: 7,
        status: Status::Running,
        may_cancel: true,
        created: 1_700_000_000,
        updated: 1_700_000_001,
        fault: OpFault::None,
        project: text_of(alloc, "lab"),
        target: Target {
            kind: ObjectKind::Instance,
            pool: Text::new(alloc),
            instance: Text::new(alloc),
            name: text_of(alloc, "c1"),
        },
    })
}

fn life_of(alloc: Global) -> EventBody {
    EventBody::Life {
        action: Life::InstanceStarted,
        source: text_of(alloc, "/1.0/instances/c1?project=lab"),
    }
}

/// Whether the notice that tells this is copied.
fn is_told(alloc: Global, body: EventBody) -> bool {
    let notice = Notice {
        number: 1,
        moment: 1_700_000_001,
        project: text_of(alloc, "lab"),
        body,
    };
    let copy = notice.copy(alloc);
    drop(notice);
    let is = copy.is_ok();
    drop(copy);
    is
}

fn is_refusal_copied(alloc: Global) -> bool {
    let refusal = Refusal {
        rule: Rule::N4,
        details: Details {
            kind: text_of(alloc, "project"),
            project: Text::new(alloc),
            name: text_of(alloc, "lab"),
            key: Text::new(alloc),
            number: 0,
            used: 0,
            asked: 0,
            limit: 0,
        },
    };
    let copy = refusal.copy(alloc);
    drop(refusal);
    let is = copy.is_ok();
    drop(copy);
    is
}

// That a copy is the same is proved; here each is made.
#[test]
fn copies_are_made(rt: HostRuntime) {
    let alloc = rt.alloc();
    assert!(rt; is_told(alloc, life_of(alloc)));
    assert!(rt; is_told(alloc, operation_of(alloc)));
    assert!(rt; is_refusal_copied(alloc));
}
