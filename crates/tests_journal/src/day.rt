//! The commits that the server makes in the day of a user: it makes a pool, a project with limits, a network and a
//! profile, and then instances, which it starts, changes, snapshots, restores, renames, copies and deletes, and at last
//! all is gone.

/// A change of a row by its kind and key: its body where it is put, or None where it is taken out.
pub type Change = (u8, &'static str, Option<&'static [u8]>);

/// The commits, in their order.
pub const DAY: &[&[Change]] = &[
    &[
        (
            1,
            "default",
            Some(
                b"\x01\0\0\0\0\0\0\0\x05\0\0\0\x0ffeatures.images\0\0\0\x04true\0\0\0\x11features.networks\0\0\0\
                  \x04true\0\0\0\x11features.profiles\0\0\0\x04true\0\0\0\x18features.storage.buckets\0\0\0\x04tr\
                  ue\0\0\0\x18features.storage.volumes\0\0\0\x04true",
            ),
        ),
        (2, "default/default", Some(b"\x01\0\0\0\0\0\0\0\0\0\0\0\0")),
    ],
    &[(4, "p0", Some(b"\x01\0\0\0\0\0\0\0\0\0"))],
    &[
        (
            1,
            "lab",
            Some(
                b"\x01\0\0\0\0\0\0\0\x0c\0\0\0\x0ffeatures.images\0\0\0\x04true\0\0\0\x11features.networks\0\0\0\
                  \x04true\0\0\0\x11features.profiles\0\0\0\x04true\0\0\0\x18features.storage.buckets\0\0\0\x04tr\
                  ue\0\0\0\x18features.storage.volumes\0\0\0\x04true\0\0\0\x11limits.containers\0\0\0\x018\0\0\0\
                  \x0alimits.cpu\0\0\0\x0216\0\0\0\x0blimits.disk\0\0\0\x0564GiB\0\0\0\x10limits.instances\0\0\0\
                  \x018\0\0\0\x0dlimits.memory\0\0\0\x0516GiB\0\0\0\x0arestricted\0\0\0\x04true\0\0\0\x14restrict\
                  ed.snapshots\0\0\0\x05allow",
            ),
        ),
        (2, "lab/default", Some(b"\x01\0\0\0\0\0\0\0\0\0\0\0\0")),
    ],
    &[(
        3,
        "lab/br0",
        Some(b"\x01\0\0\0\0\0\0\0\x01\0\0\0\x0cipv4.address\0\0\0\x0b10.0.0.1/24"),
    )],
    &[(
        2,
        "lab/default",
        Some(
            b"\x01\0\0\0\0\0\0\0\x02\0\0\0\x0alimits.cpu\0\0\0\x011\0\0\0\x0dlimits.memory\0\0\0\x041GiB\0\0\
                  \0\x02\0\0\0\x04eth0\0\0\0\x02\0\0\0\x07network\0\0\0\x03br0\0\0\0\x04type\0\0\0\x03nic\0\0\0\
                  \x04root\0\0\0\x04\0\0\0\x04path\0\0\0\x01/\0\0\0\x04pool\0\0\0\x02p0\0\0\0\x04size\0\0\0\x044G\
                  iB\0\0\0\x04type\0\0\0\x04disk",
        ),
    )],
    &[(
        6,
        "lab/web",
        Some(
            b"\x01\0\0\0\0\0\0\0\0\0\0\0\0\0\0\0\0\0\0\0\0\0\x01\0\0\0\x07default\0\0\0\0\0\0\0\0",
        ),
    )],
    &[(
        6,
        "lab/db",
        Some(
            b"\x01\0\0\0\0\0\0\0\0\0\0\0\0\0\0\0\0\0\0\0\0\0\x01\0\0\0\x07default\0\0\0\x01\0\0\0\x0dlimits.m\
                  emory\0\0\0\x044GiB\0\0\0\0",
        ),
    )],
    &[(
        6,
        "lab/cache",
        Some(
            b"\x01\0\0\0\0\0\0\0\0\0\0\0\0\0\0\0\0\0\0\0\0\0\x01\0\0\0\x07default\0\0\0\0\0\0\0\0",
        ),
    )],
    &[(
        7,
        "lab/db/snap0",
        Some(
            b"\x01\0\0\0\0\0\0\0\0\0\0\0\0\0\0\0\0\0\0\0\x01\0\0\0\x07default\0\0\0\x01\0\0\0\x0dlimits.memor\
                  y\0\0\0\x044GiB\0\0\0\0",
        ),
    )],
    &[(
        6,
        "lab/web",
        Some(
            b"\x01\0\0\0\0\0\0\0\0\0\0\0\0\0\0\0\0\0\0\0\0\0\x01\0\0\0\x07default\0\0\0\x01\0\0\0\x0alimits.c\
                  pu\0\0\0\x012\0\0\0\0",
        ),
    )],
    &[(
        6,
        "lab/db",
        Some(
            b"\x01\0\0\0\0\0\0\0\0\0\0\0\0\0\0\0\0\0\0\0\0\0\x01\0\0\0\x07default\0\0\0\x01\0\0\0\x0dlimits.m\
                  emory\0\0\0\x044GiB\0\0\0\0",
        ),
    )],
    &[
        (6, "lab/cache", None),
        (
            6,
            "lab/queue",
            Some(
                b"\x01\0\0\0\0\0\0\0\0\0\0\0\0\0\0\0\0\0\0\0\0\0\x01\0\0\0\x07default\0\0\0\0\0\0\0\0",
            ),
        ),
    ],
    &[(
        6,
        "lab/db-two",
        Some(
            b"\x01\0\0\0\0\0\0\0\0\0\0\0\0\0\0\0\0\0\0\0\0\0\x01\0\0\0\x07default\0\0\0\x01\0\0\0\x0dlimits.m\
                  emory\0\0\0\x044GiB\0\0\0\0",
        ),
    )],
    &[(
        6,
        "lab/db-old",
        Some(
            b"\x01\0\0\0\0\0\0\0\0\0\0\0\0\0\0\0\0\0\0\0\0\0\x01\0\0\0\x07default\0\0\0\x01\0\0\0\x0dlimits.m\
                  emory\0\0\0\x044GiB\0\0\0\0",
        ),
    )],
    &[(7, "lab/db/snap0", None)],
    &[(6, "lab/web", None)],
    &[(6, "lab/db", None)],
    &[(6, "lab/queue", None)],
    &[(6, "lab/db-two", None)],
    &[(6, "lab/db-old", None)],
    &[(2, "lab/default", Some(b"\x01\0\0\0\0\0\0\0\0\0\0\0\0"))],
    &[(3, "lab/br0", None)],
    &[(1, "lab", None), (2, "lab/default", None)],
    &[(4, "p0", None)],
];
