//! When an expiry ends.
use size_values::{Expiry, MOMENT_LIMIT, read_expiry};
use snapshot_clock::expires_at;

/// A moment, an expiry, and when it ends, if that is a moment.
const ENDS: &[(u64, &str, Option<u64>)] = &[
    (1_706_659_200, "1m", Some(1_709_164_800)),
    (1_706_659_200, "1m 1d", Some(1_709_251_200)),
    (0, "1M 2H 3d 4w 5m 6y", Some(205_120_860)),
    (1_709_164_800, "1y", Some(1_740_700_800)),
    (253_402_300_739, "1M", Some(253_402_300_799)),
    (253_402_300_740, "1M", None),
    (0, "1M", Some(60)),
    (1, "1H", Some(3_601)),
    (86_399, "1m", Some(2_764_799)),
    (0, "8029y", Some(253_370_764_800)),
    (0, "8030y", None),
    (0, "9999y 9999m 9999w 9999d 9999H 9999M", None),
    (253_402_300_799, "1m", None),
    (1_706_659_200, "12m", Some(1_738_281_600)),
];

#[test]
fn each_expiry_ends(rt: HostRuntime) {
    for (created, text, end) in ENDS {
        assert!(rt; end_of(*created, text) == *end, "{created}: {text}");
    }
}

#[test]
fn an_expiry_beyond_all_that_is_read(rt: HostRuntime) {
    let longest = Expiry {
        minutes: u32::MAX,
        hours: u32::MAX,
        days: u32::MAX,
        weeks: u32::MAX,
        months: u32::MAX,
        years: u32::MAX,
    };
    assert!(rt; expires_at(0, &longest).is_none());
}

fn end_of(created: u64, text: &str) -> Option<u64> {
    match read_expiry(text) {
        Ok(expiry) if created < MOMENT_LIMIT => expires_at(created, &expiry),
        _ => None,
    }
}
