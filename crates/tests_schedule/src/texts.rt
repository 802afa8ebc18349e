//! Which texts are schedules.
use schedule_texts::read_schedule;
use size_values::ValueFault;

const COMMAS: &str =
    ",,,,,,,,,,,,,,,,,,,,,,,,,,,,,,,,,,,,,,,,,,,,,,,,,,,,,,,,,,,,,,,,,,,,,,,,,,,,,,,,,,,,,\
,,,,,,,,,,,,,,,,,,,,,,,,,,,,,,,,,,,,,,,,,,,,,,,,,,,,,,,,,,,,,,,,,,,,,,,,,,,,,,,,,,,,,\
,,,,,,,,,,,,,,,,,,,,,,,,,,,,,,,,,,,,,,,,,,,,,,,,,,,,,,,,,,,,,,,,,,,,,,,,,,,,,,,,,,,,,";

/// Texts that are schedules.
const READ: &[&str] = &[
    "* * * * *",
    "0 6 * * *",
    "00 6 * * *",
    "0000000000000000000000000000000000000006 * * * *",
    "59 23 31 12 6",
    "0 0 1 1 0",
    "*/1 */59 * * *",
    "59-59 * * * *",
    "0-59/59 * * * *",
    "1,1,*,2-3,*/5,4-9/2 * * * *",
    "@hourly",
    "@daily",
    "@midnight",
    "@weekly",
    "@monthly",
    "@annually",
    "@yearly",
    "@daily,@daily",
    "@daily, @weekly",
    "@hourly,@midnight, @yearly",
];

/// Texts that are none.
const REFUSED: &[&str] = &[
    "60 * * * *",
    "* 24 * * *",
    "* * 0 * *",
    "* * 32 * *",
    "* * * 0 *",
    "* * * 13 *",
    "* * * * 7",
    "256 * * * *",
    "262 * * * *",
    "18446744073709551616 * * * *",
    "* * * *",
    "* * * * * *",
    "0  6 * * *",
    " 0 6 * * *",
    "0 6 * * * ",
    "0\t6 * * *",
    "5/2 * * * *",
    "*/0 * * * *",
    "*/60 * * * *",
    "*/ * * * *",
    "*/2/3 * * * *",
    "/2 * * * *",
    "9-3 * * * *",
    "1- * * * *",
    "-1 * * * *",
    "1-2-3 * * * *",
    "1-60 * * * *",
    "** * * * *",
    "1, * * * *",
    ",1 * * * *",
    "1,,2 * * * *",
    "+1 * * * *",
    "1.5 * * * *",
    "a * * * *",
    "0 0 * * mon",
    "0 0 * jan *",
    "? * * * *",
    "mon",
    " ",
    ",",
    "@",
    "@never",
    "@startup",
    "@Daily",
    "daily",
    "@daily ",
    " @daily",
    "@daily,",
    ",@daily",
    "@daily,  @weekly",
    "@daily ,@weekly",
    "@daily @weekly",
    "@daily,0 6 * * *",
    "0 6 * * *,@daily",
    COMMAS,
];

#[test]
fn each_schedule_is_read(rt: HostRuntime) {
    for text in READ {
        assert!(rt; read_schedule(text).is_ok(), "{text}");
    }
}

#[test]
fn any_other_text_is_out_of_range(rt: HostRuntime) {
    for text in REFUSED {
        assert!(rt; is_refused(text, ValueFault::OutOfRange), "{text}");
    }
}

#[test]
fn the_empty_text_has_its_own_fault(rt: HostRuntime) {
    assert!(rt; is_refused("", ValueFault::Empty));
}

fn is_refused(text: &str, fault: ValueFault) -> bool {
    match read_schedule(text) {
        Ok(_) => false,
        Err(found) => found == fault,
    }
}
