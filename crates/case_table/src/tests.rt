//! Tables as their users write them.
use crate::cases::{Case, Cases};
use crate::{case_rows, each_case};
use std::test::Fail;

const CAT: u8 = 0;

const DOG: u8 = 1;

const SOUNDS: Cases<5> = case_rows![
    "meow" = 2 in CAT,
    "growl" = 3 in CAT DOG,
    "bark" = 5 in DOG,
    "" = 9 in DOG,
];

// The last row has the group and the name of the second.
const REPEATED: Cases<4> = Cases {
    rows: &[
        Case {
            group: CAT,
            name: "growl",
            code: 3,
        },
        Case {
            group: DOG,
            name: "bark",
            code: 5,
        },
        Case {
            group: CAT,
            name: "bark",
            code: 6,
        },
        Case {
            group: DOG,
            name: "bark",
            code: 7,
        },
    ],
};

const NO_ROW: Cases<0> = Cases { rows: &[] };

const MEOW: u16 = SOUNDS.rows[0].code;

const GROWL: u16 = SOUNDS.rows[1].code;

const BARK: u16 = SOUNDS.rows[3].code;

// How loud an animal is: a macro for the arms of a match.
macro_rules! loudness {
    (($base:ident) silent) => {
        0
    };
    (($base:ident) times $factor:literal) => {
        $factor * $base
    };
}

fn loudness_of(code: u16, base: u32) -> Option<u32> {
    let base = base.min(9);
    let loudness = each_case!(match code, loudness!(base) {
        MEOW => (silent),
        GROWL => (times 2),
        BARK => (times 5),
    } else return None);
    Some(loudness)
}

fn loudness_of_flag(is_loud: bool, base: u32) -> u32 {
    let base = base.min(9);
    each_case!(match is_loud, loudness!(base) {
        true => (times 3),
        false => (silent),
    })
}

#[test]
fn rows_are_found_by_group_and_name(rt: HostRuntime) -> Result<(), Fail> {
    for (group, name, code) in [
        (CAT, "meow", Some(2)),
        (CAT, "growl", Some(3)),
        (DOG, "growl", Some(3)),
        (DOG, "bark", Some(5)),
        (DOG, "", Some(9)),
        (DOG, "meow", None),
        (CAT, "", None),
        (CAT, "meo", None),
        (CAT, "meows", None),
        (2, "meow", None),
    ] {
        assert_eq!(rt; SOUNDS.find(group, name), code, "at {group} and {name:?}");
        assert_eq!(rt;
            SOUNDS.find_bytes(group, name.as_bytes()),
            code,
            "at {group} and the bytes of {name:?}"
        );
    }
    assert_eq!(rt; SOUNDS.find_bytes(CAT, b"meow\xFF"), None);
    assert_eq!(rt; NO_ROW.find(CAT, ""), None);
    Ok(())
}

#[test]
fn the_first_of_equal_rows_counts(rt: HostRuntime) -> Result<(), Fail> {
    assert_eq!(rt; REPEATED.find(DOG, "bark"), Some(5));
    assert_eq!(rt; REPEATED.find(CAT, "bark"), Some(6));
    assert!(rt; !REPEATED.distinct());
    assert!(rt; SOUNDS.distinct());
    assert!(rt; NO_ROW.distinct());
    Ok(())
}

#[test]
fn a_match_has_an_arm_for_each_case(rt: HostRuntime) -> Result<(), Fail> {
    assert_eq!(rt; loudness_of(2, 4), Some(0));
    assert_eq!(rt; loudness_of(3, 4), Some(8));
    assert_eq!(rt; loudness_of(5, 4), Some(20));
    assert_eq!(rt; loudness_of(9, 4), None);
    assert_eq!(rt; loudness_of_flag(true, 4), 12);
    assert_eq!(rt; loudness_of_flag(false, 4), 0);
    Ok(())
}
