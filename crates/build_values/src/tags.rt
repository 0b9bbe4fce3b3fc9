//! The bytes that tell apart the kinds of values, of file information, and of what a directory holds.
use case_table::case_rows;
use case_table::cases::Cases;

// What a byte tells apart: values, file information, and kinds.
const VALUE: u8 = 0;

const INFO: u8 = 1;

const KIND: u8 = 2;

const VALUES: Cases<9> = case_rows![
    "virtual" = 1 in VALUE,
    "file" = 2 in VALUE,
    "names" = 3 in VALUE,
    "tree" = 4 in VALUE,
    "structure" = 5 in VALUE,
    "done" = 6 in VALUE,
    "expected" = 7 in VALUE,
    "targets" = 8 in VALUE,
    "failed" = 9 in VALUE,
];

const INFOS: Cases<4> = case_rows![
    "missing" = 0 in INFO,
    "directory" = 1 in INFO,
    "file" = 2 in INFO,
    "link" = 3 in INFO,
];

const KINDS: Cases<2> = case_rows![
    "directory" = 1 in KIND,
    "other" = 2 in KIND,
];

pub const VALUE_VIRTUAL: u8 = VALUES.rows[0].code as u8;

pub const VALUE_FILE: u8 = VALUES.rows[1].code as u8;

pub const VALUE_NAMES: u8 = VALUES.rows[2].code as u8;

pub const VALUE_TREE: u8 = VALUES.rows[3].code as u8;

pub const VALUE_STRUCTURE: u8 = VALUES.rows[4].code as u8;

pub const VALUE_DONE: u8 = VALUES.rows[5].code as u8;

pub const VALUE_EXPECTED: u8 = VALUES.rows[6].code as u8;

pub const VALUE_TARGETS: u8 = VALUES.rows[7].code as u8;

pub const VALUE_FAILED: u8 = VALUES.rows[8].code as u8;

pub const INFO_MISSING: u8 = INFOS.rows[0].code as u8;

pub const INFO_DIRECTORY: u8 = INFOS.rows[1].code as u8;

pub const INFO_FILE: u8 = INFOS.rows[2].code as u8;

pub const INFO_LINK: u8 = INFOS.rows[3].code as u8;

pub const KIND_DIRECTORY: u8 = KINDS.rows[0].code as u8;

pub const KIND_OTHER: u8 = KINDS.rows[1].code as u8;
