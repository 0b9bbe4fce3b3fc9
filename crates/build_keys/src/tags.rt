//! The byte that each kind of key begins with.
use case_table::case_rows;
use case_table::cases::Cases;

// All kinds of keys are of one group.
const KEY: u8 = 0;

const TAGS: Cases<6> = case_rows![
    "target" = 1 in KEY,
    "command" = 2 in KEY,
    "node" = 3 in KEY,
    "contents" = 4 in KEY,
    "tree" = 5 in KEY,
    "structure" = 6 in KEY,
];

pub const TARGET: u8 = TAGS.rows[0].code as u8;

pub const COMMAND: u8 = TAGS.rows[1].code as u8;

pub const NODE: u8 = TAGS.rows[2].code as u8;

pub const CONTENTS: u8 = TAGS.rows[3].code as u8;

pub const TREE: u8 = TAGS.rows[4].code as u8;

pub const STRUCTURE: u8 = TAGS.rows[5].code as u8;
