//! The attributes of commands.
ghost use Rattle.std.specs.Prelude.{◌≡◌};
ghost use Rattle.manifest_reader.specs.Rows as spec;

use build_manifest::command::Tool;
use case_table::cases::Cases;
use case_table::{case_rows, each_case};

/// An attribute of a command.
#[derive(Clone, Copy, Debug, PartialEq, Eq)]
pub enum Attribute {
    Tool,
    Inputs,
    Outputs,
    Description,
    MustFollow,
    AllowMissingInputs,
    AlwaysOutOfDate,
    Args,
    Env,
    Deps,
    DepsStyle,
    InheritEnv,
    Signature,
    Contents,
    ExpectedOutputs,
    Roots,
}

/// The tool of this name.
#[tactic(auto, unfolding(crate::specs::Rows::tool_named))]
pub fn tool_named(name: &[u8]) -> Option<Tool>
    ensures { result ≡ spec.tool_named name.now }
{
    if name == b"phony".as_slice() {
        return Some(Tool::Phony);
    }
    if name == b"shell".as_slice() {
        return Some(Tool::Shell);
    }
    if name == b"mkdir".as_slice() {
        return Some(Tool::Mkdir);
    }
    if name == b"symlink".as_slice() {
        return Some(Tool::Symlink);
    }
    if name == b"archive".as_slice() {
        return Some(Tool::Archive);
    }
    if name == b"stale-file-removal".as_slice() {
        return Some(Tool::StaleFileRemoval);
    }
    None
}

const PHONY: u8 = 0;

const SHELL: u8 = 1;

const MKDIR: u8 = 2;

const SYMLINK: u8 = 3;

const ARCHIVE: u8 = 4;

const STALE_FILE_REMOVAL: u8 = 5;

/// The table of attributes: a row for each attribute and each tool that has it. A tool is a group.
pub const ATTRIBUTES: Cases<48> = case_rows![
    "tool" = 1 in PHONY SHELL MKDIR SYMLINK ARCHIVE STALE_FILE_REMOVAL,
    "inputs" = 2 in PHONY SHELL MKDIR SYMLINK ARCHIVE STALE_FILE_REMOVAL,
    "outputs" = 3 in PHONY SHELL MKDIR SYMLINK ARCHIVE STALE_FILE_REMOVAL,
    "description" = 4 in PHONY SHELL MKDIR SYMLINK ARCHIVE STALE_FILE_REMOVAL,
    "must-follow" = 5 in PHONY SHELL MKDIR SYMLINK ARCHIVE,
    "allow-missing-inputs" = 6 in PHONY SHELL MKDIR SYMLINK ARCHIVE,
    "always-out-of-date" = 7 in PHONY SHELL MKDIR SYMLINK ARCHIVE,
    "args" = 8 in SHELL,
    "env" = 9 in SHELL,
    "deps" = 10 in SHELL,
    "deps-style" = 11 in SHELL,
    "inherit-env" = 12 in SHELL,
    "signature" = 13 in SHELL,
    "contents" = 14 in SYMLINK,
    "expectedOutputs" = 15 in STALE_FILE_REMOVAL,
    "roots" = 16 in STALE_FILE_REMOVAL,
];

// The group of a tool.
fn group_of(tool: Tool) -> u8
    ensures { result ≡ spec.group_of tool }
{
    match tool {
        Tool::Phony => PHONY,
        Tool::Shell => SHELL,
        Tool::Mkdir => MKDIR,
        Tool::Symlink => SYMLINK,
        Tool::Archive => ARCHIVE,
        Tool::StaleFileRemoval => STALE_FILE_REMOVAL,
    }
}

// The code of the attribute of this name that the tool of this group has.
fn code_of(group: u8, name: &[u8]) -> Option<u16>
    ensures { result ≡ spec.code_in spec.rows group name.now }
{
    ATTRIBUTES.find_bytes(group, name)
}

macro_rules! some_attribute {
    (() $attribute:ident) => {
        Some(Attribute::$attribute)
    };
}

// The attribute of a code.
fn attribute_at(code: u16) -> Option<Attribute>
    ensures { result ≡ spec.attribute_at code }
{
    each_case!(match code, some_attribute!() {
        1 => (Tool),
        2 => (Inputs),
        3 => (Outputs),
        4 => (Description),
        5 => (MustFollow),
        6 => (AllowMissingInputs),
        7 => (AlwaysOutOfDate),
        8 => (Args),
        9 => (Env),
        10 => (Deps),
        11 => (DepsStyle),
        12 => (InheritEnv),
        13 => (Signature),
        14 => (Contents),
        15 => (ExpectedOutputs),
        16 => (Roots),
    } else None)
}

/// The attribute of this name that the tool has.
pub fn attribute_of(tool: Tool, name: &[u8]) -> Option<Attribute>
    ensures { result ≡ spec.attribute_of tool name.now }
{
    match code_of(group_of(tool), name) {
        Some(code) => attribute_at(code),
        None => None,
    }
}
