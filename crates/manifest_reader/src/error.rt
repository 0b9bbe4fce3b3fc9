//! Why a manifest is not loaded.
ghost use Rattle.std.specs.Prelude.{◌≡◌};
ghost use Rattle.manifest_reader.specs.Load as spec;

use build_manifest::fault::RuleFault;
use file_info::list::Bytes;
use file_info::name::Name;
use file_info::node::NodeName;
use file_info::path::PathName;
use manifest_values::refusal::{Counted, Refusal, Stop};
use yaml_profile::YamlError;

/// Why a manifest is not loaded. The refusal of the text comes first, then that of the first part in file order, then the
/// first rule over the whole that is broken. The owner is the name, as it is written, of the command, the target or the entry
/// of `nodes` in which the fault stands, and otherwise the name of the section.
#[derive(Drop)]
pub enum LoadError {
    /// The bytes are no text of the YAML profile: the reader's first refusal. `NoMemory` never stands in it.
    Yaml(YamlError),
    /// The tree is no mapping, or has no `client`.
    NoClient,
    /// The client is not `basic` in the version 0. An absent name is the empty text, an absent version 0.
    WrongClient {
        name: Bytes,
        version: Bytes,
    },
    /// No section has this name.
    UnknownSection {
        name: Bytes,
    },
    /// The section stands after one that it precedes.
    SectionOrder {
        section: Bytes,
    },
    /// No tool has this name.
    UnknownTool {
        owner: Bytes,
        tool: Bytes,
    },
    /// The owner has no attribute of this name.
    UnknownAttribute {
        owner: Bytes,
        name: Bytes,
    },
    /// The attribute is required and missing, or its value has another shape.
    BadAttribute {
        owner: Bytes,
        name: Bytes,
    },
    /// The text is due to be a name or a path, and is none.
    BadPath {
        owner: Bytes,
        text: Bytes,
    },
    /// There are more of these than the limit.
    Limit {
        what: Counted,
        limit: u64,
    },
    /// No target has the name that `default` gives.
    UnknownDefault {
        name: Name,
    },
    /// The node is an output twice: of the command `first`, and then of `second`, which may be the same.
    TwoMakers {
        node: NodeName,
        first: Name,
        second: Name,
    },
    /// An output of the command is a directory. `node` is the text that the manifest has for it.
    DirectoryOutput {
        command: Name,
        node: Name,
    },
    /// The dependency file of the command is the path of a node of the manifest too, or is named before.
    DepsClash {
        command: Name,
        path: PathName,
    },
    /// No memory was left.
    NoMemory,
}

impl From<YamlError> for LoadError {
    ghost use Rattle.std.specs.Prelude.{◌≡◌};
    ghost use Rattle.manifest_reader.specs.Load.{unread};

    ghost from_gives = { λ yaml error. error ≡ unread yaml };

    fn from(error: YamlError) -> LoadError {
        match error {
            YamlError::NoMemory => LoadError::NoMemory,
            refusal => LoadError::Yaml(refusal),
        }
    }
}

// What the refusal of a part is for a manifest.
fn error_of(refusal: Refusal) -> LoadError
    ensures { result ≡ spec.error_of refusal }
{
    match refusal {
        Refusal::NoClient => LoadError::NoClient,
        Refusal::WrongClient { name, version } => LoadError::WrongClient { name, version },
        Refusal::UnknownSection { name } => LoadError::UnknownSection { name },
        Refusal::SectionOrder { section } => LoadError::SectionOrder { section },
        Refusal::UnknownTool { owner, tool } => LoadError::UnknownTool { owner, tool },
        Refusal::UnknownAttribute { owner, name } => LoadError::UnknownAttribute { owner, name },
        Refusal::BadAttribute { owner, name } => LoadError::BadAttribute { owner, name },
        Refusal::BadPath { owner, text } => LoadError::BadPath { owner, text },
        Refusal::Limit { what, limit } => LoadError::Limit { what, limit },
    }
}

impl From<Stop> for LoadError {
    ghost use Rattle.std.specs.Prelude.{◌≡◌};
    ghost use Rattle.manifest_reader.specs.Load.{stopped};

    ghost from_gives = { λ stop error. error ≡ stopped stop };

    fn from(stop: Stop) -> LoadError {
        match stop {
            Stop::Memory => LoadError::NoMemory,
            Stop::Refused(refusal) => error_of(refusal),
        }
    }
}

impl From<RuleFault> for LoadError {
    ghost use Rattle.std.specs.Prelude.{◌≡◌};
    ghost use Rattle.manifest_reader.specs.Load.{broken};

    ghost from_gives = { λ fault error. error ≡ broken fault };

    fn from(fault: RuleFault) -> LoadError {
        match fault {
            RuleFault::UnknownDefault { name } => LoadError::UnknownDefault { name },
            RuleFault::DirectoryOutput { command, node } => LoadError::DirectoryOutput {
                command,
                node,
            },
            RuleFault::TwoMakers {
                node,
                first,
                second,
            } => LoadError::TwoMakers {
                node,
                first,
                second,
            },
            RuleFault::DepsClash { command, path } => LoadError::DepsClash { command, path },
            RuleFault::NoMemory => LoadError::NoMemory,
        }
    }
}
