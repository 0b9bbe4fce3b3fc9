//! What an engine knows: lists that only grow, the oldest first.
use crate::needs::Outcome;
use crate::row::{Reason, Settled};
use build_keys::key::Key;
use file_info::info::Info;
use file_info::list::List;
use file_info::path::PathName;
use name_list::names::NameList;
use outside::order::Order;

/// The file information that was given of a path.
#[derive(Drop)]
pub struct PathInfo {
    pub path: PathName,
    pub info: Info,
}

/// The names that were given of a directory.
#[derive(Drop)]
pub struct Listing {
    pub path: PathName,
    pub names: NameList,
}

/// What was told of paths.
#[derive(Drop)]
pub struct Told {
    pub infos: List<PathInfo>,
    pub listings: List<Listing>,
}

/// A path that was asked about. Where the question is lost there will be no answer.
#[derive(Drop)]
pub struct AskedPath {
    pub path: PathName,
    pub lost: bool,
}

/// What was asked of paths.
#[derive(Drop)]
pub struct Asking {
    pub infos: List<AskedPath>,
    pub listings: List<AskedPath>,
}

/// A command that was started, and why. Where it is lost there will be no outcome.
#[derive(Drop)]
pub struct Started {
    pub key: Key,
    pub reason: Reason,
    pub order: Order,
    pub lost: bool,
}

/// How the order with this ticket ended.
#[derive(Drop)]
pub struct Ended {
    pub ticket: u64,
    pub outcome: Outcome,
}

/// All that an engine knows.
#[derive(Drop)]
pub struct Known {
    pub settled: List<Settled>,
    pub told: Told,
    pub ended: List<Ended>,
    pub asked: Asking,
    pub starts: List<Started>,
}
