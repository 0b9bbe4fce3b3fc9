//! The scan of the dependencies that a result recorded.
ghost use Rattle.std.specs.Prelude.{◌≡◌, IfOk};
ghost use Rattle.std.specs.Option.{option_copied};
ghost use Rattle.engine_rules.specs.Known.{row_in};
ghost use Rattle.engine_rules.specs.Reasons.{scan_reason};
ghost use Rattle.engine_rules.specs.Scan.{ScanEnd, scan, after_dep, moved_path};
ghost use Rattle.dependency_scan.specs.Steps.{end_of, or_rest, HasPassed, IsFurthest};

use crate::rows::SettledRows;
use build_keys::key::Key;
use engine_rules::row::{Dep, DepKind, Reason, Row};
use engine_rules::rules::Rules;
use file_info::copied::Copied;
use file_info::memory::NoMemory;
use file_info::node::NodeName;
use file_info::path::PathName;
use std::alloc::Global;
use std::marker::Model;

/// What a scan comes to.
#[derive(Clone, Copy)]
pub enum ScanStep<'a> {
    /// This dependency is not settled yet.
    Wait(&'a Key),
    /// A dependency failed, so nothing more is found out.
    Stuck,
    /// This dependency changed after the result was built.
    Changed(&'a Key),
    /// This path was found, and may not be any more.
    Moved(&'a PathName),
    /// Nothing has changed since the result was built.
    Unchanged,
}

impl ScanStep<'_> {
    /// Why the key runs, where the scan gives a reason.
    pub fn reason(&self, alloc: Global) -> Result<Option<Reason>, NoMemory>
        ensures { IfOk result (λ reason. reason ≡ scan_reason (end_of self.now)) }
    {
        match self {
            ScanStep::Changed(key) => Ok(Some(Reason::Input(key.copy(alloc)?))),
            ScanStep::Moved(path) => Ok(Some(Reason::Moved(path.copy(alloc)?))),
            ScanStep::Wait(_) | ScanStep::Stuck | ScanStep::Unchanged => Ok(None),
        }
    }
}

/// How many dependencies of a result a scan has passed. It belongs to one key and one result, and holds on while keys are
/// settled, so that no dependency is looked at again once it is passed.
#[derive(Drop)]
pub struct Scan {
    passed: usize,
}

impl Model for Scan {
    ghost use Rattle.std.specs.Prelude.{ℕ};

    ghost Value = { ℕ };

    ghost view = { λ s. s.passed };
}

// The path that a command found, and may not find any more.
fn moved_in<'a, R: Rules>(rules: &R, key: &Key, dep: &'a Dep) -> Option<&'a PathName>
    ensures { option_copied result ≡ moved_path (R.meaning rules.now) key.now dep.now }
{
    match (dep.kind, &dep.key) {
        (DepKind::Found, Key::Node(NodeName::Path(path))) if !rules.allowed(key, path) => {
            Some(path)
        }
        _ => None,
    }
}

// What a dependency ends the scan with. None where it is passed.
fn step_at<'a, R: Rules, S: SettledRows>(
    rules: &R,
    key: &Key,
    settled: &S,
    built_at: u64,
    dep: &'a Dep,
) -> Option<ScanStep<'a>>
    ensures { (rest : ScanEnd) → after_dep built_at dep.now (moved_path (R.meaning rules.now) key.now dep.now)
        (row_in (S.settled settled.now) dep.now.key) rest ≡ or_rest result rest }
{
    if let Some(path) = moved_in(rules, key, dep) {
        return Some(ScanStep::Moved(path));
    }
    let Some(row) = settled.row_of(&dep.key) else {
        return Some(ScanStep::Wait(&dep.key));
    };
    if row.is_failed() {
        return Some(ScanStep::Stuck);
    }
    if dep.kind == DepKind::Follow || row.computed_at <= built_at {
        return None;
    }
    Some(ScanStep::Changed(&dep.key))
}

impl Scan {
    /// The scan before its first step. It takes no memory.
    pub fn new() -> Scan
        ensures { result ≡ 0 }
    {
        Scan { passed: 0 }
    }

    /// What the scan of the result comes to. It goes on after the dependencies that are passed, and takes no memory.
    pub fn next<'a, R: Rules, S: SettledRows>(
        &mut self,
        rules: &R,
        key: &Key,
        settled: &S,
        row: &'a Row,
    ) -> ScanStep<'a>
        requires { HasPassed (R.meaning rules.now) key.now (S.settled settled.now) row.now self.old }
        ensures step { end_of result ≡ scan (R.meaning rules.now) key.now (S.settled settled.now) row.now.built_at row.now.deps }
        ensures passed { HasPassed (R.meaning rules.now) key.now (S.settled settled.now) row.now self.new }
        ensures furthest { IsFurthest (R.meaning rules.now) key.now (S.settled settled.now) row.now self.new }
    {
        let deps = row.deps.as_slice();
        'deps: while self.passed < deps.len() {
            let dep = &deps[self.passed];
            if let Some(step) = step_at(rules, key, settled, row.built_at, dep) {
                return step;
            }
            self.passed += 1;
        }
        ScanStep::Unchanged
    }
}
