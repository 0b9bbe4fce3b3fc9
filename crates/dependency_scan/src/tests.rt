//! What scans come to, and which rings are found.
ghost use Rattle.std.specs.Prelude.{[], false, IfOk};
ghost use Rattle.build_keys.specs.Keys.{Each, HasPatterns};
ghost use Rattle.engine_rules.specs.declared.needs.Need.TheVariants.{Ask as Asking};
ghost use Rattle.dependency_scan.specs.Ring.{waiting};

use crate::ring::ring;
use crate::scan::{Scan, ScanStep};
use crate::waits::Wait;
use build_keys::key::Key;
use build_values::value::Value;
use engine_rules::needs::{Check, Given, Need};
use engine_rules::row::{Dep, DepKind, How, Reason, Row, Settled};
use engine_rules::rules::Rules;
use file_info::list::{Bytes, List};
use file_info::memory::NoMemory;
use file_info::node::NodeName;
use file_info::path::PathName;
use std::alloc::Global;
use std::test::Fail;

// Rules under which any path may be found, or none. A run asks for no key, over and over, until it finds no memory.
#[derive(Drop)]
struct Gate {
    open: bool,
}

impl Rules for Gate {
    type State = u64;

    ghost meaning = { λ s. record {
      signature = λ k. [];
      need = λ k gs. Asking [];
      checks = λ k r. [];
      always = λ k. false;
      allowed = λ k p. s.open;
    } };

    ghost at = { λ s state k gs. Unit {0} };

    ghost left = { λ s state. state };

    ghost most = { λ s. 1 };

    fn signature(&self, alloc: Global, _key: &Key) -> Result<Bytes, NoMemory> {
        Ok(List::new(alloc))
    }

    fn checks(&self, alloc: Global, _key: &Key, _row: &Row) -> Result<List<Check>, NoMemory> {
        Ok(List::new(alloc))
    }

    fn always(&self, _key: &Key) -> bool {
        false
    }

    fn allowed(&self, _command: &Key, _path: &PathName) -> bool {
        self.open
    }

    fn start(&self, alloc: Global, _key: &Key) -> Result<(u64, Need), NoMemory> {
        Ok((1, Need::Ask(List::new(alloc))))
    }

    fn resume(
        &self,
        alloc: Global,
        _key: &Key,
        state: &mut u64,
        _given: &Given,
    ) -> Result<Need, NoMemory> {
        if *state == 0 {
            return Err(NoMemory);
        }
        *state -= 1;
        Ok(Need::Ask(List::new(alloc)))
    }

    ghost lawful = { λ s. record {
      ends = λ k gs v e. cc e;
      one_order = λ k gs o e. cc e;
      own_order = λ k gs o e. cc e;
    } };
}

fn node(alloc: Global, path: &str) -> Result<Key, Fail>
    ensures { IfOk result HasPatterns }
{
    Ok(Key::Node(NodeName::Path(PathName::read(alloc, path)?)))
}

fn row_of(alloc: Global, value: Value, computed_at: u64) -> Row {
    Row {
        value,
        signature: List::new(alloc),
        built_at: 5,
        computed_at,
        deps: List::new(alloc),
    }
}

// A list of one node that was settled so, if it was, and whether it failed.
fn settled_so(alloc: Global, so: Option<(u64, bool)>) -> Result<List<Settled>, Fail> {
    let mut settled = List::new(alloc);
    if let Some((computed_at, failed)) = so {
        let value = if failed {
            Value::Failed
        } else {
            Value::Virtual
        };
        settled.push(Settled {
            key: node(alloc, "a.h")?,
            row: row_of(alloc, value, computed_at),
            how: How::Kept,
        })?;
    }
    Ok(settled)
}

// A row, built in iteration 5, that recorded the node.
fn row_with(alloc: Global, kind: DepKind) -> Result<Row, Fail> {
    let mut row = row_of(alloc, Value::Virtual, 5);
    row.deps.push(Dep {
        key: node(alloc, "a.h")?,
        kind,
    })?;
    Ok(row)
}

fn name_of(step: &ScanStep<'_>) -> &'static str {
    match step {
        ScanStep::Wait(_) => "wait",
        ScanStep::Stuck => "stuck",
        ScanStep::Changed(_) => "changed",
        ScanStep::Moved(_) => "moved",
        ScanStep::Unchanged => "unchanged",
    }
}

#[test]
fn one_dependency_is_passed_or_ends_the_scan(rt: HostRuntime) -> Result<(), Fail> {
    let alloc = rt.alloc();
    let key = node(alloc, "a.o")?;
    for (kind, so, open, step) in [
        (DepKind::Asked, None, false, "wait"),
        (DepKind::Follow, None, false, "wait"),
        (DepKind::Found, None, true, "wait"),
        (DepKind::Found, None, false, "moved"),
        (DepKind::Found, Some((9, true)), false, "moved"),
        (DepKind::Asked, Some((3, true)), true, "stuck"),
        (DepKind::Follow, Some((3, true)), true, "stuck"),
        (DepKind::Asked, Some((5, false)), true, "unchanged"),
        (DepKind::Asked, Some((6, false)), true, "changed"),
        (DepKind::Found, Some((6, false)), true, "changed"),
        (DepKind::Follow, Some((6, false)), true, "unchanged"),
    ] {
        let row = row_with(alloc, kind)?;
        let settled = settled_so(alloc, so)?;
        let found = Scan::new().next(&Gate { open }, &key, &settled, &row);
        assert_eq!(rt; name_of(&found), step, "{kind:?} {so:?} {open}");
    }
    Ok(())
}

#[test]
fn a_step_gives_its_reason(rt: HostRuntime) -> Result<(), Fail> {
    let alloc = rt.alloc();
    let key = node(alloc, "a.h")?;
    let path = PathName::read(alloc, "a.h")?;
    let changed = ScanStep::Changed(&key).reason(alloc)?;
    assert!(rt; matches!(changed, Some(Reason::Input(Key::Node(_)))));
    let moved = ScanStep::Moved(&path).reason(alloc)?;
    assert!(rt; matches!(moved, Some(Reason::Moved(_))));
    for step in [ScanStep::Wait(&key), ScanStep::Stuck, ScanStep::Unchanged] {
        assert!(rt; step.reason(alloc)?.is_none());
    }
    Ok(())
}

#[test]
fn dependencies_are_looked_at_in_the_order_recorded(rt: HostRuntime) -> Result<(), Fail> {
    let alloc = rt.alloc();
    let mut row = row_of(alloc, Value::Virtual, 5);
    for path in ["z", "b", "a"] {
        row.deps.push(Dep {
            key: node(alloc, path)?,
            kind: DepKind::Asked,
        })?;
    }
    let key = node(alloc, "a.o")?;
    let mut settled = List::new(alloc);
    for path in ["z", "b", "a"] {
        let step = Scan::new().next(&Gate { open: true }, &key, &settled, &row);
        match step {
            ScanStep::Wait(Key::Node(NodeName::Path(next))) => assert_eq!(rt; next.text(), path),
            _ => assert!(rt; false),
        }
        settled.push(Settled {
            key: node(alloc, path)?,
            row: row_of(alloc, Value::Virtual, 4),
            how: How::Kept,
        })?;
    }
    let step = Scan::new().next(&Gate { open: true }, &key, &settled, &row);
    assert_eq!(rt; name_of(&step), "unchanged");
    Ok(())
}

// Waits of nodes, each for one other.
fn waits_of(alloc: Global, pairs: &[(&str, &str)]) -> Result<List<Wait>, Fail>
    ensures { IfOk result (λ waits. Each HasPatterns (waiting waits)) }
{
    let mut waits = List::new(alloc);
    for (waiting, awaited) in pairs {
        let mut waits_for = List::new(alloc);
        waits_for.push(node(alloc, awaited)?)?;
        let key = node(alloc, waiting)?;
        waits.push(Wait { key, waits_for })?;
    }
    Ok(waits)
}

// The ring of these waits, each path with a space after it.
fn ring_text(alloc: Global, waits: &List<Wait>) -> Result<String, Fail>
    requires { Each HasPatterns (waiting waits.now) }
{
    let mut text = String::new(alloc);
    if let Some(ring) = ring(alloc, waits)? {
        for key in ring.as_slice() {
            text.push_str(key.text())?;
            text.push_str(" ")?;
        }
    }
    Ok(text)
}

// Whether this is the ring of the waits.
fn is_ring(alloc: Global, pairs: &[(&str, &str)], expected: &str) -> Result<bool, Fail> {
    let waits = waits_of(alloc, pairs)?;
    let text = ring_text(alloc, &waits)?;
    Ok(text.as_str() == expected)
}

#[test]
fn a_ring_begins_with_its_least_key(rt: HostRuntime) -> Result<(), Fail> {
    let alloc = rt.alloc();
    assert!(rt; is_ring(alloc, &[("a", "a")], "a ")?);
    assert!(rt; is_ring(alloc, &[("b", "a"), ("a", "b")], "a b ")?);
    assert!(rt; is_ring(alloc, &[("c", "d"), ("d", "e"), ("e", "c")], "c d e ")?);
    Ok(())
}

#[test]
fn a_ring_after_a_chain_is_found(rt: HostRuntime) -> Result<(), Fail> {
    let alloc = rt.alloc();
    assert!(rt; is_ring(alloc, &[("a", "b"), ("b", "c"), ("c", "b")], "b c ")?);
    assert!(rt; is_ring(alloc, &[("c", "b"), ("b", "c"), ("a", "c")], "b c ")?);
    Ok(())
}

#[test]
fn there_is_no_ring_where_the_walk_ends(rt: HostRuntime) -> Result<(), Fail> {
    let alloc = rt.alloc();
    assert!(rt; is_ring(alloc, &[], "")?);
    assert!(rt; is_ring(alloc, &[("a", "b"), ("b", "z"), ("c", "c")], "")?);
    Ok(())
}
