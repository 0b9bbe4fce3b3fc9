//! Copies of results, of reasons and of outcomes.
use crate::needs::{FoundPath, Outcome};
use crate::row::{Dep, DepKind, Reason, Row};
use build_keys::key::Key;
use build_values::value::Value;
use file_info::copied::Copied;
use file_info::info::Info;
use file_info::list::{Bytes, List};
use file_info::name::Name;
use file_info::path::PathName;
use file_info::same::Same;
use outside::order::Exit;
use std::alloc::Global;
use std::test::Fail;

fn command(alloc: Global, name: &str) -> Result<Key, Fail> {
    Ok(Key::Command(Name::read(alloc, name)?))
}

fn text(alloc: Global, bytes: &[u8]) -> Result<Bytes, Fail> {
    let mut text = Vec::new(alloc);
    text.extend_from_slice(bytes)?;
    Ok(List::from_vec(text))
}

fn row_with(alloc: Global, value: Value) -> Result<Row, Fail> {
    let mut deps = List::new(alloc);
    for (name, kind) in [
        ("a", DepKind::Asked),
        ("b", DepKind::Follow),
        ("c", DepKind::Found),
    ] {
        deps.push(Dep {
            key: command(alloc, name)?,
            kind,
        })?;
    }
    Ok(Row {
        value,
        signature: text(alloc, b"cc -c a.c")?,
        built_at: 7,
        computed_at: 5,
        deps,
    })
}

#[test]
fn a_row_is_copied_whole(rt: HostRuntime) -> Result<(), Fail> {
    let alloc = rt.alloc();
    let row = row_with(alloc, Value::Targets)?;
    let copy = row.copy(alloc)?;
    assert!(rt; copy.value.same(&Value::Targets));
    assert_eq!(rt; copy.signature.as_slice(), b"cc -c a.c".as_slice());
    assert_eq!(rt; (copy.built_at, copy.computed_at), (7, 5));
    assert_eq!(rt; copy.deps.len(), 3);
    for (place, dep) in row.deps.as_slice().iter().enumerate() {
        let other = &copy.deps.as_slice()[place];
        assert!(rt; other.key.same(&dep.key));
        assert_eq!(rt; other.kind, dep.kind);
    }
    Ok(())
}

#[test]
fn only_a_failure_is_failed(rt: HostRuntime) -> Result<(), Fail> {
    let alloc = rt.alloc();
    assert!(rt; row_with(alloc, Value::Failed)?.is_failed());
    assert!(rt; !row_with(alloc, Value::File(Info::Missing))?.is_failed());
    Ok(())
}

// The places of the reasons in their order.
fn place_of(reason: &Reason) -> u8 {
    match reason {
        Reason::NeverBuilt => 1,
        Reason::SignatureChanged => 2,
        Reason::LastFailed => 3,
        Reason::Always => 4,
        Reason::Stale { .. } => 5,
        Reason::Input(_) => 6,
        Reason::Moved(_) => 7,
    }
}

// The reason at a place.
fn reason_at(alloc: Global, place: u8) -> Result<Reason, Fail> {
    Ok(match place {
        1 => Reason::NeverBuilt,
        2 => Reason::SignatureChanged,
        3 => Reason::LastFailed,
        4 => Reason::Always,
        5 => Reason::Stale {
            path: PathName::read(alloc, "a.h")?,
            stored: Info::Directory,
            present: Info::Missing,
        },
        6 => Reason::Input(command(alloc, "a")?),
        _ => Reason::Moved(PathName::read(alloc, "a.h")?),
    })
}

#[test]
fn each_reason_is_copied_as_it_is(rt: HostRuntime) -> Result<(), Fail> {
    for place in 1..8 {
        let copy = reason_at(rt.alloc(), place)?.copy(rt.alloc())?;
        assert_eq!(rt; place_of(&copy), place);
    }
    Ok(())
}

fn done(alloc: Global) -> Result<Outcome, Fail> {
    let mut found = List::new(alloc);
    found.push(FoundPath {
        path: PathName::read(alloc, "a.h")?,
        info: Info::Directory,
    })?;
    let mut outputs = List::new(alloc);
    outputs.push(Info::Missing)?;
    Ok(Outcome::Done { found, outputs })
}

// Whether this is the end with one found path and one output.
fn is_done(outcome: &Outcome) -> bool {
    match outcome {
        Outcome::Done { found, outputs } => {
            let found = found.as_slice().iter().any(|path| path.path.text() == "a.h"
                && matches!(path.info, Info::Directory));
            let output = outputs
                .as_slice()
                .iter()
                .any(|info| matches!(info, Info::Missing));
            found && output
        }
        _ => false,
    }
}

#[test]
fn a_good_end_is_copied_with_all_that_it_tells(rt: HostRuntime) -> Result<(), Fail> {
    let copy = done(rt.alloc())?.copy(rt.alloc())?;
    assert!(rt; is_done(&copy));
    Ok(())
}

#[test]
fn a_bad_end_is_copied_with_its_exit(rt: HostRuntime) -> Result<(), Fail> {
    let failed = Outcome::Failed {
        exit: Exit::Code(2),
    };
    let copy = failed.copy(rt.alloc())?;
    assert!(rt;
        matches!(
            copy,
            Outcome::Failed {
                exit: Exit::Code(2)
            }
        )
    );
    Ok(())
}
