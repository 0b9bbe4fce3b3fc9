//! Manifests, and parts that break a rule.
mod parts;

use crate::fault::RuleFault;
use crate::manifest::Manifest;
use crate::tests::parts::{Row, manifest, node, path};
use std::alloc::Global;
use std::test::Fail;

// The command `q` of the cases: what it reads, follows, makes and writes beside.
const PLAIN: Row = ("t", "", ("u", ""), ("q.d", ""));

// Which rule is broken where `q` is this command and the default is this one. The command `p` reads `s`, follows `f`, makes `t`
// and writes `p.d`, and `r` makes `<all>`. The target `a` is `u` and `<all>`, and `b` is `n`.
const CASES: [(&str, &str, Row); 19] = [
    ("", "", PLAIN),
    ("", "b", PLAIN),
    ("", "", ("t", "", ("u", "v"), ("q.d", "q.e"))),
    ("", "", ("t", "", ("<p.d>", "<s>"), ("q.d", ""))),
    ("default none", "none", PLAIN),
    ("directory d/ of q", "", ("t", "", ("u", "d/"), ("q.d", ""))),
    ("t of p and q", "", ("s", "", ("u", "t"), ("q.d", ""))),
    ("u of q and q", "", ("s", "", ("u", "x/../u"), ("q.d", ""))),
    (
        "<all> of q and r",
        "",
        ("s", "", ("u", "<all>"), ("q.d", "")),
    ),
    ("deps t of q", "", ("t", "", ("u", ""), ("t", ""))),
    ("deps f of q", "", ("t", "", ("u", ""), ("q.d", "f"))),
    ("deps n of q", "", ("t", "", ("u", ""), ("n", ""))),
    ("deps u of q", "", ("t", "", ("u", ""), ("u", ""))),
    ("deps q.d of q", "", ("t", "", ("u", ""), ("q.d", "./q.d"))),
    ("deps p.d of q", "", ("t", "", ("u", ""), ("p.d", ""))),
    ("default none", "none", ("t", "", ("d/", ""), ("q.d", ""))),
    ("directory t/ of q", "", ("s", "", ("t/", ""), ("q.d", ""))),
    ("t of p and q", "", ("s", "", ("t", "d/"), ("q.d", ""))),
    ("t of p and q", "", ("p.d", "", ("t", ""), ("s", ""))),
];

// What a fault says.
fn text_of(alloc: Global, fault: &RuleFault) -> Result<String, Fail> {
    let text = match fault {
        RuleFault::UnknownDefault { name } => format!(in alloc; "default {}", name.text())?,
        RuleFault::DirectoryOutput { command, node } => {
            format!(in alloc; "directory {} of {}", node.text(), command.text())?
        }
        RuleFault::TwoMakers {
            node,
            first,
            second,
        } => { format!(in alloc; "{} of {} and {}", node.text(), first.text(), second.text())? }
        RuleFault::DepsClash { command, path } => {
            format!(in alloc; "deps {} of {}", path.text(), command.text())?
        }
        RuleFault::NoMemory => return Err(Fail::from("no memory")),
    };
    Ok(text)
}

// What the first fault says. Empty where there is none.
fn outcome_of(alloc: Global, default: &str, row: &Row) -> Result<String, Fail> {
    match manifest(alloc, default, row)? {
        Ok(_) => Ok(String::new(alloc)),
        Err(fault) => text_of(alloc, &fault),
    }
}

#[test]
fn rules_are_judged_in_order(rt: HostRuntime) -> Result<(), Fail> {
    for (outcome, default, row) in CASES {
        assert_eq!(rt; outcome_of(rt.alloc(), default, &row)?.as_str(), outcome);
    }
    Ok(())
}

// The manifest with the plain command.
fn plain(alloc: Global) -> Result<Manifest, Fail> {
    manifest(alloc, "b", &PLAIN)?.map_err(|_| Fail::from("a fault"))
}

// The places of the maker of this node and of the command that writes this dependency file.
fn places_of(alloc: Global, text: &str) -> Result<(Option<usize>, Option<usize>), Fail> {
    let manifest = plain(alloc)?;
    let node = node(alloc, text)?;
    let path = path(alloc, text)?;
    Ok((manifest.maker(&node), manifest.deps_owner(&path)))
}

#[test]
fn nodes_are_looked_up(rt: HostRuntime) -> Result<(), Fail> {
    for (text, maker, owner) in [
        ("t", Some(0), None),
        ("x/../u", Some(1), None),
        ("<all>", Some(2), None),
        ("p.d", None, Some(0)),
        ("./q.d", None, Some(1)),
        ("s", None, None),
    ] {
        assert_eq!(rt; places_of(rt.alloc(), text)?, (maker, owner), "{text}");
    }
    Ok(())
}

// The place of the command of this name, and how many nodes the target of this name has.
fn named(alloc: Global, name: &str) -> Result<(Option<usize>, Option<usize>), Fail> {
    let manifest = plain(alloc)?;
    let nodes = manifest.target(name).map(|target| target.nodes.len());
    Ok((manifest.command_named(name), nodes))
}

#[test]
fn names_are_looked_up(rt: HostRuntime) -> Result<(), Fail> {
    for (name, command, nodes) in [
        ("p", Some(0), None),
        ("r", Some(2), None),
        ("a", None, Some(2)),
        ("b", None, Some(1)),
        ("t", None, None),
    ] {
        assert_eq!(rt; named(rt.alloc(), name)?, (command, nodes), "{name}");
    }
    Ok(())
}

// How many commands there are, the name of the last, and that of the default.
fn ends(alloc: Global) -> Result<(usize, String, String), Fail> {
    let manifest = plain(alloc)?;
    let last = manifest.command(2).ok_or("no command")?;
    let default = manifest.default_target().ok_or("no default")?;
    let last = String::from_str(alloc, last.name.text())?;
    let default = String::from_str(alloc, default.name.text())?;
    Ok((manifest.commands(), last, default))
}

#[test]
fn places_are_looked_up(rt: HostRuntime) -> Result<(), Fail> {
    let (commands, last, default) = ends(rt.alloc())?;
    assert_eq!(rt; commands, 3);
    assert_eq!(rt; last.as_str(), "r");
    assert_eq!(rt; default.as_str(), "b");
    Ok(())
}
