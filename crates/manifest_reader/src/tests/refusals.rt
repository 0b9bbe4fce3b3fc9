//! One text for each refusal, and pairs of which the earlier wins.
use super::{answers, joined, with_client};
use std::alloc::Global;
use std::process::Abort;
use std::test::Fail;

#[test]
fn texts_are_refused(rt: HostRuntime) -> Result<(), Fail> {
    let mut deep = Vec::new(rt.alloc());
    deep.resize(65, b'[')?;
    answers(&rt, rt.alloc(), deep.as_slice(), "too deep 64")?;
    deep.truncate(64);
    deep.resize(128, b']')?;
    answers(&rt, rt.alloc(), deep.as_slice(), "no client")?;
    for (text, expected) in [
        ("", "no client"),
        ("a", "no client"),
        ("targets: {}\n", "no client"),
        ("targts: {}\ncommands: 3\n", "no client"),
        ("client: &a {name: basic}\n", "anchor 8"),
        ("client: {name: basic}\ntargets: {all: [a", "syntax 39"),
        ("client: {name: basic}\nclient: {}\n", "repeated 22"),
        (
            "client: {name: basic}\ndefault: all\ntargets: {all: []}\n",
            "order targets",
        ),
    ] {
        answers(&rt, rt.alloc(), text.as_bytes(), expected)?;
    }
    Ok(())
}

#[test]
fn clients_are_refused(rt: HostRuntime) -> Result<(), Fail> {
    for (text, expected) in [
        ("client: {name: basic}", "ok"),
        (
            "client: {name: basic, version: 0, file-system: default}",
            "ok",
        ),
        ("client:", "bad client client"),
        ("client: basic", "bad client client"),
        ("client: {}", "client  0"),
        ("client: {version: 0}", "client  0"),
        ("client: {name: fancy}", "client fancy 0"),
        ("client: {name: basic, version: 1}", "client basic 1"),
        ("client: {version: 1, name: fancy}", "client fancy 1"),
        ("client: {name: [basic]}", "bad client name"),
        ("client: {name: basic, version: {}}", "bad client version"),
        (
            "client: {name: basic, file-system: sums}",
            "bad client file-system",
        ),
        (
            "client: {name: fancy, colour: red}",
            "unknown client colour",
        ),
        (
            "client: {name: fancy, version: [], colour: red}",
            "bad client version",
        ),
    ] {
        answers(&rt, rt.alloc(), text.as_bytes(), expected)?;
    }
    Ok(())
}

#[test]
fn sections_are_refused(rt: HostRuntime) -> Result<(), Fail> {
    for (text, expected) in [
        ("tools:\n", "bad tools tools"),
        ("tools: {shell: {}, phony: {}}\n", "ok"),
        ("tools: {clang: {}}\n", "tool tools clang"),
        ("tools: {shell: {a: b}}\n", "bad tools shell"),
        ("tools: {shell: }\n", "bad tools shell"),
        ("tools: {shell: x, clang: {}}\n", "bad tools shell"),
        ("targets: []\n", "bad targets targets"),
        ("targets: {all: {}}\n", "bad targets all"),
        ("targets: {all: [[a]]}\n", "bad targets all"),
        ("targets: {all: a}\n", "ok"),
        ("targets: {\"\": []}\n", "path targets "),
        ("targets: {all: [/..]}\n", "path all /.."),
        ("targets: {all: [\"a\\n\"]}\n", "path all a\n"),
        ("targets: {all: [a, \"\", [b]]}\n", "bad targets all"),
        ("default: [all]\n", "bad default default"),
        ("default: \"\"\n", "path default "),
        ("nodes: []\n", "bad nodes nodes"),
        ("commands: x\n", "bad commands commands"),
        ("colours: {}\n", "section colours"),
        ("tools: {}\ncolours: {}\n", "section colours"),
        ("commands: {}\nnodes: {}\n", "order nodes"),
        ("commands: {}\ntools: {clang: {}}\n", "order tools"),
        ("targets: {all: [/..]}\ncolours: {}\n", "path all /.."),
    ] {
        with_client(&rt, rt.alloc(), text, expected)?;
    }
    Ok(())
}

#[test]
fn entries_of_nodes_are_refused(rt: HostRuntime) -> Result<(), Fail> {
    for (text, expected) in [
        ("nodes: {a: {}, a/: {}, <a>: {}}\n", "ok"),
        ("nodes: {a: []}\n", "bad nodes a"),
        ("nodes: {\"a\\t\": []}\n", "path nodes a\t"),
        ("nodes: {/..: []}\n", "bad nodes /.."),
        ("nodes: {/..: {colour: red}}\n", "path nodes /.."),
        ("nodes: {/..: {is-virtual: true}}\n", "ok"),
        ("nodes: {/..: {is-virtual: false}}\n", "path nodes /.."),
        ("nodes: {a: {colour: red}}\n", "unknown a colour"),
        ("nodes: {a: {is-mutated: true}}\n", "unknown a is-mutated"),
        ("nodes: {a: {is-virtual: yes}}\n", "bad a is-virtual"),
        ("nodes: {a: {is-directory: [true]}}\n", "bad a is-directory"),
        (
            "nodes: {a: {is-directory-structure: 1}}\n",
            "bad a is-directory-structure",
        ),
        (
            "nodes: {a: {content-exclusion-patterns: {}}}\n",
            "bad a content-exclusion-patterns",
        ),
        ("nodes: {a: {content-exclusion-patterns: \"*.o\"}}\n", "ok"),
        (
            "nodes: {a: {is-virtual: x, colour: red}}\n",
            "bad a is-virtual",
        ),
    ] {
        with_client(&rt, rt.alloc(), text, expected)?;
    }
    Ok(())
}

#[test]
fn commands_are_refused(rt: HostRuntime) -> Result<(), Fail> {
    for (text, expected) in [
        ("p: []", "bad commands p"),
        ("\"\": []", "path commands "),
        ("p: {}", "bad p tool"),
        ("p: {colour: red}", "bad p tool"),
        ("p: {tool: [shell], colour: red}", "bad p tool"),
        ("p: {colour: red, tool: clang}", "tool p clang"),
        ("p: {tool: shell, colour: red}", "unknown p colour"),
        ("p: {tool: shell}", "bad p args"),
        (
            "p: {tool: shell, colour: red, args: []}",
            "unknown p colour",
        ),
        ("p: {args: [], tool: shell, colour: red}", "bad p args"),
        ("p: {tool: symlink, outputs: l}", "bad p contents"),
        ("p: {tool: symlink, outputs: []}", "bad p contents"),
        ("p: {tool: symlink, contents: x}", "bad p outputs"),
        ("p: {tool: mkdir}", "bad p outputs"),
        ("p: {tool: mkdir, outputs: [a, b]}", "bad p outputs"),
        ("p: {tool: mkdir, outputs: [a, <b>]}", "ok"),
        ("p: {tool: archive, outputs: [<a>]}", "bad p outputs"),
        ("p: {tool: stale-file-removal, inputs: [a]}", "bad p inputs"),
        ("p: {tool: stale-file-removal, inputs: []}", "ok"),
        ("p: {tool: stale-file-removal, inputs: a}", "bad p inputs"),
        ("p: {tool: phony, outputs: [a/]}", "ok"),
        ("p: {tool: shell, args: x, inputs: [a, /..]}", "path p /.."),
        ("p: {tool: shell, args: x, deps: /..}", "path p /.."),
    ] {
        command(&rt, rt.alloc(), text, expected)?;
    }
    Ok(())
}

#[test]
fn rules_over_the_whole_are_refused(rt: HostRuntime) -> Result<(), Fail> {
    for (text, expected) in [
        ("targets: {all: []}\ndefault: al\n", "default al"),
        ("targets: {all: []}\ndefault: all\n", "ok"),
        (
            "default: all\ncommands: {p: {tool: shell, args: x, outputs: [a/]}}\n",
            "default all",
        ),
        (
            "nodes: {a: {is-directory: true}}\ncommands: {p: {tool: shell, args: x, outputs: [b, a]}}\n",
            "directory p a",
        ),
        (
            "nodes: {a: {is-directory-structure: true}}\ncommands: {p: {tool: shell, args: x, outputs: [./a]}}\n",
            "directory p ./a",
        ),
        (
            "commands: {p: {tool: shell, args: x, outputs: [a/, a/]}}\n",
            "directory p a/",
        ),
        (
            "commands: {p: {tool: shell, args: x, outputs: [a, a, b/]}}\n",
            "makers a p p",
        ),
        (
            "commands: {p: {tool: shell, args: x, outputs: t}, q: {tool: shell, args: y, outputs: [./t]}}\n",
            "makers t p q",
        ),
        (
            "commands: {p: {tool: phony, outputs: t}, q: {tool: phony, outputs: t}}\n",
            "makers t p q",
        ),
        (
            "commands: {p: {tool: shell, args: x, outputs: a, deps: a}, q: {tool: mkdir, outputs: a}}\n",
            "makers a p q",
        ),
        (
            "commands: {p: {tool: shell, args: x, deps: a}, q: {tool: shell, args: x, deps: ./a}}\n",
            "clash q a",
        ),
        (
            "commands: {p: {tool: shell, args: x, deps: [a, b, a]}}\n",
            "clash p a",
        ),
        (
            "commands: {p: {tool: shell, args: x, deps: [b, a], inputs: a}}\n",
            "clash p a",
        ),
        (
            "commands: {p: {tool: shell, args: x, deps: a, must-follow: [a/]}}\n",
            "clash p a",
        ),
        (
            "commands: {p: {tool: shell, args: x, deps: a}, q: {tool: shell, args: x, outputs: [b, a]}}\n",
            "clash p a",
        ),
        (
            "targets: {all: [a]}\ncommands: {p: {tool: shell, args: x, deps: a}}\n",
            "clash p a",
        ),
        (
            "targets: {all: [<a>]}\ncommands: {p: {tool: shell, args: x, deps: <a>}}\n",
            "ok",
        ),
        (
            "commands: {p: {tool: shell, args: x, inputs: b, outputs: a}, q: {tool: shell, args: x, inputs: a, outputs: b}}\n",
            "ok",
        ),
    ] {
        with_client(&rt, rt.alloc(), text, expected)?;
    }
    Ok(())
}

#[test]
fn chains_are_refused(rt: HostRuntime) -> Result<(), Fail> {
    for (more, output, expected) in [
        ("", "u", "ok"),
        ("", "t", "makers t p q"),
        (", colour: red", "u", "unknown p colour"),
        (", contents: x", "u", "unknown p contents"),
    ] {
        chain(&rt, rt.alloc(), more, output, expected)?;
    }
    Ok(())
}

// Loading a manifest of two commands, of which the second reads what the first makes, answers this, where the first has this
// besides, and the second has this output.
fn chain(
    rt: &impl Abort,
    alloc: Global,
    more: &str,
    output: &str,
    expected: &str,
) -> Result<(), Fail> {
    let parts = [
        b"client: {name: basic}\ntargets: {all: [u]}\ncommands:\n".as_slice(),
        b"  p: {tool: shell, inputs: [s], outputs: [t], args: p",
        more.as_bytes(),
        b"}\n  q: {tool: shell, inputs: [t], outputs: [",
        output.as_bytes(),
        b"], args: q}\n",
    ];
    let text = joined(alloc, &parts)?;
    answers(rt, alloc, text.as_slice(), expected)
}

// Loading a manifest with this command answers this.
fn command(rt: &impl Abort, alloc: Global, text: &str, expected: &str) -> Result<(), Fail> {
    let parts = [
        b"client: {name: basic}\ncommands: {".as_slice(),
        text.as_bytes(),
        b"}\n",
    ];
    let text = joined(alloc, &parts)?;
    answers(rt, alloc, text.as_slice(), expected)
}
