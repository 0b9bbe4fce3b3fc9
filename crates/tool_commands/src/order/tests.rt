//! The order of one command.
ghost use Rattle.std.specs.Prelude.{◌≡◌, ◌≤◌, ℕ, [], false, length, IfOk, List as Items};
ghost use Rattle.file_info.specs.Lists.{In};
ghost use Rattle.file_info.specs.Normal.{IsPath};
ghost use Rattle.file_info.specs.declared.node.NodeName.{NodeName as Node};
ghost use Rattle.build_manifest.specs.Command.{AreInputs, IsCommand, IsNode, has_nul};

use super::*;
use crate::signature::signature;
use file_info::name::Name;
use std::test::Fail;

fn node(alloc: Global, text: &str) -> Result<PathName, Fail>
    ensures { IfOk result (λ path. IsPath path) }
{
    let path = PathName::read(alloc, text)?;
    let _text = path.text();
    Ok(path)
}

fn inputs(alloc: Global) -> Result<List<Input>, Fail>
    ensures are { IfOk result (λ inputs. AreInputs inputs) }
    ensures few { IfOk result (λ inputs. length inputs ≤ 1) }
{
    let mut inputs = List::new(alloc);
    inputs.push(Input {
        written: Name::read(alloc, "src")?,
        node: NodeName::Path(node(alloc, "src")?),
        form: InputForm::File,
    })?;
    Ok(inputs)
}

fn outputs(alloc: Global) -> Result<List<NodeName>, Fail>
    ensures are { IfOk result (λ nodes. (n : Node) → In n nodes → IsNode n) }
    ensures few { IfOk result (λ nodes. length nodes ≤ 1) }
{
    let mut outputs = List::new(alloc);
    outputs.push(NodeName::Path(node(alloc, "out/list.txt")?))?;
    Ok(outputs)
}

fn line(alloc: Global) -> Result<Bytes, Fail>
    ensures program { IfOk result (λ line. has_nul line ≡ false) }
    ensures light { IfOk result (λ line. length line ≤ 32) }
{
    Ok(word(alloc, b"ls src > out/list.txt")?)
}

// The shell command `list`, which lists a folder.
fn lists(alloc: Global) -> Result<Command, Fail>
    ensures is { IfOk result (λ command. IsCommand command) }
    ensures tool { IfOk result (λ command. command.tool ≡ Tool.Shell) }
{
    let mut command = Command::bare(alloc, Name::read(alloc, "list")?, Tool::Shell);
    command.inputs = inputs(alloc)?;
    command.outputs = outputs(alloc)?;
    command.args = Args::Line(line(alloc)?);
    Ok(command)
}

// The words that are started.
fn started(act: &Act) -> &[Bytes] {
    match act {
        Act::Spawn { words, .. } => words.as_slice(),
        _ => &[],
    }
}

#[test]
fn a_line_is_handed_to_the_shell(rt: HostRuntime) -> Result<(), Fail> {
    let alloc = rt.alloc();
    let command = lists(alloc)?;
    let signature = signature(alloc, &command)?;
    let order = order_of(alloc, &command, signature, List::new(alloc))?;
    let words = started(&order.act);
    assert_eq!(rt; words.len(), 3);
    assert!(rt; matches!(words, [first, ..] if first.as_slice() == b"/bin/sh".as_slice()));
    assert!(rt; matches!(words, [_, second, _] if second.as_slice() == b"-c".as_slice()));
    assert!(rt;
        matches!(words, [_, _, last] if last.as_slice() == b"ls src > out/list.txt".as_slice())
    );
    assert_eq!(rt; order.ticket, 0);
    assert_eq!(rt; order.outputs.len(), 1);
    assert!(rt; order.links.is_empty());
    Ok(())
}
