//! Orders for commands with each tool, performed in memory and on real files.
ghost use Rattle.std.specs.Prelude.{IsTrue};
ghost use Rattle.tool_commands.specs.Acts.{HasOrder};

use build_manifest::command::Tool;
use build_manifest::manifest::Manifest;
use file_info::info::{Form, Info};
use file_info::list::List;
use file_info::node::{NodeName, Read, Reading};
use file_info::path::PathName;
use manifest_reader::load::load;
use memory_world::memory::MemoryWorld;
use memory_world::toy::ToyLaw;
use outside::order::{Exit, Order};
use outside::world::World;
use real_world::world::RealWorld;
use std::alloc::Global;
use std::os::unix::fs::symlink;
use std::rt::Files;
use std::test::Fail;
use std::{fs, io};
use tool_commands::order::order_of;
use tool_commands::signature::signature;

// A directory, a link that leads nowhere, archives, and a line.
const MANIFEST: &str = "client: {name: basic}
targets: {all: [orders_out]}
commands:
  dir: {tool: mkdir, outputs: [orders_dir]}
  link: {tool: symlink, outputs: [orders_link], contents: orders_nowhere}
  pack: {tool: archive, inputs: [orders_one, orders_two], outputs: [orders_pack.a]}
  lost: {tool: archive, inputs: [orders_none], outputs: [orders_lost.a]}
  line: {tool: shell, outputs: [orders_out], args: echo text > orders_out}
";

const DIR: usize = 0;

const LINK: usize = 1;

const PACK: usize = 2;

const LOST: usize = 3;

const LINE: usize = 4;

// A command, its output, what stands there before, the status, and what stands there then, also where a link is followed.
type Row = (usize, &'static str, char, u8, char, char);

const ROWS: [Row; 9] = [
    (DIR, "orders_dir", '-', 0, 'd', 'd'),
    (DIR, "orders_dir", 'd', 0, 'd', 'd'),
    (DIR, "orders_dir", 'f', 1, 'f', 'f'),
    (DIR, "orders_dir", 'l', 1, 'l', '-'),
    (LINK, "orders_link", '-', 0, 'l', '-'),
    (LINK, "orders_link", 'd', 1, 'd', 'd'),
    (LINK, "orders_link", 'f', 0, 'l', '-'),
    (LINK, "orders_link", 'l', 0, 'l', '-'),
    (LINE, "orders_out", '-', 0, 'f', 'f'),
];

// Whether something is ordered for commands of this tool.
fn is_ordered(tool: Tool) -> bool
    ensures { IsTrue result → HasOrder tool }
{
    match tool {
        Tool::Phony => false,
        Tool::Shell => true,
        Tool::Mkdir => true,
        Tool::Symlink => true,
        Tool::Archive => true,
        Tool::StaleFileRemoval => false,
    }
}

// The order of the command at a place.
fn order_at(
    alloc: Global,
    manifest: &Manifest,
    place: usize,
    reads: List<Read>,
) -> Result<Option<Order>, Fail> {
    let Some(command) = manifest.command(place) else {
        return Ok(None);
    };
    if !is_ordered(command.tool) {
        return Ok(None);
    }
    let signature = signature(alloc, command)?;
    Ok(Some(order_of(alloc, command, signature, reads)?))
}

// Performs the order of the command at a place. No order is no success.
fn perform<W: World<ToyLaw>>(
    alloc: Global,
    world: &mut W,
    place: usize,
    reads: List<Read>,
) -> Result<Exit, Fail> {
    let Ok(manifest) = load(alloc, MANIFEST.as_bytes()) else {
        return Ok(Exit::Killed);
    };
    let Some(order) = order_at(alloc, &manifest, place, reads)? else {
        return Ok(Exit::Killed);
    };
    world.begin(alloc, order)?;
    if world.begun() == 0 {
        return Ok(Exit::Killed);
    }
    let ended = world.end(alloc)?;
    Ok(ended.exit)
}

// A letter for what stands at a path: nothing, a directory, a file or a link.
fn letter<W: World<ToyLaw>>(
    alloc: Global,
    world: &mut W,
    at: &str,
    form: Form,
) -> Result<char, Fail> {
    let path = PathName::read(alloc, at)?;
    Ok(match world.stat(alloc, &path, form)? {
        Info::Missing => '-',
        Info::Directory => 'd',
        Info::File { .. } => 'f',
        Info::Link { .. } => 'l',
    })
}

// The status, and what stands at an output then, after the order of a row.
fn outcome<W: World<ToyLaw>>(
    alloc: Global,
    world: &mut W,
    place: usize,
    at: &str,
) -> Result<(Exit, char, char), Fail> {
    let exit = perform(alloc, world, place, List::new(alloc))?;
    let itself = letter(alloc, world, at, Form::Link)?;
    let followed = letter(alloc, world, at, Form::Follow)?;
    Ok((exit, itself, followed))
}

// A world in memory in which this stands at a path. A link is made by an order for another path's maker.
fn furnished(alloc: Global, at: &str, what: char) -> Result<MemoryWorld, Fail> {
    let mut world = MemoryWorld::new(alloc, List::new(alloc));
    let path = PathName::read(alloc, at)?;
    match what {
        'd' => world.dir(alloc, &path)?,
        'f' => world.set(alloc, &path, List::new(alloc))?,
        'l' => make_link(alloc, &mut world, path)?,
        _ => {}
    }
    Ok(world)
}

fn make_link(alloc: Global, world: &mut MemoryWorld, path: PathName) -> Result<(), Fail> {
    let Ok(manifest) = load(alloc, MANIFEST.as_bytes()) else {
        return Ok(());
    };
    if let Some(mut order) = order_at(alloc, &manifest, LINK, List::new(alloc))? {
        order.outputs = List::new(alloc);
        order.outputs.push(path)?;
        world.begin(alloc, order)?;
    }
    if world.begun() > 0 {
        world.end(alloc)?;
    }
    Ok(())
}

#[test]
fn orders_are_performed_in_memory(rt: HostRuntime) -> Result<(), Fail> {
    let alloc = rt.alloc();
    for (place, at, before, code, itself, followed) in ROWS {
        let mut world = furnished(alloc, at, before)?;
        let now = outcome(alloc, &mut world, place, at)?;
        assert_eq!(rt;
            now,
            (Exit::Code(code), itself, followed),
            "at {at} {before}"
        );
    }
    Ok(())
}

// Makes this stand at a real path.
fn furnish<R: Files>(rt: &R, at: &str, what: char) -> io::Result<()> {
    match what {
        'd' => fs::create_dir(rt, at),
        'f' => fs::write(rt, at, b"old".as_slice()),
        'l' => symlink(rt, "orders_nowhere", at),
        _ => Ok(()),
    }
}

// Removes what stands at a real path.
fn remove<R: Files>(rt: &R, at: &str, what: char) -> io::Result<()> {
    match what {
        'd' => fs::remove_dir(rt, at),
        '-' => Ok(()),
        _ => fs::remove_file(rt, at),
    }
}

#[test]
fn orders_are_performed_on_real_files(rt: HostRuntime) -> Result<(), Fail> {
    let alloc = rt.alloc();
    let mut world = RealWorld::new(rt);
    for (place, at, before, code, itself, followed) in ROWS {
        furnish(&rt, at, before)?;
        let now = outcome(alloc, &mut world, place, at)?;
        remove(&rt, at, itself)?;
        assert_eq!(rt;
            now,
            (Exit::Code(code), itself, followed),
            "at {at} {before}"
        );
    }
    Ok(())
}

// What was read of the two files of an archive in memory.
fn two_files(alloc: Global) -> Result<List<Read>, Fail> {
    let mut reads = List::new(alloc);
    for at in ["orders_one", "orders_two"] {
        reads.push(Read {
            node: NodeName::Path(PathName::read(alloc, at)?),
            reading: Reading::File(Info::Missing),
        })?;
    }
    Ok(reads)
}

// The status of the archive's order in memory over what stands there, and what stands there then.
fn packed_in_memory(alloc: Global, before: char) -> Result<(Exit, char), Fail> {
    let reads = two_files(alloc)?;
    let mut world = furnished(alloc, "orders_pack.a", before)?;
    let exit = perform(alloc, &mut world, PACK, reads)?;
    let now = letter(alloc, &mut world, "orders_pack.a", Form::Link)?;
    Ok((exit, now))
}

#[test]
fn archives_are_made_in_memory(rt: HostRuntime) -> Result<(), Fail> {
    for (before, code, now) in [('f', 0, 'f'), ('d', 1, 'd')] {
        assert_eq!(rt;
            packed_in_memory(rt.alloc(), before)?,
            (Exit::Code(code), now),
            "over {before}"
        );
    }
    Ok(())
}

// Makes an archive over what stands there: whether it was made, and what stands there then. `ar` refuses a file that is no
// archive, so the old file was removed.
fn packed(rt: HostRuntime, place: usize, at: &str, before: char) -> Result<(bool, char), Fail> {
    furnish(&rt, at, before)?;
    let mut world = RealWorld::new(rt);
    let exit = perform(rt.alloc(), &mut world, place, List::new(rt.alloc()))?;
    let now = letter(rt.alloc(), &mut world, at, Form::Link)?;
    remove(&rt, at, now)?;
    Ok((exit == Exit::Code(0), now))
}

#[test]
fn archives_are_made_where_ar_is_installed(rt: HostRuntime) -> Result<(), Fail> {
    if fs::metadata(&rt, "/usr/bin/ar").is_err() {
        return Ok(());
    }
    furnish(&rt, "orders_one", 'f')?;
    furnish(&rt, "orders_two", 'f')?;
    for (before, outcome) in [('-', (true, 'f')), ('f', (true, 'f')), ('d', (false, 'd'))] {
        let now = packed(rt, PACK, "orders_pack.a", before)?;
        assert_eq!(rt; now, outcome, "over {before}");
    }
    assert!(rt; !packed(rt, LOST, "orders_lost.a", '-')?.0);
    remove(&rt, "orders_one", 'f')?;
    remove(&rt, "orders_two", 'f')?;
    Ok(())
}
