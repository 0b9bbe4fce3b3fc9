//! Whole runs, over worlds in memory and over real files.
ghost use Rattle.std.specs.Prelude.{◌≡◌, [], IfOk};

use build_report::report::{End, Finish, Heard, Outcome, Reason, Report, Start};
use file_info::info::Info;
use file_info::list::{Bytes, List};
use file_info::path::PathName;
use llbuild_cli::in_memory::run_in_memory;
use llbuild_cli::run::run_alone;
use memory_files::write::What;
use memory_world::memory::MemoryWorld;
use memory_world::sinks::VecSink;
use memory_world::toy::ToyLaw;
use outside::order::Act;
use outside::world::{NoFault, World};
use real_world::world::RealWorld;
use std::alloc::Global;
use std::fs;
use std::process::Abort;
use std::str::Split;
use std::test::Fail;

const LINE: &str = "buildsystem build --serial --no-db -f m.llbuild all";

// One command, which makes `t` of `s`.
const ONE: &str = "client:
  name: basic
targets:
  all: [t]
commands:
  p:
    tool: shell
    inputs: [s]
    outputs: [t]
    args: [cp, s, t]
";

// The same command, and a target that needs a source besides.
const WIDE: &str = "client: {name: basic}
targets: {all: [t, ./u]}
commands:
  p: {tool: shell, inputs: [s], outputs: [t], args: [cp, s, t]}
";

// The same command for the default target, and another target.
const DEFAULT: &str = "client: {name: basic}
targets: {none: [s], all: [t]}
default: all
commands:
  p: {tool: shell, inputs: [s], outputs: [t], args: [cp, s, t]}
";

// A command before the maker of one of its inputs.
const LATER: &str = "client: {name: basic}
targets: {all: [t]}
commands:
  p: {tool: shell, inputs: [s, u], outputs: [t], args: [cat, s, u]}
  q: {tool: shell, outputs: [u], args: [make, u]}
";

// A chain of three commands, two of which need `s`, and one that the target does not need.
const CHAIN: &str = "client: {name: basic}
targets: {all: [c], rest: [d]}
commands:
  first: {tool: shell, outputs: [a], args: [make, a]}
  rest: {tool: shell, inputs: [a], outputs: [d], args: [cp, a, d]}
  second: {tool: shell, inputs: [a, s], outputs: [b], args: [cat, a, s]}
  third: {tool: shell, inputs: [b, s], outputs: [c], args: [cat, b, s]}
";

const CHAIN_OUT: &str = "[1] first\n[2] second\n[3] third\nok: 3 started\n";

// What a run in memory meets: the manifest, the text of `s`, the words, the numbers of the calls that fail, and how many
// bytes `out` takes.
#[derive(Clone, Copy)]
struct Setting<'a> {
    manifest: &'a str,
    source: Option<&'a str>,
    line: &'a str,
    world_fails: &'a [u64],
    out_fails: &'a [u64],
    err_fails: &'a [u64],
    room: usize,
}

// A run, and what it left.
#[derive(Drop)]
struct Ran {
    finish: Finish<NoFault>,
    world: MemoryWorld,
    out: VecSink,
    err: VecSink,
}

fn without_faults<'a>(manifest: &'a str, source: Option<&'a str>, line: &'a str) -> Setting<'a> {
    Setting {
        manifest,
        source,
        line,
        world_fails: &[],
        out_fails: &[],
        err_fails: &[],
        room: 1000,
    }
}

fn numbers(alloc: Global, numbers: &[u64]) -> Result<List<u64>, Fail> {
    Ok(List::from_vec(Vec::from_slice(alloc, numbers)?))
}

fn sink(alloc: Global, room: usize, failing: &[u64]) -> Result<VecSink, Fail> {
    Ok(VecSink::new(alloc, room, numbers(alloc, failing)?)?)
}

fn words_of(alloc: Global, line: &str) -> Result<Vec<String>, Fail> {
    let mut words = Vec::new(alloc);
    for word in line.split(' ') {
        words.push(String::from_str(alloc, word)?)?;
    }
    Ok(words)
}

// Writes a file.
fn set(alloc: Global, world: &mut MemoryWorld, at: &str, text: &str) -> Result<(), Fail>
    ensures { world.new.begun ≡ world.old.begun }
{
    let path = PathName::read(alloc, at)?;
    let text: Bytes = List::from_vec(Vec::from_slice(alloc, text.as_bytes())?);
    world.set(alloc, &path, text)?;
    Ok(())
}

fn world_of(alloc: Global, setting: &Setting<'_>) -> Result<MemoryWorld, Fail>
    ensures { IfOk result (λ world. world.begun ≡ []) }
{
    let mut world = MemoryWorld::new(alloc, numbers(alloc, setting.world_fails)?);
    set(alloc, &mut world, "m.llbuild", setting.manifest)?;
    if let Some(text) = setting.source {
        set(alloc, &mut world, "s", text)?;
    }
    Ok(world)
}

fn run(alloc: Global, setting: &Setting<'_>) -> Result<Ran, Fail> {
    let words = words_of(alloc, setting.line)?;
    let mut world = world_of(alloc, setting)?;
    let mut out = sink(alloc, setting.room, setting.out_fails)?;
    let mut err = sink(alloc, 1000, setting.err_fails)?;
    let finish = run_in_memory(alloc, words.as_slice(), &mut world, &mut out, &mut err);
    Ok(Ran {
        finish,
        world,
        out,
        err,
    })
}

fn end_name(end: &End<NoFault>) -> &'static str {
    match end {
        End::Ok => "Ok",
        End::CommandFailed { .. } => "CommandFailed",
        End::MissingInput { .. } => "MissingInput",
        End::LaterMaker { .. } => "LaterMaker",
        End::Usage(_) => "Usage",
        End::NoFile { .. } => "NoFile",
        End::Manifest(_) => "Manifest",
        End::UnknownTarget { .. } => "UnknownTarget",
        End::NoDefault => "NoDefault",
        End::NotBuilt { .. } => "NotBuilt",
        End::DiskFault => "DiskFault",
        End::HostFault { .. } => "HostFault",
        End::SinkFault => "SinkFault",
        End::NoMemory => "NoMemory",
    }
}

// The run ended so, with this status, and wrote this on the sink of errors.
fn ended(rt: &impl Abort, ran: &Ran, end: &str, status: u8, err: &str) {
    assert_eq!(rt; end_name(&ran.finish.report.end), end);
    assert_eq!(rt; ran.finish.status, status);
    assert_eq!(rt; ran.err.bytes(), err.as_bytes());
}

// The command of this name was started with its name shown, and ended with success.
fn was_done(rt: &impl Abort, start: &Start, heard: &Heard, name: &str) {
    assert_eq!(rt; start.command.text(), name);
    assert_eq!(rt; start.shown.as_slice(), name.as_bytes());
    assert!(rt; matches!(&start.reason, Reason::NeverBuilt));
    assert_eq!(rt; heard.order.command.text(), name);
    assert!(rt; matches!(&heard.outcome, Outcome::Done { .. }));
}

// The commands of these names were started and ended with success, in this order.
fn all_done(rt: &impl Abort, report: &Report<NoFault>, names: &[&str]) {
    assert_eq!(rt; report.starts.len(), names.len());
    assert_eq!(rt; report.heard.len(), names.len());
    let ends = report.starts.as_slice().iter().zip(report.heard.as_slice());
    for ((start, heard), name) in ends.zip(names) {
        was_done(rt, start, heard, name);
    }
}

// The whole build of these commands succeeded: it wrote this, and it asked for `s` once and for nothing else.
fn built(rt: &impl Abort, ran: &Ran, names: &[&str], out: &str) {
    ended(rt, ran, "Ok", 0, "");
    assert_eq!(rt; ran.out.bytes(), out.as_bytes());
    all_done(rt, &ran.finish.report, names);
    let [seen] = ran.finish.report.stats.as_slice() else {
        return assert!(rt; false);
    };
    assert_eq!(rt; seen.path.text(), "s");
    assert!(rt; matches!(&seen.info, Info::File { .. }));
}

// A build of `CHAIN` stopped after so many starts: a beginning of what the whole build writes was written, with a line for
// each start.
fn stopped(rt: &impl Abort, ran: &Ran, starts: usize) {
    let out = ran.out.bytes();
    let lines = out.iter().filter(|byte| **byte == b'\n').count();
    assert!(rt; CHAIN_OUT.as_bytes().starts_with(out));
    assert_eq!(rt; lines, starts);
    assert_eq!(rt; ran.finish.report.starts.len(), starts);
}

// The last write left a file with these bytes at this path.
fn wrote_last(rt: &impl Abort, world: &MemoryWorld, path: &str, text: &[u8]) {
    let Some(write) = world.writes().last() else {
        return assert!(rt; false);
    };
    assert_eq!(rt; write.path.text(), path);
    match &write.what {
        What::Bytes(bytes) => assert_eq!(rt; bytes.as_slice(), text),
        _ => assert!(rt; false),
    }
}

// What another program gave for the digest of the command of `ONE` on the source `one`.
const DIGEST: [u8; 32] = [
    0xcf, 0x6e, 0x4c, 0xf7, 0x06, 0x0b, 0xfa, 0x76, 0x1b, 0xa0, 0xd7, 0x96, 0xf5, 0x49, 0x6c, 0x06,
    0xf3, 0x99, 0x65, 0x4c, 0x29, 0x17, 0xf8, 0x34, 0x17, 0x55, 0xc7, 0xde, 0x38, 0xf7, 0xe2, 0x6c,
];

#[test]
fn needed_commands_are_built(rt: HostRuntime) -> Result<(), Fail> {
    let one = run(rt.alloc(), &without_faults(ONE, Some("one"), LINE))?;
    built(&rt, &one, &["p"], "[1] p\nok: 1 started\n");
    wrote_last(&rt, &one.world, "t", DIGEST.as_slice());
    let chain = run(rt.alloc(), &without_faults(CHAIN, Some("one"), LINE))?;
    built(&rt, &chain, &["first", "second", "third"], CHAIN_OUT);
    Ok(())
}

// Runs, one a line: the manifest, the text of `s` or `-` for no such file, the words, and then the end, the status, and what is
// written on `out` and on `err`. A `;` stands for the end of a line.
const ENDS: &str = "\
one|-|buildsystem build --serial --no-db -f m.llbuild all|MissingInput|1||error: p needs s, which is missing;
wide|one|buildsystem build --serial --no-db -f m.llbuild all|MissingInput|1|[1] p;|error: all needs ./u, which is missing;
one|fail|buildsystem build --serial --no-db -f m.llbuild all|CommandFailed|1|[1] p;|error: command p ended with status 1;
chain|fail|buildsystem build --serial --no-db -f m.llbuild all|CommandFailed|1|[1] first;[2] second;|error: command second ended with status 1;
later|one|buildsystem build --serial --no-db -f m.llbuild all|LaterMaker|1||error: command p needs u, which a later command makes;
later|-|buildsystem build --serial --no-db -f m.llbuild all|LaterMaker|1||error: command p needs u, which a later command makes;
short|-|buildsystem build --serial --no-db -f m.llbuild all|UnknownTarget|2||error: unknown target all;
other|-|buildsystem build --serial --no-db -f m.llbuild all|Manifest|2||error: manifest: wrong client other version 0;
alias|-|buildsystem build --serial --no-db -f m.llbuild all|Manifest|2||error: manifest: left out at byte 8: alias;
one|one|buildsystem build --no-db --serial all -f m.llbuild|Ok|0|[1] p;ok: 1 started;|
default|one|buildsystem build --serial --no-db -f m.llbuild|Ok|0|[1] p;ok: 1 started;|
default|one|buildsystem build --serial --no-db -f m.llbuild none|Ok|0|ok: 0 started;|
default|-|buildsystem build --serial --no-db -f m.llbuild|MissingInput|1||error: p needs s, which is missing;
one|one|buildsystem build --serial --no-db -f m.llbuild|NoDefault|2||error: no default target;
one|one|buildsystem build --serial --no-db -f m.llbuild nope|UnknownTarget|2||error: unknown target nope;
one|-|buildsystem build --serial --no-db -f m.llbuild |UnknownTarget|2||error: unknown target ;
one|one|buildsystem build --serial --no-db|NoFile|2||error: no file build.llbuild;
one|one|buildsystem build --serial --no-db -f ./other//m.llbuild all|NoFile|2||error: no file other/m.llbuild;
one|one|buildsystem build --serial --no-db -f . all|NoFile|2||error: no file .;
one|one||Usage|2||error: usage: no such command;
one|one|buildsystem Build --serial --no-db -f m.llbuild all|Usage|2||error: usage: no such command;
one|one|buildsystem build --serial --no-db -f m.llbuild all t|Usage|2||error: usage: the words are refused;
one|one|buildsystem build -j 0|Usage|2||error: usage: bad number for -j;
one|one|buildsystem build --serial --no-db -f /.. all|Usage|2||error: usage: bad path for -f;
one|one|buildsystem build --serial --no-db -j 2 -f m.llbuild all|Usage|2||error: usage: --serial excludes -j;
one|one|buildsystem build --serial -f m.llbuild all|Usage|2||error: usage: not built yet;
one|one|buildsystem build --no-db -f m.llbuild all|Usage|2||error: usage: not built yet;
one|one|db dump|Usage|2||error: usage: not built yet;
one|-|buildsystem parse|NoFile|2||error: no file build.llbuild;
one|-|buildsystem parse -f|Usage|2||error: usage: the words are refused;
other|-|buildsystem parse -f m.llbuild|Manifest|2||error: manifest: wrong client other version 0;
alias|-|buildsystem parse -f m.llbuild|Manifest|2||error: manifest: left out at byte 8: alias;
row|-|buildsystem parse -f m.llbuild|Ok|0|\"client\":;  \"name\": \"basic\";\"targets\":;  \"all\": [\"a\", \"b c\"];|";

// The manifest of a name in `ENDS`.
fn manifest_named(name: &str) -> &'static str {
    match name {
        "one" => ONE,
        "wide" => WIDE,
        "default" => DEFAULT,
        "later" => LATER,
        "chain" => CHAIN,
        "row" => "client: {name: basic}\ntargets: {all: [a, 'b c']}\n",
        "short" => "client: {name: basic}\n",
        "other" => "client: {name: other}\n",
        _ => "client: *name\n",
    }
}

// These bytes are the text, in which a `;` stands for the end of a line.
fn wrote(rt: &impl Abort, bytes: &[u8], text: &str) {
    assert_eq!(rt; bytes.len(), text.len(), "of {text:?}");
    for (byte, shown) in bytes.iter().zip(text.bytes()) {
        assert_eq!(rt;
            *byte,
            if shown == b';' { b'\n' } else { shown },
            "of {text:?}"
        );
    }
}

// The next cell of a row.
fn cell<'a>(row: &mut Split<'a, char>) -> &'a str {
    row.next().unwrap_or("")
}

// A run ended as the cells of the row say, and this is what it wrote.
fn is_as(
    rt: &impl Abort,
    finish: &Finish<NoFault>,
    out: &VecSink,
    err: &VecSink,
    row: &mut Split<'_, char>,
) {
    assert_eq!(rt; end_name(&finish.report.end), cell(row));
    assert_eq!(rt; cell(row).parse::<u8>().ok(), Some(finish.status));
    wrote(rt, out.bytes(), cell(row));
    wrote(rt, err.bytes(), cell(row));
}

#[test]
fn runs_have_their_ends(rt: HostRuntime) -> Result<(), Fail> {
    for row in ENDS.lines() {
        let mut row = row.split('|');
        let manifest = manifest_named(cell(&mut row));
        let source = Some(cell(&mut row)).filter(|text| *text != "-");
        let ran = run(
            rt.alloc(),
            &without_faults(manifest, source, cell(&mut row)),
        )?;
        is_as(&rt, &ran.finish, &ran.out, &ran.err, &mut row);
    }
    Ok(())
}

// Targets of which each uses one thing that is not built yet, or is built beside what is not.
const WIDER: &str = "client: {name: basic}
targets:
  all: ['<all>']
  tree: [d/]
  env: [a]
  follow: [b]
  input: [c]
  later: [e]
  own: [o]
  missing: [h]
  apart: [i]
  deps: [j]
  signed: [k]
  both: [k, a]
  leave: [l]
  always: [m]
  virtual: [n]
  folder: [g]
  beside: [t]
  line: [u]
  shown: [w]
  mixed: [e, i]
commands:
  sets: {tool: shell, outputs: [a], args: [make, a], env: {K: v}}
  follows: {tool: shell, outputs: [b], args: [make, b], must-follow: [s]}
  lists: {tool: shell, inputs: [d/], outputs: [c], args: [list, d]}
  early: {tool: shell, inputs: [f], outputs: [e], args: [cp, f, e]}
  late: {tool: shell, outputs: [f], args: [make, f]}
  turns: {tool: shell, inputs: [o], outputs: [o], args: [cp, o, o]}
  lacks: {tool: shell, inputs: [a], outputs: [h], args: [cp, a, h]}
  bare: {tool: shell, outputs: [i], args: [make, i], inherit-env: false}
  tells: {tool: shell, outputs: [j], args: [make, j], deps: j.d}
  signs: {tool: shell, outputs: [k], args: [make, k], signature: one}
  leaves: {tool: shell, outputs: [l], args: [make, l], allow-missing-inputs: true}
  repeats: {tool: shell, outputs: [m], args: [make, m], always-out-of-date: true}
  marks: {tool: shell, outputs: [n, '<n>'], args: [make, n]}
  makes: {tool: mkdir, outputs: [g]}
  stands: {tool: phony, inputs: [t], outputs: ['<all>']}
  p: {tool: shell, inputs: [s], outputs: [t], args: [cp, s, t]}
  line: {tool: shell, inputs: [s], outputs: [u], args: cp s u}
  shown: {tool: shell, inputs: [s], outputs: [w], args: [cp, s, w], description: copies s}
";

// A target of `WIDER` a line, the end of a run that builds it, the status, and what is written on `out` and on `err`.
const WIDER_ENDS: &str = "\
all|NotBuilt|2||error: all uses what is not built yet;
tree|NotBuilt|2||error: tree uses what is not built yet;
env|NotBuilt|2||error: sets uses what is not built yet;
follow|NotBuilt|2||error: follows uses what is not built yet;
input|NotBuilt|2||error: lists uses what is not built yet;
later|LaterMaker|1||error: command early needs f, which a later command makes;
own|LaterMaker|1||error: command turns needs o, which a later command makes;
mixed|NotBuilt|2||error: bare uses what is not built yet;
missing|NotBuilt|2||error: sets uses what is not built yet;
apart|NotBuilt|2||error: bare uses what is not built yet;
deps|NotBuilt|2||error: tells uses what is not built yet;
signed|NotBuilt|2||error: signs uses what is not built yet;
both|NotBuilt|2||error: sets uses what is not built yet;
leave|NotBuilt|2||error: leaves uses what is not built yet;
always|NotBuilt|2||error: repeats uses what is not built yet;
virtual|NotBuilt|2||error: marks uses what is not built yet;
folder|NotBuilt|2||error: makes uses what is not built yet;
beside|Ok|0|[1] p;ok: 1 started;|
line|Ok|0|[1] line;ok: 1 started;|
shown|Ok|0|[1] copies s;ok: 1 started;|";

// The run that builds this target of `WIDER` on the source `one`.
fn run_wider(alloc: Global, target: &str) -> Result<Ran, Fail> {
    let line = format!(in alloc; "buildsystem build --serial --no-db -f m.llbuild {target}")?;
    run(alloc, &without_faults(WIDER, Some("one"), line.as_str()))
}

#[test]
fn targets_have_their_ends(rt: HostRuntime) -> Result<(), Fail> {
    for row in WIDER_ENDS.lines() {
        let mut row = row.split('|');
        let ran = run_wider(rt.alloc(), cell(&mut row))?;
        is_as(&rt, &ran.finish, &ran.out, &ran.err, &mut row);
    }
    Ok(())
}

// The only order of the run started these words.
fn spawned(rt: &impl Abort, report: &Report<NoFault>, words: &[&str]) {
    let [heard] = report.heard.as_slice() else {
        return assert!(rt; false);
    };
    let Act::Spawn { words: started, .. } = &heard.order.act else {
        return assert!(rt; false);
    };
    assert_eq!(rt; started.len(), words.len());
    for (word, wanted) in started.as_slice().iter().zip(words) {
        assert_eq!(rt; word.as_slice(), wanted.as_bytes());
    }
}

#[test]
fn a_line_is_handed_to_the_shell(rt: HostRuntime) -> Result<(), Fail> {
    let ran = run_wider(rt.alloc(), "line")?;
    spawned(&rt, &ran.finish.report, &["/bin/sh", "-c", "cp s u"]);
    Ok(())
}

// How many commands of `CHAIN` are started where one call fails: first each call of the world in turn, and then each of
// `out`. The world reads the manifest, begins each command, ends it and is asked for its output, and is asked for `s` once,
// before the second. There is one call of `out` for each line.
const STARTED: [usize; 15] = [0, 1, 1, 1, 1, 2, 2, 2, 3, 3, 3, 0, 1, 2, 3];

#[test]
fn each_call_fails(rt: HostRuntime) -> Result<(), Fail> {
    for (place, starts) in STARTED.iter().enumerate() {
        // The world has no call after the eleventh, and no call has the number 0.
        let of_world = [place as u64 + 1];
        let of_out = [(place as u64).saturating_sub(10)];
        let mut failing = without_faults(CHAIN, Some("one"), LINE);
        failing.world_fails = &of_world;
        failing.out_fails = &of_out;
        let ran = run(rt.alloc(), &failing)?;
        if place < 11 {
            ended(&rt, &ran, "DiskFault", 3, "error: the disk failed\n");
            assert_eq!(rt; ran.world.faults(), 1);
        } else {
            ended(&rt, &ran, "SinkFault", 3, "");
            assert_eq!(rt; ran.out.faults(), 1);
            assert_eq!(rt; ran.finish.report.heard.len(), *starts);
        }
        stopped(&rt, &ran, *starts);
        assert_eq!(rt; ran.world.begun(), 0);
    }
    Ok(())
}

#[test]
fn out_has_little_room(rt: HostRuntime) -> Result<(), Fail> {
    for room in 0..CHAIN_OUT.len() {
        let little = Setting {
            room,
            ..without_faults(CHAIN, Some("one"), LINE)
        };
        let ran = run(rt.alloc(), &little)?;
        ended(&rt, &ran, "SinkFault", 3, "");
        stopped(&rt, &ran, ran.finish.report.starts.len());
        assert_eq!(rt; ran.out.bytes().len(), room);
    }
    Ok(())
}

// What is printed of the manifest `ONE`.
const SPELLED: &str = "\"client\":
  \"name\": \"basic\"
\"targets\":
  \"all\": [\"t\"]
\"commands\":
  \"p\":
    \"tool\": \"shell\"
    \"inputs\": [\"s\"]
    \"outputs\": [\"t\"]
    \"args\": [\"cp\", \"s\", \"t\"]
";

// The printing of `ONE` with so much room on `out`, of which these puts fail.
fn printed(alloc: Global, room: usize, out_fails: &[u64]) -> Result<Ran, Fail> {
    let setting = Setting {
        room,
        out_fails,
        ..without_faults(ONE, None, "buildsystem parse -f m.llbuild")
    };
    run(alloc, &setting)
}

// The printing of `ONE` with so much room on `out`, of which these puts fail, ends so and has written this.
fn prints(
    rt: &impl Abort,
    alloc: Global,
    out: (usize, &[u64]),
    end: &str,
    written: &[u8],
) -> Result<(), Fail> {
    let ran = printed(alloc, out.0, out.1)?;
    assert_eq!(rt; end_name(&ran.finish.report.end), end);
    assert_eq!(rt; ran.out.bytes(), written);
    assert_eq!(rt; ran.err.bytes(), b"".as_slice());
    Ok(())
}

#[test]
fn trees_are_printed(rt: HostRuntime) -> Result<(), Fail> {
    prints(&rt, rt.alloc(), (1000, &[]), "Ok", SPELLED.as_bytes())
}

#[test]
fn trees_are_printed_in_part(rt: HostRuntime) -> Result<(), Fail> {
    for room in 0..SPELLED.len() {
        let part = &SPELLED.as_bytes()[..room];
        prints(&rt, rt.alloc(), (room, &[]), "SinkFault", part)?;
    }
    Ok(())
}

#[test]
fn nothing_is_printed_at_a_fault(rt: HostRuntime) -> Result<(), Fail> {
    prints(&rt, rt.alloc(), (1000, &[1]), "SinkFault", b"")
}

// A fault of `err` changes no end.
#[test]
fn err_fails(rt: HostRuntime) -> Result<(), Fail> {
    let failing = Setting {
        err_fails: &[1],
        ..without_faults(ONE, None, LINE)
    };
    let ran = run(rt.alloc(), &failing)?;
    ended(&rt, &ran, "MissingInput", 1, "");
    assert_eq!(rt; ran.out.bytes(), b"".as_slice());
    assert_eq!(rt; ran.err.faults(), 1);
    Ok(())
}

const REAL_FILE: &str = "llbuild_test.llbuild";

const REAL_OUTPUT: &str = "llbuild_test.o";

// A target for each way in which a real command can end.
const REAL: &str = "client: {name: basic}
targets: {good: [llbuild_test.o], bad: [a], killed: [b], unknown: [c], missing: [d], line: [e]}
commands:
  touch: {tool: shell, outputs: [llbuild_test.o], args: [touch, llbuild_test.o]}
  false: {tool: shell, outputs: [a], args: ['false']}
  kill: {tool: shell, outputs: [b], args: [sh, -c, 'kill -9 $$']}
  unknown: {tool: shell, outputs: [c], args: [llbuild_test_of_no_program]}
  copy: {tool: shell, inputs: [llbuild_test_of_no_source], outputs: [d], args: [cp, s, d]}
  exit: {tool: shell, outputs: [e], args: exit 3}
";

// A target of `REAL` a line, the end of a run that builds it, the status, and what is written on `out` and on `err`.
const REAL_ENDS: &str = "\
good|Ok|0|[1] touch;ok: 1 started;|
bad|CommandFailed|1|[1] false;|error: command false ended with status 1;
killed|CommandFailed|1|[1] kill;|error: command kill was killed;
unknown|DiskFault|3|[1] unknown;|error: the disk failed;
missing|MissingInput|1||error: copy needs llbuild_test_of_no_source, which is missing;
line|CommandFailed|1|[1] exit;|error: command exit ended with status 3;";

// A run over real files, and what it wrote.
#[derive(Drop)]
struct RealRan {
    finish: Finish<NoFault>,
    out: VecSink,
    err: VecSink,
}

fn run_real(rt: HostRuntime, target: &str) -> Result<RealRan, Fail> {
    let alloc = rt.alloc();
    let mut words = words_of(
        alloc,
        "buildsystem build --serial --no-db -f llbuild_test.llbuild",
    )?;
    words.push(String::from_str(alloc, target)?)?;
    let mut out = sink(alloc, 1000, &[])?;
    let mut err = sink(alloc, 1000, &[])?;
    let mut world = RealWorld::new(rt);
    let finish = run_alone::<ToyLaw, _, _, _>(
        alloc,
        words.as_slice(),
        &mut world,
        &mut out,
        &mut err,
    );
    Ok(RealRan { finish, out, err })
}

#[test]
fn real_commands_have_their_ends(rt: HostRuntime) -> Result<(), Fail> {
    fs::write(&rt, REAL_FILE, REAL.as_bytes())?;
    for row in REAL_ENDS.lines() {
        let mut row = row.split('|');
        let ran = run_real(rt, cell(&mut row))?;
        is_as(&rt, &ran.finish, &ran.out, &ran.err, &mut row);
    }
    fs::remove_file(&rt, REAL_OUTPUT)?;
    fs::remove_file(&rt, REAL_FILE)?;
    Ok(())
}
