//! The job that words ask for, its manifest and its target.
ghost use Rattle.std.specs.Prelude.{◌≡◌, ◌⊎◌, Some, None, Ok, IsTrue, map, string_bytes, IfOk, IfErr, OnOk};
ghost use Rattle.std.specs.Option.{option_copied};
ghost use Rattle.std.specs.Str.{is_utf8};
ghost use Rattle.outside.specs.View.{Stayed};
ghost use Rattle.manifest_reader.specs.Load.{loaded};
ghost use Rattle.build_manifest.specs.Manifest.{IsManifest};
ghost use Rattle.build_manifest.specs.Places.{target_named};
ghost use Rattle.build_meaning.specs.Need.{AreMarks};
ghost use Rattle.build_plan.specs.Built.{IsBuilt};
ghost use Rattle.command_line.specs.Job.{IsText, NamesText, served_job};
ghost use Rattle.llbuild_cli.specs.Course.{IsNoJob};
ghost use Rattle.llbuild_cli.specs.Open.{IsUnloaded, IsUnbuilt, IsOpened, IsSpelled, IsTreeText};
ghost use Rattle.llbuild_cli.specs.Plan.{IsAnswer, IsUnopened, no_target, target_in};

use crate::refusal::Refusal;
use build_manifest::command::TargetEntry;
use build_manifest::manifest::Manifest;
use build_plan::plan::{Unbuilt, plan};
use command_line::job::Job;
use command_line::words::read_words;
use file_info::copied::Copied;
use file_info::list::{Bytes, List};
use file_info::path::PathName;
use manifest_reader::error::LoadError;
use manifest_reader::load::load;
use outside::disk::FileBytes;
use outside::law::Law;
use outside::world::World;
use std::alloc::Global;
use yaml_profile::{YamlError, print, read};

/// The most bytes that a manifest has.
pub const MANIFEST_MAX: u64 = 67_108_864;

/// The job that the words ask for, where it is served.
pub fn job_of(alloc: Global, words: &[String]) -> Result<Job, Refusal>
    ensures ok { IfOk result (λ job. served_job (map string_bytes words.now) ≡ Ok job) }
    ensures text { IfOk result NamesText }
    ensures refused { IfErr result (IsNoJob (served_job (map string_bytes words.now))) }
{
    let job = read_words(alloc, words)?;
    Ok(job)
}

// That no file stands where the manifest is due.
fn no_file(alloc: Global, file: &PathName) -> Refusal
    ensures { (result ≡ Refusal.NoFile file.now) ⊎ (result ≡ Refusal.NoMemory) }
{
    match file.copy(alloc) {
        Ok(path) => Refusal::NoFile { path },
        Err(_) => Refusal::NoMemory,
    }
}

// The bytes of a manifest's file.
fn bytes_of<L: Law, W: World<L>>(
    alloc: Global,
    file: &PathName,
    world: &mut W,
) -> Result<Bytes, Refusal>
    ensures ok { IfOk result (λ bytes. IsAnswer W.gave (W.view world.old) (W.view world.new) file.now (FileBytes.Bytes bytes)) }
    ensures refused { IfErr result (IsUnopened W.gave (W.view world.old) (W.view world.new) file.now) }
    ensures stayed { Stayed (W.view world.old) (W.view world.new) }
{
    match world.read(alloc, file, MANIFEST_MAX)? {
        FileBytes::Bytes(bytes) => Ok(bytes),
        FileBytes::Missing => Err(no_file(alloc, file)),
        FileBytes::NotFile => Err(no_file(alloc, file)),
        FileBytes::TooLong => Err(Refusal::Manifest(LoadError::Yaml(YamlError::TooLong))),
    }
}

// The manifest of these bytes.
fn manifest_of(alloc: Global, bytes: &Bytes) -> Result<Manifest, Refusal>
    ensures ok { IfOk result (λ manifest. loaded bytes.now ≡ Ok manifest) }
    ensures kept { IfOk result (λ manifest. IsManifest manifest) }
    ensures refused { IfErr result (IsUnloaded bytes.now) }
{
    let manifest = load(alloc, bytes.as_slice())?;
    Ok(manifest)
}

/// Reads the manifest at a path.
pub fn open<L: Law, W: World<L>>(
    alloc: Global,
    file: &PathName,
    world: &mut W,
) -> Result<Manifest, Refusal>
    ensures ok { IfOk result (λ manifest. IsOpened W.gave (W.view world.old) (W.view world.new) file.now manifest) }
    ensures refused { IfErr result (IsUnopened W.gave (W.view world.old) (W.view world.new) file.now) }
    ensures stayed { Stayed (W.view world.old) (W.view world.new) }
{
    let bytes = bytes_of(alloc, file, world)?;
    manifest_of(alloc, &bytes)
}

// The spelling of the tree of a manifest's bytes.
fn spelling_of(alloc: Global, bytes: &Bytes) -> Result<Bytes, Refusal>
    ensures ok { IfOk result (IsSpelled bytes.now) }
    ensures refused { IfErr result (λ refusal. refusal ≡ Refusal.NoMemory) }
{
    // The manifest was accepted, so that want of memory is the only refusal that is left.
    let Ok(tree) = read(alloc, bytes.as_slice()) else {
        return Err(Refusal::NoMemory);
    };
    let mut text = List::new(alloc);
    print(alloc, &tree, &mut text)?;
    Ok(text)
}

/// The spelling of the tree of the manifest at a path, where that is accepted.
pub fn tree_text<L: Law, W: World<L>>(
    alloc: Global,
    file: &PathName,
    world: &mut W,
) -> Result<Bytes, Refusal>
    ensures ok { IfOk result (IsTreeText W.gave (W.view world.old) (W.view world.new) file.now) }
    ensures refused { IfErr result (IsUnopened W.gave (W.view world.old) (W.view world.new) file.now) }
    ensures stayed { Stayed (W.view world.old) (W.view world.new) }
{
    let bytes = bytes_of(alloc, file, world)?;
    let _accepted = manifest_of(alloc, &bytes)?;
    spelling_of(alloc, &bytes)
}

// The target of this name, which is UTF-8.
fn target_named<'m>(manifest: &'m Manifest, name: &Bytes) -> Option<&'m TargetEntry>
    requires { IsTrue (is_utf8 name.now) }
    ensures { option_copied result ≡ target_named manifest.now.targets name.now }
{
    match std::str::from_utf8(name.as_slice()) {
        Ok(name) => manifest.target(name),
        Err(_) => None,
    }
}

/// The target of this name in a manifest, or its default where none is named. None exactly where it has no such target.
pub fn target_in<'m>(manifest: &'m Manifest, target: &Option<Bytes>) -> Option<&'m TargetEntry>
    requires { IsText target.now }
    ensures { option_copied result ≡ target_in manifest.now target.now }
{
    match target {
        Some(name) => target_named(manifest, name),
        None => manifest.default_target(),
    }
}

/// Why a manifest has no such target.
pub fn no_target(target: Option<Bytes>) -> Refusal
    ensures { result ≡ no_target target }
{
    match target {
        Some(name) => Refusal::UnknownTarget { name },
        None => Refusal::NoDefault,
    }
}

/// The commands that the target needs, one mark for each place, where all that it needs is built.
pub fn marks_of(
    alloc: Global,
    manifest: &Manifest,
    target: &TargetEntry,
) -> Result<Vec<bool>, Refusal>
    ensures marks { IfOk result (λ marks. AreMarks manifest.now.commands target.now.nodes marks.items) }
    ensures built { OnOk result (IsBuilt manifest.now target.now) }
    ensures refused { IfErr result (IsUnbuilt manifest.now target.now) }
{
    match plan(alloc, manifest, target) {
        Ok(marks) => Ok(marks),
        Err(Unbuilt::Asker(asker)) => Err(Refusal::NotBuilt { asker }),
        Err(Unbuilt::Later { command, node }) => Err(Refusal::LaterMaker { command, node }),
        Err(Unbuilt::NoMemory) => Err(Refusal::NoMemory),
    }
}
