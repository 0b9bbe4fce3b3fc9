//! A world in memory, in which toy commands run.
ghost use Rattle.std.specs.Prelude.{◌≡◌, ◌<◌, ◌↔◌, ◌∷◌, ◌++◌, [], ℕ, length, List as Items};
ghost use Rattle.std.specs.Prelude.{IfOk, IfErr, OnOk, OnErr, IsErrOf, IsTrue, true, false, Err};
ghost use Rattle.file_info.specs.Content.{FileVersion, content, read_contents};
ghost use Rattle.file_info.specs.declared.info.Form.{Form};
ghost use Rattle.file_info.specs.Lists.{In};
ghost use Rattle.outside.specs.declared.order.Order.{Order};
ghost use Rattle.outside.specs.declared.order.Exit.TheVariants.{Code};
ghost use Rattle.outside.specs.OrderForm.{IsFormed};
ghost use Rattle.outside.specs.Outcome.{SameBut, KeepsDirectories, TakenOut, Unchanged, IsFound, found_contents, contents_at};
ghost use Rattle.outside.specs.FileRead.{FitsInfo, bytes_of};
ghost use Rattle.outside.specs.View.{Stayed, HasCause, next_count};
ghost use Rattle.memory_world.specs.Performance.{performed, exit_of};
ghost use Rattle.memory_files.specs.Log.{last_of, info_of, standing, Tells, numbered_from, map_of};
ghost use Rattle.memory_world.specs.Memory.{is_failing, faults_after, after_call, fails_next, with_order, with_left, with_writes};
ghost use Rattle.memory_world.specs.Memory.{Kept, stands, view_of};
ghost use Rattle.memory_world.specs.Toy.{ToyDoes};
ghost use Rattle.memory_world.specs.Exit.{IsToyExit};
ghost use Rattle.memory_files.specs.Edits.{after_set, after_dir, after_drop};

use crate::command::perform;
use crate::failing::{count_up, next_fails};
use crate::toy::ToyLaw;
use file_info::info::{Form, Info};
use file_info::list::{Bytes, List};
use file_info::memory::NoMemory;
use file_info::path::PathName;
use memory_files::edits;
use memory_files::files::Files;
use memory_files::write::Write;
use outside::disk::{Disk, DiskError, FileBytes};
use outside::order::{Ended, Order};
use outside::world::World;
use std::alloc::Global;
use std::collections::VecDeque;
use std::marker::Model;

/// Files in memory in which toy commands run. It keeps a record of each write, and no two writes have one number, so it
/// tells what stands at each path. The calls of `Disk` and `World` that can answer a fault are numbered from 1, and a
/// fault is answered at exactly those whose number is in a list. The oldest begun order ends first.
#[derive(Drop)]
pub struct MemoryWorld {
    files: Files,
    begun: VecDeque<Order>,
    begins: u64,
    failing: List<u64>,
    calls: u64,
    faults: u64,
}

impl Model for MemoryWorld {
    ghost use Rattle.std.specs.Prelude.{◌≡◌, []};
    ghost use Rattle.memory_world.specs.Memory.{Memory};

    ghost Value = { Memory };

    ghost view = { λ w. record {
      writes = w.files.writes;
      begun = w.begun.items;
      begins = w.begins;
      failing = w.failing;
      calls = w.calls;
      faults = w.faults;
    } };

    ghost invariant = { λ w. w.failing ≡ [] → w.faults ≡ 0 };
}

// Counts a call, which fails where the list says so.
fn count_call(calls: &mut u64, failing: &List<u64>, faults: &mut u64) -> Result<(), DiskError>
    ensures calls { calls.new ≡ next_count calls.old }
    ensures ok { OnOk result (is_failing failing.now calls.new ≡ false) }
    ensures err { IfErr result (λ error. (error ≡ DiskError.Fault) × (is_failing failing.now calls.new ≡ true)) }
    ensures faults { faults.new ≡ faults_after failing.now calls.new faults.old }
{
    if next_fails(calls, failing) {
        count_up(faults);
        return Err(DiskError::Fault);
    }
    Ok(())
}

impl MemoryWorld {
    /// A world with no files, in which the calls of these numbers fail. It takes no memory.
    pub fn new(alloc: Global, failing: List<u64>) -> MemoryWorld
        ensures { result ≡ record { writes = []; begun = []; begins = 0; failing = failing; calls = 0; faults = 0 } }
    {
        MemoryWorld {
            files: Files::new(alloc),
            begun: VecDeque::new(alloc),
            begins: 0,
            failing,
            calls: 0,
            faults: 0,
        }
    }

    /// All writes, the oldest first. Their numbers rise from 1, so there is a map that tells them all, and where a map
    /// tells them, the content that it gives at what stands is what stands.
    pub fn writes(&self) -> &[Write]
        ensures value { result.now ≡ self.now.writes }
        ensures numbered { IsTrue (numbered_from 1 self.now.writes) }
        ensures told { Tells self.now.writes (map_of self.now.writes) }
        ensures contents { (m : Items FileVersion) (p : Items ℕ) (f : Form) → Tells self.now.writes m
            → content m p (info_of (last_of self.now.writes p) f) ≡ standing self.now.writes p f }
    {
        self.files.writes()
    }

    /// Writes a file, and makes directories above it where nothing stands. Through a file or a link, and on a directory,
    /// it does nothing. It is no call of a world: it is not counted and cannot fail but for want of memory, and then
    /// nothing is written.
    pub fn set(&mut self, alloc: Global, path: &PathName, text: Bytes) -> Result<(), NoMemory>
        ensures ok { OnOk result (self.new ≡ with_writes self.old (after_set self.old.writes path.now text)) }
        ensures err { OnErr result (self.new ≡ self.old) }
    {
        edits::set(alloc, &mut self.files, path, text)
    }

    /// Makes a directory, and those above it where nothing stands. Through a file or a link, and on one, it does nothing.
    /// It is not counted, as `set` is not.
    pub fn dir(&mut self, alloc: Global, path: &PathName) -> Result<(), NoMemory>
        ensures ok { OnOk result (self.new ≡ with_writes self.old (after_dir self.old.writes path.now)) }
        ensures err { OnErr result (self.new ≡ self.old) }
    {
        edits::dir(alloc, &mut self.files, path)
    }

    /// Removes a file, a link or an empty directory. Where it cannot it does nothing. It is not counted, as `set` is not.
    pub fn drop_path(&mut self, alloc: Global, path: &PathName) -> Result<(), NoMemory>
        ensures ok { OnOk result (self.new ≡ with_writes self.old (after_drop self.old.writes path.now)) }
        ensures err { OnErr result (self.new ≡ self.old) }
    {
        edits::drop_path(alloc, &mut self.files, path)
    }

    /// How often a call has failed.
    pub fn faults(&self) -> u64
        ensures { result ≡ self.now.faults }
    {
        self.faults
    }

    /// Whether some call may fail. Where none may, none has failed.
    pub fn may_fail(&self) -> bool
        ensures listed { IsTrue result ↔ (0 < length self.now.failing) }
        ensures quiet { result ≡ false → self.now.faults ≡ 0 }
    {
        !self.failing.is_empty()
    }
}

impl Disk<ToyLaw> for MemoryWorld {
    ghost use Rattle.std.specs.Prelude.{⊤};
    ghost use Rattle.memory_files.specs.Log.{no_link};
    ghost use Rattle.memory_world.specs.Memory.{view_of};

    ghost view = { view_of };

    ghost gave = { λ p most b. ⊤ };

    ghost leads_to_no_link = { λ w p text t. no_link w.writes p text };

    ghost tells_infos = { λ w m t. tt };

    // Where the list has the next number a fault is answered, and else what stands, or want of memory.
    #[tactic(auto, using(crate::proofs::WorldLemmas::stayed_writes))]
    fn stat(&mut self, alloc: Global, path: &PathName, form: Form) -> Result<Info, DiskError>
        ensures step { self.new ≡ after_call self.old }
        ensures fails { (result ≡ Err DiskError.Fault) ↔ IsTrue (fails_next self.old) }
        ensures info { IfOk result (λ i. i ≡ stands self.old path.now form) }
        ensures stayed { Stayed (view_of self.old) (view_of self.new) }
        ensures here { IsErrOf result DiskError.NotDirectory → ⊥ }
        ensures cause { HasCause (view_of self.old) (view_of self.new) result }
    {
        count_call(&mut self.calls, &self.failing, &mut self.faults)?;
        let info = self.files.info(alloc, path.text(), form)?;
        Ok(info)
    }

    // Where the list has the next number a fault is answered, and else the bytes that stand, or want of memory.
    #[tactic(auto, using(crate::proofs::WorldLemmas::stayed_writes))]
    fn read(&mut self, alloc: Global, path: &PathName, most: u64) -> Result<FileBytes, DiskError>
        ensures step { self.new ≡ after_call self.old }
        ensures fails { (result ≡ Err DiskError.Fault) ↔ IsTrue (fails_next self.old) }
        ensures text { IfOk result (λ b. b ≡ bytes_of most (standing self.old.writes path.now Form.Follow)) }
        ensures info { IfOk result (FitsInfo (stands self.old path.now Form.Follow)) }
        ensures bytes { (m : Items FileVersion) → Tells self.new.writes m
            → IfOk result (λ b. b ≡ bytes_of most (content m path.now (stands self.old path.now Form.Follow))) }
        ensures stayed { Stayed (view_of self.old) (view_of self.new) }
        ensures here { IsErrOf result DiskError.NotDirectory → ⊥ }
        ensures cause { HasCause (view_of self.old) (view_of self.new) result }
    {
        count_call(&mut self.calls, &self.failing, &mut self.faults)?;
        let bytes = self.files.read(alloc, path.text(), most)?;
        Ok(bytes)
    }
}

impl World<ToyLaw> for MemoryWorld {
    ghost use Rattle.memory_world.specs.Exit.{IsToyExit};

    ghost ended = { IsToyExit };

    // Where the list has the next number a fault is answered, and else the order is begun, if there is memory.
    #[tactic(auto, using(crate::proofs::WorldLemmas::keeps_writes))]
    fn begin(&mut self, _alloc: Global, order: Order) -> Result<(), DiskError>
        ensures taken { OnOk result (self.new ≡ with_order (after_call self.old) order) }
        ensures left { OnErr result (self.new ≡ after_call self.old) }
        ensures fails { (result ≡ Err DiskError.Fault) ↔ IsTrue (fails_next self.old) }
        ensures keeps { Kept self.old self.new }
        ensures same { SameBut self.new.begun (stands self.old) (stands self.new) }
        ensures directories { KeepsDirectories (stands self.old) (stands self.new) }
        ensures here { IsErrOf result DiskError.NotDirectory → ⊥ }
        ensures cause { HasCause (view_of self.old) (view_of self.new) result }
    {
        count_call(&mut self.calls, &self.failing, &mut self.faults)?;
        match self.begun.push_back(order) {
            Ok(()) => {
                self.begins = self.begins.saturating_add(1);
                Ok(())
            }
            Err(_) => Err(DiskError::NoMemory),
        }
    }

    fn begun(&self) -> usize {
        self.begun.len()
    }

    // Where the list has the next number a fault is answered and nothing is written, and else the oldest order is
    // performed, if there is memory.
    fn end(&mut self, alloc: Global) -> Result<Ended, DiskError>
        requires { 0 < length self.old.begun }
        ensures oldest { IfOk result (λ e. self.old.begun ≡ e.order ∷ self.new.begun) }
        ensures step { IfOk result (λ e. self.new ≡ with_left (after_call self.old) (performed self.old.writes e.order) self.new.begun) }
        ensures exit { IfOk result (λ e. e.exit ≡ exit_of self.old.writes e.order) }
        ensures ended { IfOk result (λ e. IsToyExit (view_of self.old) e.order e.exit) }
        ensures left { OnErr result (self.new ≡ with_left (after_call self.old) self.new.writes []) }
        ensures fails { (result ≡ Err DiskError.Fault) ↔ IsTrue (fails_next self.old) }
        ensures spared { IsErrOf result DiskError.Fault → self.new.writes ≡ self.old.writes }
        ensures ok { IfOk result (λ e. TakenOut e.order self.old.begun self.new.begun) }
        ensures keeps { Kept self.old self.new }
        ensures same { SameBut self.old.begun (stands self.old) (stands self.new) }
        ensures directories { KeepsDirectories (stands self.old) (stands self.new) }

        // A command that succeeded on inputs that still stand did what the law says.
        ensures does { (m : Items FileVersion) → Tells self.new.writes m → IfOk result (λ e. e.exit ≡ Code 0
            → IsFormed e.order → Unchanged (stands self.new) e.order
            → (w : Items (Items ℕ)) → IsFound m (stands self.new) e.order.deps w
            → ToyDoes e.order.signature (read_contents m e.order.reads) (found_contents m (stands self.new) e.order w)
            (contents_at m (stands self.new) e.order)) }
        ensures here { IsErrOf result DiskError.NotDirectory → ⊥ }
        ensures cause { HasCause (view_of self.old) (view_of self.new) result }
    {
        if let Err(error) = count_call(&mut self.calls, &self.failing, &mut self.faults) {
            self.begun.clear();
            return Err(error);
        }
        let order = self.begun.pop_front().unwrap();
        match perform(alloc, &mut self.files, &order) {
            Ok(exit) => Ok(Ended { order, exit }),
            Err(_) => {
                self.begun.clear();
                Err(DiskError::NoMemory)
            }
        }
    }
}
