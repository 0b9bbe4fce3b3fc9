//! The world of real files and programs. It is the trusted edge: it tells nothing of what files hold.
ghost use Rattle.std.specs.Prelude.{◌≡◌, ℕ, ◌+◌, ◌<◌, ◌≤◌, [], ◌∷◌, ◌++◌, length, IfOk, OnOk, OnErr, IsErrOf};
ghost use Rattle.real_world.specs.Count.{count_after};

use crate::disk::{RealDisk, answer};
use crate::programs::Programs;
use crate::spawn::perform;
use file_info::info::{Form, Info};
use file_info::path::PathName;
use outside::disk::{Disk, DiskError, FileBytes};
use outside::law::Law;
use outside::order::{Ended, Exit, Order};
use outside::world::World;
use std::alloc::Global;
use std::collections::VecDeque;
use std::process::Processes;
use std::rt::{Env, Files};

/// The files, and the programs that run on them. An order that is begun waits; `end` runs the oldest. A program that cannot be
/// started is a fault, and then no order waits any more.
#[derive(Drop)]
pub struct RealWorld<R: Files + Env + AllocGlobal + Processes + Drop> {
    disk: RealDisk<R>,
    waiting: VecDeque<Order>,
    begins: u64,
    programs: Programs,
}

impl<R: Files + Env + AllocGlobal + Processes + Drop> RealWorld<R> {
    ghost use Rattle.real_world.specs.View.{world_faults, waiting_orders, begun_orders};

    /// The world with nothing begun.
    pub fn new(rt: R) -> RealWorld<R>
        ensures none { waiting_orders result ≡ [] }
        ensures faults { world_faults result ≡ 0 }
        ensures begins { begun_orders result ≡ 0 }
    {
        let alloc = rt.alloc();
        RealWorld {
            disk: RealDisk::new(rt),
            waiting: VecDeque::new(alloc),
            begins: 0,
            programs: Programs::new(alloc),
        }
    }
}

impl<L: Law, R: Files + Env + AllocGlobal + Processes + Drop> Disk<L> for RealWorld<R> {
    ghost use Rattle.std.specs.Prelude.{⊤};
    ghost use Rattle.real_world.specs.View.{world_faults, world_view};
    ghost use Rattle.outside.specs.View.{Stayed, HasCause};

    ghost view = { world_view };

    ghost gave = { λ p most b. ⊤ };

    ghost leads_to_no_link = { λ w p text t e. t };

    ghost tells_infos = { λ w m t. t };

    fn stat(&mut self, alloc: Global, path: &PathName, form: Form) -> Result<Info, DiskError>
        ensures stayed { Stayed (world_view self.old) (world_view self.new) }
        ensures faults { world_faults self.new ≡ count_after result (world_faults self.old) }
        ensures here { IsErrOf result DiskError.NotDirectory → ⊥ }
        ensures cause { HasCause (world_view self.old) (world_view self.new) result }
    {
        Disk::<L>::stat(&mut self.disk, alloc, path, form)
    }

    fn read(&mut self, alloc: Global, path: &PathName, most: u64) -> Result<FileBytes, DiskError>
        ensures stayed { Stayed (world_view self.old) (world_view self.new) }
        ensures faults { world_faults self.new ≡ count_after result (world_faults self.old) }
        ensures here { IsErrOf result DiskError.NotDirectory → ⊥ }
        ensures cause { HasCause (world_view self.old) (world_view self.new) result }
    {
        Disk::<L>::read(&mut self.disk, alloc, path, most)
    }
}

impl<L: Law, R: Files + Env + AllocGlobal + Processes + Drop> World<L> for RealWorld<R> {
    ghost use Rattle.std.specs.Prelude.{⊤};
    ghost use Rattle.outside.specs.View.{HasCause, next_count};
    ghost use Rattle.real_world.specs.View.{world_faults, waiting_orders, begun_orders, world_view};

    ghost ended = { λ v order exit. ⊤ };

    fn begin(&mut self, _alloc: Global, order: Order) -> Result<(), DiskError>
        ensures ok { OnOk result (waiting_orders self.new ≡ waiting_orders self.old ++ order ∷ []) }
        ensures err { OnErr result (waiting_orders self.new ≡ waiting_orders self.old) }
        ensures counted { OnOk result (begun_orders self.new ≡ next_count (begun_orders self.old)) }
        ensures uncounted { OnErr result (begun_orders self.new ≡ begun_orders self.old) }
        ensures faults { world_faults self.new ≡ count_after result (world_faults self.old) }
        ensures here { IsErrOf result DiskError.NotDirectory → ⊥ }
        ensures cause { HasCause (world_view self.old) (world_view self.new) result }
    {
        match self.waiting.push_back(order) {
            Ok(()) => {
                let before = self.begins;
                self.begins = before.saturating_add(1);
                Ok(())
            }
            Err(_) => Err(DiskError::NoMemory),
        }
    }

    fn begun(&self) -> usize {
        self.waiting.len()
    }

    fn end(&mut self, alloc: Global) -> Result<Ended, DiskError>
        requires { 0 < length (waiting_orders self.old) }
        ensures oldest { IfOk result (λ e. waiting_orders self.old ≡ e.order ∷ waiting_orders self.new) }
        ensures err { OnErr result (waiting_orders self.new ≡ []) }
        ensures begins { begun_orders self.new ≡ begun_orders self.old }
        ensures faults { world_faults self.new ≡ count_after result (world_faults self.old) }
        ensures here { IsErrOf result DiskError.NotDirectory → ⊥ }
        ensures cause { HasCause (world_view self.old) (world_view self.new) result }
    {
        let Some(order) = self.waiting.pop_front() else {
            unreachable!()
        };
        let outcome = perform(&self.disk.rt, alloc, &mut self.programs, &order);
        match answer(&mut self.disk.faults, outcome) {
            Ok(exit) => Ok(Ended { order, exit }),
            Err(error) => {
                self.waiting.clear();
                Err(error)
            }
        }
    }
}
