//! A world, in which orders are performed.
ghost use Rattle.std.specs.Prelude.{◌≡◌, ℕ, ◌<◌, ◌≤◌, ◌+◌, ◌^◌, List as Items, [], ◌∷◌, ◌++◌, length, min, IfOk, OnOk, OnErr, IsErrOf};
ghost use Rattle.file_info.specs.Content.{FileVersion, read_contents};
ghost use Rattle.outside.specs.declared.order.Order.{Order};
ghost use Rattle.outside.specs.declared.order.Exit.{Exit};
ghost use Rattle.outside.specs.declared.order.Exit.TheVariants.{Code};
ghost use Rattle.outside.specs.declared.disk.DiskError.TheVariants.{NotDirectory};
ghost use Rattle.outside.specs.View.{DiskView, Told, Tells, Keeps, HasCause, next_count};
ghost use Rattle.outside.specs.OrderForm.{IsFormed};
ghost use Rattle.outside.specs.Outcome.{SameBut, KeepsDirectories, TakenOut, Unchanged, IsFound, found_contents, contents_at};

use crate::disk::{Disk, DiskError};
use crate::law::Law;
use crate::order::{Ended, Order};
use std::alloc::Global;

/// A disk on which commands run. Orders are begun, and end in any order.
pub trait World<L: Law>: Disk<L> {
    /// What was answered of an order that ended, where this was seen of the world just before. It is one relation for all
    /// worlds of the type, and generic code can know it from `end` alone.
    ghost ended: { DiskView → Order → Exit → Type 0 };

    /// Begins an order. After an error nothing new is begun.
    fn begin(&mut self, alloc: Global, order: Order) -> Result<(), DiskError>
        ensures ok { OnOk result ((Self.view self.new).orders ≡ (Self.view self.old).orders ++ order ∷ []) }
        ensures err { OnErr result ((Self.view self.new).orders ≡ (Self.view self.old).orders) }
        ensures counted { OnOk result ((Self.view self.new).begins ≡ next_count (Self.view self.old).begins) }
        ensures uncounted { OnErr result ((Self.view self.new).begins ≡ (Self.view self.old).begins) }
        ensures keeps { Keeps (Self.view self.old) (Self.view self.new) }
        ensures same { Told (Self.view self.new) → SameBut (Self.view self.new).orders (Self.view self.old).at (Self.view self.new).at }
        ensures directories { Told (Self.view self.new) → KeepsDirectories (Self.view self.old).at (Self.view self.new).at }
        ensures here { IsErrOf result NotDirectory → ⊥ }
        ensures cause { HasCause (Self.view self.old) (Self.view self.new) result };

    /// How many orders are begun and have not ended. It takes no memory.
    fn begun(&self) -> usize
        ensures { result ≡ length (Self.view self.now).orders };

    /// Awaits the end of any one of the begun orders. After an error nothing stays begun.
    fn end(&mut self, alloc: Global) -> Result<Ended, DiskError>
        requires { 0 < length (Self.view self.old).orders }
        ensures ok { IfOk result (λ e. TakenOut e.order (Self.view self.old).orders (Self.view self.new).orders) }
        ensures err { OnErr result ((Self.view self.new).orders ≡ []) }
        ensures begins { (Self.view self.new).begins ≡ (Self.view self.old).begins }
        ensures ended { IfOk result (λ e. ended (Self.view self.old) e.order e.exit) }
        ensures keeps { Keeps (Self.view self.old) (Self.view self.new) }
        ensures same { Told (Self.view self.new) → SameBut (Self.view self.old).orders (Self.view self.old).at (Self.view self.new).at }
        ensures directories { Told (Self.view self.new) → KeepsDirectories (Self.view self.old).at (Self.view self.new).at }

        // A command that succeeded on inputs that still stand did what the law says.
        ensures does { (m : Items FileVersion) → Tells (Self.view self.new) m → IfOk result (λ e. e.exit ≡ Code 0 → IsFormed e.order
            → Unchanged (Self.view self.new).at e.order → (w : Items (Items ℕ)) → IsFound m (Self.view self.new).at e.order.deps w
            → L.does e.order.signature (read_contents m e.order.reads) (found_contents m (Self.view self.new).at e.order w)
            (contents_at m (Self.view self.new).at e.order)) }
        ensures here { IsErrOf result NotDirectory → ⊥ }
        ensures cause { HasCause (Self.view self.old) (Self.view self.new) result };
}

/// The fault of a host that never has one.
#[derive(Drop)]
pub enum NoFault {}
