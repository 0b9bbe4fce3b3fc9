//! What an engine asks of its rules.
ghost use Rattle.std.specs.Prelude.{◌≡◌, ◌⊎◌, ℕ, ◌<◌, ◌≤◌, List as Items, [], ◌∷◌, IfOk, OnErr};
ghost use Rattle.build_keys.specs.declared.key.Key.{Key};
ghost use Rattle.engine_rules.specs.declared.needs.Given.{Given};
ghost use Rattle.engine_rules.specs.Needs.{IsFit, IsLast, Meaning, IsLawful};

use crate::needs::{Check, Given, Need};
use crate::row::Row;
use build_keys::key::Key;
use file_info::list::{Bytes, List};
use file_info::memory::NoMemory;
use file_info::path::PathName;
use std::alloc::Global;

/// What a manifest, or a test, says of keys: what each needs, in steps, and what keeps a stored result. The answers are
/// functions of the key and of what it was given so far, so two runs that are given the same need the same. They fail for want
/// of memory alone.
pub trait Rules {
    /// A run that waits for what it needs.
    type State: Drop;

    /// What the rules say, as functions.
    ghost meaning: { Self → Meaning };

    /// The state of a key that was given this, the newest first.
    ghost at: { Self → Self.State → Key → Items Given → Type 0 };

    /// A number that falls with each step, so that every run ends.
    ghost left: { Self → Self.State → ℕ };

    /// What `left` is at most when a run begins.
    ghost most: { Self → ℕ };

    /// The text that says what is to be done for a key.
    fn signature(&self, alloc: Global, key: &Key) -> Result<Bytes, NoMemory>
        ensures { IfOk result (λ text. text ≡ (meaning self.now).signature key.now) };

    /// The paths that must still have the file information that was stored of them, where this is the stored result.
    fn checks(&self, alloc: Global, key: &Key, row: &Row) -> Result<List<Check>, NoMemory>
        ensures { IfOk result (λ checks. checks ≡ (meaning self.now).checks key.now row.now) };

    /// Whether the key runs in every build. It takes no memory.
    fn always(&self, key: &Key) -> bool
        ensures { result ≡ (meaning self.now).always key.now };

    /// Whether the command may find the path. It takes no memory.
    fn allowed(&self, command: &Key, path: &PathName) -> bool
        ensures { result ≡ (meaning self.now).allowed command.now path.now };

    /// Begins a run of a key: its state, and its first need.
    fn start(&self, alloc: Global, key: &Key) -> Result<(Self::State, Need), NoMemory>
        ensures state { IfOk result (λ p. at self.now p.0 key.now []) }
        ensures first { IfOk result (λ p. p.1 ≡ (meaning self.now).need key.now []) }
        ensures few { IfOk result (λ p. left self.now p.0 ≤ most self.now) };

    /// The next need, where what the last one asked for is given. Without memory the state is as before.
    fn resume(
        &self,
        alloc: Global,
        key: &Key,
        state: &mut Self::State,
        given: &Given,
    ) -> Result<Need, NoMemory>
        requires { (gs : Items Given) × at self.now state.old key.now gs × IsFit ((meaning self.now).need key.now gs) given.now }
        ensures state { IfOk result (λ n. (gs : Items Given) → at self.now state.old key.now gs → at self.now state.new key.now (given.now ∷ gs)) }
        ensures next { IfOk result (λ n. (gs : Items Given) → at self.now state.old key.now gs
            → n ≡ (meaning self.now).need key.now (given.now ∷ gs)) }
        ensures falls { IfOk result (λ n. IsLast n ⊎ (left self.now state.new < left self.now state.old)) }
        ensures err { OnErr result (state.new ≡ state.old) };

    /// A run is not done with a failure, has one order at most, and orders only its own command.
    ghost lawful: { (self : Self) → IsLawful (meaning self) };
}
