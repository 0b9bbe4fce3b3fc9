//! What a build has noted so far.
ghost use Rattle.std.specs.Prelude.{◌≡◌, ◌<◌, ◌≤◌, ◌+◌, ◌++◌, ◌∷◌, [], ℕ, List as Items, length, string_bytes, OnOk, OnErr, IfOk, IfSome, IfNone};
ghost use Rattle.std.specs.HashMap.{get_by_text, spare};
ghost use Rattle.file_info.specs.Lists.{IsDistinct, In};
ghost use Rattle.llbuild_cli.specs.Journal.{Knows, IsUnknown, IsOnce, unused};
ghost use Rattle.llbuild_cli.specs.Index.{Noted, keys_of, infos_of, with_entries};
ghost use Rattle.llbuild_cli.specs.OrderEnd.{with_heard};

use build_report::report::{End, Heard, Outcome, Report, Start, StatSeen};
use file_info::copied::Copied;
use file_info::info::Info;
use file_info::list::List;
use file_info::memory::NoMemory;
use file_info::path::PathName;
use outside::order::{Exit, Order};
use outside::world::NoFault;
use reserved_list::reserved::Reserved;
use std::alloc::Global;
use std::collections::HashMap;
use std::marker::Model;

/// The lists of the report, and beside them the information of each path that they show. Contracts see the lists.
#[derive(Drop)]
pub struct Seen {
    starts: List<Start>,
    stats: Reserved<StatSeen>,
    heard: Reserved<Heard>,
    infos: HashMap<String, Info>,
}

impl Model for Seen {
    ghost use Rattle.std.specs.HashMap.{get_by_text};
    ghost use Rattle.llbuild_cli.specs.Journal.{Journal, IsIndex};

    ghost Value = { Journal };

    ghost view = { λ s. record { starts = s.starts; stats = s.stats.items; heard = s.heard.items } };

    ghost invariant = { λ s. IsIndex s.stats.items s.heard.items (λ p. get_by_text s.infos p) };
}

// The paths with what stands there, as the index keeps them.
fn entries_of(
    alloc: Global,
    paths: &List<PathName>,
    infos: &List<Info>,
) -> Result<Vec<(String, Info)>, NoMemory>
    requires { length infos.now ≡ length paths.now }
    ensures keys { IfOk result (λ entries. keys_of entries.items ≡ paths.now) }
    ensures infos { IfOk result (λ entries. infos_of entries.items ≡ infos.now) }
{
    let mut entries = Vec::new(alloc);
    let infos = infos.as_slice();
    for (place, path) in paths.as_slice().iter().enumerate() {
        let key = String::from_str(alloc, path.text())?;
        entries.push((key, infos[place].copy(alloc)?))?;
    }
    Ok(entries)
}

// Adds one entry, whether or not there is room.
fn note(
    alloc: Global,
    infos: &mut HashMap<String, Info>,
    path: &PathName,
    info: Info,
) -> Result<(), NoMemory>
    ensures ok { OnOk result (Noted path.now info (λ p. get_by_text infos.old p) (λ p. get_by_text infos.new p)) }
    ensures err { OnErr result ((p : Items ℕ) → get_by_text infos.new p ≡ get_by_text infos.old p) }
{
    let key = String::from_str(alloc, path.text())?;
    infos.insert(key, info)?;
    Ok(())
}

// Makes room for this many entries more.
fn make_room(infos: &mut HashMap<String, Info>, more: usize) -> Result<(), NoMemory>
    ensures room { OnOk result (more ≤ spare infos.new) }
    ensures same { (p : Items ℕ) → get_by_text infos.new p ≡ get_by_text infos.old p }
{
    infos.reserve(more)?;
    Ok(())
}

// Adds one entry for which there is room.
fn add(infos: &mut HashMap<String, Info>, key: String, info: Info)
    requires { 0 < spare infos.old }
    ensures noted { Noted (string_bytes key) info (λ p. get_by_text infos.old p) (λ p. get_by_text infos.new p) }
    ensures room { spare infos.old ≤ spare infos.new + 1 }
{
    if infos.insert(key, info).is_err() {
        unreachable!()
    }
}

// Adds entries for which there is room.
fn add_all(infos: &mut HashMap<String, Info>, entries: Vec<(String, Info)>)
    requires { length entries.items ≤ spare infos.old }
    ensures { (p : Items ℕ) → get_by_text infos.new p ≡ with_entries entries.items (λ q. get_by_text infos.old q) p }
{
    for (key, info) in entries {
        add(infos, key, info);
    }
}

impl Seen {
    /// Nothing is noted. It takes no memory.
    pub fn new(alloc: Global) -> Seen
        ensures { result ≡ unused }
    {
        Seen {
            starts: List::new(alloc),
            stats: Reserved::new(alloc),
            heard: Reserved::new(alloc),
            infos: HashMap::new(alloc),
        }
    }

    /// What was noted of a path. It walks over no list.
    pub fn info(&self, path: &PathName) -> Option<&Info>
        ensures known { IfSome result (λ info. Knows self.now path.now info.now) }
        ensures unknown { IfNone result (IsUnknown self.now path.now) }
    {
        self.infos.get(path.text())
    }

    /// How many commands were started.
    pub fn starts(&self) -> usize
        ensures { result ≡ length self.now.starts }
    {
        self.starts.len()
    }

    /// Notes a start.
    pub fn note_start(&mut self, start: Start) -> Result<(), NoMemory>
        ensures ok { OnOk result (self.new ≡ record self.old { starts = self.old.starts ++ start ∷ [] }) }
        ensures err { OnErr result (self.new ≡ self.old) }
    {
        self.starts.push(start)
    }

    /// Notes what stands at a source path of which nothing was noted. Without memory nothing is.
    pub fn note_source(
        &mut self,
        alloc: Global,
        path: &PathName,
        info: &Info,
    ) -> Result<(), NoMemory>
        requires { IsUnknown self.old path.now }
        ensures ok { OnOk result (self.new ≡ record self.old { stats = self.old.stats ++ record { path = path.now; info = info.now } ∷ [] }) }
        ensures err { OnErr result (self.new ≡ self.old) }
        ensures once { OnOk result (IsOnce self.new) }
    {
        let seen = StatSeen {
            path: path.copy(alloc)?,
            info: info.copy(alloc)?,
        };
        let info = info.copy(alloc)?;
        self.stats.reserve(1)?;
        note(alloc, &mut self.infos, path, info)?;
        self.stats.push(seen);
        Ok(())
    }

    /// Notes that an order failed. Without memory nothing is noted.
    pub fn note_failed(&mut self, order: Order, exit: Exit) -> Result<(), NoMemory>
        ensures ok { OnOk result (self.new ≡ with_heard self.old (record { order = order; outcome = Outcome.Failed exit })) }
        ensures err { OnErr result (self.new ≡ self.old) }
        ensures once { OnOk result (IsOnce self.new) }
    {
        self.heard.try_push(Heard {
            order,
            outcome: Outcome::Failed { exit },
        })
    }

    /// Notes that an order succeeded, with what stands at its outputs, of which nothing was noted. Without memory nothing is.
    pub fn note_done(
        &mut self,
        alloc: Global,
        order: Order,
        outputs: List<Info>,
    ) -> Result<(), NoMemory>
        requires distinct { IsDistinct order.outputs }
        requires count { length outputs ≡ length order.outputs }
        requires unknown { (path : Items ℕ) → In path order.outputs → IsUnknown self.old path }
        ensures ok { OnOk result (self.new ≡ with_heard self.old (record { order = order; outcome = Outcome.Done [] outputs })) }
        ensures err { OnErr result (self.new ≡ self.old) }
        ensures once { OnOk result (IsOnce self.new) }
    {
        let entries = entries_of(alloc, &order.outputs, &outputs)?;
        make_room(&mut self.infos, entries.len())?;
        self.heard.reserve(1)?;
        add_all(&mut self.infos, entries);
        self.heard.push(Heard {
            order,
            outcome: Outcome::Done {
                found: List::new(alloc),
                outputs,
            },
        });
        Ok(())
    }

    /// The report of a run that ended so.
    pub fn into_report(self, end: End<NoFault>) -> Report<NoFault>
        ensures { result ≡ record { end = end; starts = self.starts; stats = self.stats; heard = self.heard } }
    {
        let Seen {
            starts,
            stats,
            heard,
            ..
        } = self;
        Report {
            end,
            starts,
            stats: stats.into_list(),
            heard: heard.into_list(),
        }
    }
}
