//! Sums over the events of a run.

ghost use Rattle.std.specs.Prelude.{◌≡◌, if◌then◌else◌};
ghost use Rattle.rv_isa_laws.specs.Memory.{Mem};
ghost use Rattle.rv_machine.specs.End.{law_end};
ghost use Rattle.rv_machine.specs.Fetch.{fetched_of};
ghost use Rattle.rv_machine.specs.declared.hart.Hart.{Hart};
ghost use Rattle.rv_machine.specs.Seen.{end_of, event_by};
ghost use Rattle.rv_counts.specs.Kinds.{more};
ghost use Rattle.rv_counts.specs.Totals.{
  is_executed as executed_of,
  is_meant as meant,
  is_compressed as compressed_of,
  one_if as number_if,
  accesses_in,
  access_bytes,
  with_event,
  with_kind_in,
  nothing,
};

use crate::kinds::{Kinds, kind_of};
use rv_event_laws::Access;
use rv_machine::{End, Fetched, Step};

/// How many instructions were executed, and what they read and stored.
#[derive(Clone, Copy, Drop)]
pub struct Totals {
    pub executed: u64,
    /// Those of 2 bytes.
    pub compressed: u64,
    pub loads: u64,
    /// The bytes of the loads.
    pub read: u64,
    pub stores: u64,
    /// The bytes of the stores.
    pub written: u64,
    /// The instructions by what they are for.
    pub kinds: Kinds,
}

impl Totals {
    /// Those of no event.
    pub fn nothing() -> Self
        ensures { result ≡ nothing }
    {
        Totals {
            executed: 0,
            compressed: 0,
            loads: 0,
            read: 0,
            stores: 0,
            written: 0,
            kinds: Kinds::nothing(),
        }
    }

    /// Counts a step at what was fetched.
    #[inline(always)]
    pub fn count(&mut self, step: &Step, fetched: &Fetched)
        ensures { (hart : Hart) (m : Mem) →
            self.new ≡ with_event self.old (event_by (fetched_of fetched.now) step.now hart m) }
    {
        let executed = is_executed(step, fetched);
        let compressed = executed && is_compressed(fetched);
        self.executed = self.executed.saturating_add(one_if(executed));
        self.compressed = self.compressed.saturating_add(one_if(compressed));
        count_kind(&mut self.kinds, executed, fetched);
        let (loads, read) = with_access(self.loads, self.read, step.read());
        self.loads = loads;
        self.read = read;
        let (stores, written) = with_access(self.stores, self.written, step.stored());
        self.stores = stores;
        self.written = written;
    }
}

/// How many accesses there were and how many bytes they had, with one more, if it is one.
#[inline(always)]
fn with_access(count: u64, bytes: u64, access: Option<Access>) -> (u64, u64)
    ensures { result ≡ (more count (accesses_in access), more bytes (access_bytes access)) }
{
    match access {
        Some(access) => (count.saturating_add(1), bytes.saturating_add(access.bytes)),
        None => (count, bytes),
    }
}

/// Whether what was fetched was executed: its step went on, or ended the run by what it means, and not by an access that
/// failed.
#[inline(always)]
pub(crate) fn is_executed(step: &Step, fetched: &Fetched) -> bool
    ensures { result ≡ executed_of (fetched_of fetched.now) (end_of step.now.end) }
{
    match *fetched {
        Fetched::Got(_, _) => match step.end() {
            None => true,
            Some(end) => is_meant(end),
        },
        Fetched::NoRight | Fetched::NoInstruction => false,
    }
}

/// Whether an instruction ended a run by what it means.
fn is_meant(end: End) -> bool
    ensures { result ≡ meant (law_end end) }
{
    match end {
        End::Exited(_) | End::Breakpoint => true,
        End::Limit
        | End::Illegal(_)
        | End::FetchOutside(_)
        | End::LoadText(_)
        | End::LoadOutside(_)
        | End::StoreText(_)
        | End::StoreOutside(_)
        | End::MisalignedAtomic(_) => false,
    }
}

/// Whether what was fetched is a parcel.
#[inline(always)]
fn is_compressed(fetched: &Fetched) -> bool
    ensures { result ≡ compressed_of (fetched_of fetched.now) }
{
    match *fetched {
        Fetched::Got(_, bytes) => bytes == 2,
        Fetched::NoRight | Fetched::NoInstruction => false,
    }
}

/// Counts the kind of what was fetched, where it was executed.
#[inline(always)]
fn count_kind(kinds: &mut Kinds, executed: bool, fetched: &Fetched)
    ensures { kinds.new ≡ if executed then with_kind_in (fetched_of fetched.now) kinds.old else kinds.old }
{
    if !executed {
        return;
    }
    match *fetched {
        Fetched::Got(inst, _) => kinds.count(kind_of(inst)),
        Fetched::NoRight | Fetched::NoInstruction => {}
    }
}

#[inline]
fn one_if(holds: bool) -> u64
    ensures { result ≡ number_if holds }
{
    if holds { 1 } else { 0 }
}
