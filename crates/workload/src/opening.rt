ghost use Rattle.std.specs.Prelude.{◌≡◌, ◌*◌, IfErr, IfOk, MatchBool};
ghost use Rattle.machine.specs.Machine.{State};
ghost use Rattle.base.specs.declared.fault.Fault.TheVariants.{OutOfMemory};
ghost use Rattle.room.specs.Room.{Shows, ShowsStatus};
ghost use Rattle.workload.specs.Load.{HasFree, HasNumbers, LacksFree, LacksNumbers};

use crate::load::Load;
use audited::Audited;
use base::NUMBER_LIMIT;
use base::fault::Fault;
use pmem::Pmem;

/// Whether two slots for each session are free in a room that was just opened.
pub fn has_slots<D: Pmem + Drop>(audited: &Audited<D>, sessions: u64) -> Result<bool, Fault>
    ensures ok { IfOk result (λ has. (q : State) → Shows D.state audited.now.room q → MatchBool has (HasFree (2 * sessions) q) (LacksFree (2 * sessions) q)) }
    ensures fault { IfErr result (λ fault. fault ≡ OutOfMemory) }
{
    let rows = audited.tables()?;
    let wanted = sessions.saturating_mul(2).saturating_add(rows.len() as u64);
    Ok(wanted <= audited.geometry().slots())
}

/// Whether record numbers and timestamps are left for all commits of the load. A commit takes a timestamp and at most two
/// records, one that reserves timestamps and one that covers it. Without numbers the committer writes no record any more, and a
/// thread that waits for one would wait forever.
pub fn has_numbers<D: Pmem + Drop>(audited: &Audited<D>, load: Load) -> bool
    ensures { (q : State) → Shows D.state audited.now.room q → ShowsStatus q audited.now.opening → MatchBool result (HasNumbers (load.sessions * load.commits) q) (LacksNumbers (load.sessions * load.commits) q) }
{
    let commits = load.sessions.saturating_mul(load.commits);
    let opening = audited.opening();
    let window = audited.geometry().window();
    let last_record = commits
        .saturating_mul(2)
        .saturating_add(opening.gate)
        .saturating_add(2);
    let last_timestamp = commits
        .saturating_add(opening.dirty)
        .saturating_add(window)
        .saturating_add(2);
    last_record < NUMBER_LIMIT && last_timestamp < NUMBER_LIMIT
}
