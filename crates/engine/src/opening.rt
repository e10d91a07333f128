//! The tables are published before a worker runs, at the stamp of the ruling record, so the first batch goes on from them.

ghost use Rattle.std.specs.Prelude.{◌≡◌, [], IfOk, IfErr};
ghost use Rattle.base.specs.declared.fault.Fault.TheVariants.{OutOfMemory};
ghost use Rattle.machine.specs.Machine.{State};
ghost use Rattle.room.specs.Room.{Shows};
ghost use Rattle.engine.specs.Started.{IsStartedOn};

use crate::keeping::Board;
use audited::Audited;
use base::fault::Fault;
use board::{Coverage, History, Naming, Reader};
use pmem::Pmem;
use std::alloc::Global;
use std::sync::Wait;

/// A board that begins with the room's tables, and its readers.
pub fn board_of<R: Wait + Drop, D: Pmem + Drop, J: Naming>(
    rt: R,
    alloc: Global,
    history: History,
    audited: &Audited<D>,
) -> Result<(Board<J, R>, Vec<Reader<J>>), Fault>
    requires name { history ≡ J.book }
    ensures board { IfOk result (λ opened. (q : State) → Shows D.state audited.now.room q → IsStartedOn q opened.0.list) }
    ensures fault { IfErr result (λ fault. fault ≡ OutOfMemory) }
{
    let status = audited.status();
    let coverage = Coverage {
        stamp: status.gate,
        persisted: status.persisted,
        longs: status.longs,
    };
    match audited.tables() {
        Ok(rows) => Board::open(rt, alloc, history, coverage, &rows),
        Err(fault) => Err(fault),
    }
}
