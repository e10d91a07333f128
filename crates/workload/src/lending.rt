ghost use Rattle.std.specs.Prelude.{◌≡◌, ◌≤◌, ◌*◌, [], Some, None, All, IfErr, IfNone, IfOk, IfSome, OnOk, vec_len};
ghost use Rattle.std.specs.List.{Any};
ghost use Rattle.std.specs.Vec.{vec_capacity};
ghost use Rattle.base.specs.declared.fault.Fault.TheVariants.{OutOfMemory};
ghost use Rattle.pmem.specs.Words.{IsAtRest, image_of};
ghost use Rattle.room.specs.Room.{Shows};
ghost use Rattle.room.specs.Runs.{OpensTo};
ghost use Rattle.engine.specs.Origins.{IsFrom};
ghost use Rattle.workload.specs.Load.{AreMade, HasFree, HasNumbers, IsEngineFault, IsLoadFault, MakesTo};
ghost use Rattle.workload.specs.Tasks.{AllWork, AreFresh};

use crate::committing::commit_all;
use crate::gate::Always;
use crate::load::Load;
use crate::opening::{has_numbers, has_slots};
use crate::task::{Task, first_fault, into_sessions};
use audited::Audited;
use base::fault::Fault;
use board::History;
use engine::{Board, Engine, Origin, Session};
use pmem::Pmem;
use room::Room;
use std::alloc::Global;
use std::sync::Wait;
use std::thread::Threads;

/// Opens the device, and lends it to an engine while the threads make their commits, if the slots suffice.
pub fn lent<
    J: Origin + Send + Sync + 'static,
    D: Pmem + Drop + Send + Sync + 'static,
    T: Threads + Wait + Copy + Drop + Send + Sync + 'static,
>(rt: &T, alloc: Global, history: History, device: D, load: Load) -> Result<Room<D>, Fault>
    requires name { history ≡ J.book }
    requires image { image_of (D.state device) ≡ J.image }
    requires at_rest { IsAtRest (D.state device) }
    ensures made { IfOk result (λ room. MakesTo (image_of (D.state device)) load.sessions load.commits (Shows D.state room)) }
    ensures has_slots { OnOk result (OpensTo (image_of (D.state device)) (HasFree (2 * load.sessions))) }
    ensures has_numbers { OnOk result (OpensTo (image_of (D.state device)) (HasNumbers (load.sessions * load.commits))) }
    ensures fault { IfErr result (IsLoadFault (image_of (D.state device)) load.sessions load.commits) }
{
    let audited = match Audited::open(rt, alloc, device) {
        Ok(audited) => audited,
        Err((fault, _device)) => return Err(fault),
    };
    if !has_slots(&audited, load.sessions)? {
        return Err(Fault::SlotsOut);
    }
    if !has_numbers(&audited, load) {
        return Err(Fault::TimestampsOut);
    }
    let audited = worked_on::<J, D, T>(rt, alloc, history, audited, load)?;
    Ok(audited.into_room())
}

// The room, once the threads have made their commits over an engine.
fn worked_on<
    J: Origin + Send + Sync + 'static,
    D: Pmem + Drop + Send + Sync + 'static,
    T: Threads + Wait + Copy + Drop + Send + Sync + 'static,
>(
    rt: &T,
    alloc: Global,
    history: History,
    audited: Audited<D>,
    load: Load,
) -> Result<Audited<D>, Fault>
    requires name { history ≡ J.book }
    requires from { IsFrom D.state J.image audited }
    requires empty { audited.entries.items ≡ [] }
    ensures from { IfOk result (IsFrom D.state J.image) }
    ensures made { IfOk result (λ audited. AreMade load.sessions load.commits audited.entries.items) }
    ensures fault { IfErr result (IsEngineFault J.image) }
{
    let count = load.sessions as usize;
    let Ok(tasks) = Vec::with_capacity(alloc, count) else {
        return Err(Fault::OutOfMemory);
    };
    let Ok(sessions) = Vec::with_capacity(alloc, count) else {
        return Err(Fault::OutOfMemory);
    };
    let engine = match Engine::<D, J, Board<J, T>>::start(
        rt, alloc, history, audited, Always, Always,
    ) {
        Ok(engine) => engine,
        Err((fault, _audited)) => return Err(fault),
    };
    load_engine(rt, engine, tasks, sessions, load)
}

// Lets threads make their commits, each with a session of the engine, and closes it. If there is no memory for a session, the
// engine is closed too, with those that there are.
fn load_engine<
    T: Threads + Wait + Sync,
    D: Pmem + Drop + Send + Sync,
    J: Origin + Send + Sync,
    B: Drop + Send,
>(
    rt: &T,
    engine: Engine<D, J, B>,
    mut tasks: Vec<Task<D, J, B>>,
    sessions: Vec<Session<D, J, B>>,
    load: Load,
) -> Result<Audited<D>, Fault>
    requires first { engine.first ≡ 0 }
    requires no_tasks { tasks.items ≡ [] }
    requires no_sessions { sessions.items ≡ [] }
    requires room { (load.sessions ≤ vec_capacity tasks) × (load.sessions ≤ vec_capacity sessions) }
    ensures from { IfOk result (IsFrom D.state J.image) }
    ensures made { IfOk result (λ audited. AreMade load.sessions load.commits audited.entries.items) }
    ensures fault { IfErr result (IsEngineFault J.image) }
{
    match add_tasks(rt, &engine, &mut tasks, load.sessions as usize) {
        Ok(()) => {}
        Err(fault) => {
            drop(engine.close(rt, into_sessions(tasks, sessions)));
            return Err(fault);
        }
    }
    let failed = run_tasks(rt, &mut tasks, load.commits);
    let audited = match engine.close(rt, into_sessions(tasks, sessions)) {
        Ok(audited) => audited,
        Err((fault, _engine, _sessions)) => return Err(fault),
    };
    match failed {
        Some(fault) => Err(fault),
        None => Ok(audited),
    }
}

// Lets each session make its commits. The fault that ended one early.
fn run_tasks<
    T: Threads + Wait + Sync,
    D: Pmem + Drop + Send + Sync,
    J: Origin + Send + Sync,
    B: Drop + Send,
>(rt: &T, tasks: &mut Vec<Task<D, J, B>>, commits: u64) -> Option<Fault>
    requires fresh { AreFresh tasks.old.items }
    ensures len { vec_len tasks.new ≡ vec_len tasks.old }
    ensures works { AllWork J.image commits tasks.new.items }
    ensures some { IfSome result (λ fault. Any (λ task. task.fault ≡ Some fault) tasks.new.items) }
    ensures none { IfNone result (All (λ task. task.fault ≡ None) tasks.new.items) }
{
    commit_all(rt, tasks.as_mut_slice(), commits);
    first_fault(tasks.as_slice())
}

// That many sessions of the engine, each with its work, or as many as there is memory for.
fn add_tasks<T: Wait, D: Pmem + Drop, J: Origin, B: Drop>(
    rt: &T,
    engine: &Engine<D, J, B>,
    tasks: &mut Vec<Task<D, J, B>>,
    count: usize,
) -> Result<(), Fault>
    requires empty { tasks.old.items ≡ [] }
    requires room { count ≤ vec_capacity tasks.old }
    ensures ok { OnOk result (vec_len tasks.new ≡ count) }
    ensures fresh { AreFresh tasks.new.items }
    ensures len { vec_len tasks.new ≤ count }
    ensures err { IfErr result (λ fault. fault ≡ OutOfMemory) }
{
    for _ in 0..count {
        match engine.session(rt) {
            Ok(session) => tasks.push_reserved(Task::new(session)),
            Err(fault) => return Err(fault),
        }
    }
    Ok(())
}
