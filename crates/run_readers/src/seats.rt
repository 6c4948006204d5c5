//! The readers' threads.
ghost use Rattle.std.specs.Prelude.{◌≡◌, ◌≤◌, [], vec_len, vec_capacity, string_bytes, IfOk};

use crate::gate::Gate;
use crate::lines::LINE;
use crate::reader::Pass;
use std::alloc::{AllocError, Global};
use std::sync::Arc;
use std::sync::atomic::AtomicBool;
use std::thread::{JoinHandle, Threads, spawn};

/// A job's place: its thread, or the job, where no thread could be started.
#[derive(Drop)]
pub enum Seat<F: Drop, T: Drop> {
    Running(JoinHandle<T>),
    Waiting(F),
}

/// Starts a thread for the job.
pub fn start<R: Threads, F: FnOnce() -> T + Send + Drop + 'static, T: Send + Drop + 'static>(
    rt: &R,
    job: F,
) -> Seat<F, T>
    requires { F.pre job }
{
    match spawn(rt, job) {
        Ok(handle) => Seat::Running(handle),
        Err(refused) => Seat::Waiting(refused.value),
    }
}

/// Waits for the thread to end, or does the job now.
fn end<R: Threads, F: FnOnce() -> T + Drop, T: Drop>(rt: &R, seat: Seat<F, T>) -> T
    requires { (job : F) → F.pre job }
{
    match seat {
        Seat::Running(handle) => handle.join(rt),
        Seat::Waiting(job) => job(),
    }
}

/// Ends each seat in order. There is room for what the jobs give back.
pub fn end_all<R: Threads, F: FnOnce() -> T + Drop, T: Drop>(
    rt: &R,
    seats: Vec<Seat<F, T>>,
    mut ended: Vec<T>,
) -> Vec<T>
    requires jobs { (job : F) → F.pre job }
    requires empty { ended.items ≡ [] }
    requires room { vec_len seats ≤ vec_capacity ended }
    ensures { vec_len result ≡ vec_len seats }
{
    for seat in seats {
        if ended.push(end(rt, seat)).is_err() {
            unreachable!();
        }
    }
    ended
}

/// What readers need beside their looks: the flag that tells them to stop, a pass for each, and room for their lines.
#[derive(Drop)]
pub struct Needs<G: Gate> {
    pub stop: Arc<AtomicBool, Global>,
    pub passes: Vec<Pass<G>>,
    pub lines: String,
}

/// Takes all memory for what this many readers need.
pub fn needs_of<G: Gate>(
    alloc: Global,
    gate: &Arc<G, Global>,
    readers: u32,
) -> Result<Needs<G>, AllocError>
    requires { readers ≤ 16 }
    ensures passes { IfOk result (λ needs. vec_len needs.passes ≡ readers) }
    ensures lines { IfOk result (λ needs. string_bytes needs.lines ≡ []) }
{
    let stop = Arc::new(alloc, AtomicBool::new(false))?;
    Ok(Needs {
        passes: passes(alloc, gate, &stop, readers)?,
        lines: String::with_capacity(alloc, readers as usize * LINE)?,
        stop,
    })
}

/// A pass for each of this many readers, in order.
fn passes<G: Gate>(
    alloc: Global,
    gate: &Arc<G, Global>,
    stop: &Arc<AtomicBool, Global>,
    readers: u32,
) -> Result<Vec<Pass<G>>, AllocError>
    ensures { IfOk result (λ passes. vec_len passes ≡ readers) }
{
    let mut passes = Vec::new(alloc);
    for place in 0..readers {
        passes.push(Pass {
            number: place + 1,
            gate: Arc::try_clone(gate)?,
            stop: Arc::try_clone(stop)?,
        })?;
    }
    Ok(passes)
}
