//! Calls in threads of their own, while the thread that asks for them waits.
//!
//! [`in_threads`] is for work that is cut into about as many parts as there are processors. The thread that starts the others takes no part itself: a
//! system may put a new thread on the processor of the one that made it, and there it would wait until its maker sleeps.
#![tactic(auto)]

ghost use Rattle.std.specs.Prelude.{◌≡◌, ℕ, ◌+◌, ◌^◌, ◌<◌, ◌≤◌, IfOk, vec_len};
ghost use Rattle.std.specs.Fork.{GivesEach};
ghost use Rattle.std.specs.Fork.Halves.{GivesFrom};
ghost use denote.Param.Send.{IsSync, IsSend};

use rayon::join;
use std::alloc::{AllocError, Global};
use std::thread::Threads;

/// What `work` returns for each number below `count`, in their order. Each call runs in a thread of its own, or in this one where none can be made; a single
/// call runs in this one. The one error is that memory ran out; then some of the calls may not have been made, and what the others returned is dropped.
pub fn in_threads<R: Threads + Sync, X: Send + Drop, F: Fn(usize) -> X + Sync>(
    rt: &R,
    alloc: Global,
    count: usize,
    work: &F,
) -> Result<Vec<X>, AllocError>
    requires { (number : ℕ) → number < count → F.pre work.now number }
    ensures len { IfOk result (λ results. vec_len results ≡ count) }
    ensures each { IfOk result (λ results. GivesEach F.Fn work.now count results.items) }
{
    if count == 1 {
        return one_call(alloc, work);
    }
    calls_from(rt, alloc, 0, count, work)
}

// What `work` returns for the number 0, alone.
fn one_call<X: Drop, F: Fn(usize) -> X>(alloc: Global, work: &F) -> Result<Vec<X>, AllocError>
    requires { F.pre work.now 0 }
    ensures { IfOk result (λ results. GivesFrom F.Fn work.now 0 1 results.items) }
{
    let mut all = Vec::with_capacity(alloc, 1)?;
    all.push(work(0))?;
    Ok(all)
}

// What `work` returns for so many numbers from this one on.
#[cycle(calls)]
fn calls_from<R: Threads + Sync, X: Send + Drop, F: Fn(usize) -> X + Sync>(
    rt: &R,
    alloc: Global,
    from: usize,
    count: usize,
    work: &F,
) -> Result<Vec<X>, AllocError>
    requires room { from + count < 2 ^ 64 }
    requires accepts { (number : ℕ) → from ≤ number → number < from + count
        → F.pre work.now number }
    ensures { IfOk result (λ results. GivesFrom F.Fn work.now from count results.items) }
{
    if count == 0 {
        return Ok(Vec::new(alloc));
    }
    let more = count - 1;
    let next = from + 1;
    let first = move || -> X
        requires { IsSync F.row × IsSend X.row × F.pre work.now from }
        ensures { F.post work.entry.now from result }
    { work(from) };
    let others = move || -> Result<Vec<X>, AllocError>
        requires { IsSync R.row × IsSync F.row × IsSend X.row × (next + more < 2 ^ 64)
            × ((number : ℕ) → next ≤ number → number < next + more → F.pre work.now number) }
        ensures { IfOk result (λ results. GivesFrom F.Fn work.entry.now next more results.items) }
    { calls_from(rt, alloc, next, more, work) };
    let (first, others) = join(rt, first, others);
    let mut rest = others?;
    let mut all = Vec::with_capacity(alloc, count)?;
    all.push(first)?;
    all.append(&mut rest)?;
    Ok(all)
}
