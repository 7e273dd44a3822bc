//! The life of a pool: a session is taken, given back, and taken again.

use anyhow::Result;
use kembura::pool::{SolverPool, SolverPoolConfig};
use kembura::solve::{LinkList, MemoryLink, MemoryStarter, SolverCommand};
use std::alloc::Global;

/// A starter of one solver in memory, which answers nothing.
fn starter(alloc: Global) -> Result<MemoryStarter> {
    let mut links = LinkList::new(alloc);
    links.push(MemoryLink::new(alloc, b"", &[], None)?)?;
    Ok(MemoryStarter::new(alloc, links, &[])?)
}

/// Takes the session of a pool of one, gives it back and takes it again; whether it is kept at the end.
///
/// # Errors
/// `Memory`, where there is none for the pool.
pub(crate) fn used_twice(alloc: Global) -> Result<bool> {
    let config = SolverPoolConfig {
        min_solvers: 0,
        max_solvers: 1,
        acquire_timeout: None,
    };
    let command = SolverCommand::new(alloc, "cvc5", &[])?;
    let mut pool = match SolverPool::new(alloc, 1, config, command, starter(alloc)?) {
        Ok(pool) => pool,
        Err(refused) => return Err(refused.error.into()),
    };
    let session = pool.acquire()?;
    pool.release(session)?;
    let session = pool.acquire()?;
    Ok(pool.release(session)?)
}
