// Copies of strategies and phases, and answers to attempts to switch.
use crate::{Live, Lives, Phase, Ready, Strategy, switch_ready};
use std::alloc::Global;
use std::test::Fail;
use sx_lists::Copied;
use sx_ops::{Spec, Tests};
use sx_values::{Name, Names};

#[test]
fn words_are_copied(rt: HostRuntime) -> Result<(), Fail> {
    let alloc = rt.alloc();
    assert_eq!(rt; Strategy::Blocking.copy(alloc)?, Strategy::Blocking);
    assert_eq!(rt; Phase::Chasing.copy(alloc)?, Phase::Chasing);
    Ok(())
}

#[test]
fn a_tail_of_256_is_short_enough(rt: HostRuntime) -> Result<(), Fail> {
    let alloc = rt.alloc();
    let spec = part(alloc)?;
    let none = Lives::new(alloc);
    let ready = switch_ready(Strategy::Blocking, &spec, 4, 260, &none);
    assert_eq!(rt; ready, Ready::Ready);
    let unread = switch_ready(Strategy::Blocking, &spec, 4, 261, &none);
    assert_eq!(rt; unread, Ready::Unread { pos: 4, end: 261 });
    Ok(())
}

#[test]
fn the_least_locker_hinders_a_blocking_switch(rt: HostRuntime) -> Result<(), Fail> {
    let alloc = rt.alloc();
    let (spec, live) = (part(alloc)?, three(alloc)?);
    let blocked = switch_ready(Strategy::Blocking, &spec, 4, 4, &live);
    assert_eq!(rt; blocked, Ready::Conflict { txn: 2 });
    let free = switch_ready(Strategy::NonBlockingAbort, &spec, 4, 4, &live);
    assert_eq!(rt; free, Ready::Ready);
    Ok(())
}

#[test]
fn a_writer_hinders_a_vertical_split(rt: HostRuntime) -> Result<(), Fail> {
    let alloc = rt.alloc();
    let (spec, live) = (split(alloc)?, three(alloc)?);
    let hindered = switch_ready(Strategy::NonBlockingCommit, &spec, 4, 4, &live);
    assert_eq!(rt; hindered, Ready::Conflict { txn: 1 });
    Ok(())
}

// Transaction 1 has written, 2 and 3 have locks.
fn three(alloc: Global) -> Result<Lives, Fail> {
    let mut live = Lives::new(alloc);
    for (txn, locks_source, wrote_source) in [
        (3, true, false),
        (1, false, true),
        (2, true, false),
    ] {
        live.push(Live {
            txn,
            locks_source,
            wrote_source,
        })?;
    }
    Ok(live)
}

fn part(alloc: Global) -> Result<Spec, Fail> {
    Ok(Spec::Part {
        table: Name::new(alloc, b"t")?,
        tests: Tests::new(alloc),
        yes: Name::new(alloc, b"y")?,
        no: Name::new(alloc, b"n")?,
    })
}

fn split(alloc: Global) -> Result<Spec, Fail> {
    Ok(Spec::Split {
        table: Name::new(alloc, b"t")?,
        by: Names::new(alloc),
        dep: Names::new(alloc),
        rest: Name::new(alloc, b"y")?,
        dependent: Name::new(alloc, b"n")?,
    })
}
