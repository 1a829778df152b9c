//! Shared types: each call that takes memory, once with memory to spare.
use flux_defs::{Ask, Claim, Command, Gate, Job, List, Need, OpenGate, Place, Text};
use std::alloc::{AllocError, Global};
use std::test::Fail;

fn ask(alloc: Global) -> Result<Ask, AllocError> {
    let core = Need::Vert {
        kind: 2,
        count: 3,
        hold: true,
        needs: List::new(alloc),
    };
    let memory = Need::Pool {
        kind: 3,
        quantity: 10,
    };
    let slot = Need::Spread {
        count: 2,
        needs: List::of_vec(vec![in alloc; core, memory]?),
    };
    Ok(Ask {
        needs: List::of_vec(vec![in alloc; slot]?),
        duration: 60,
        barred: List::of_vec(vec![in alloc; 1u32, 6]?),
    })
}

fn inner_needs(ask: &Ask) -> usize {
    match ask.needs.get(0) {
        Some(Need::Spread { needs, .. }) => needs.len(),
        _ => 0,
    }
}

#[test]
fn lists(rt: HostRuntime) -> Result<(), Fail> {
    let mut list = List::new(rt.alloc());
    assert!(rt; list.is_empty());
    assert!(rt; list.push(7u64).is_ok());
    assert!(rt; list.push(8).is_ok());
    assert_eq!(rt; list.items(), [7, 8].as_slice());
    assert_eq!(rt; list.len(), 2);
    assert_eq!(rt; list.put(0, 9), 7);
    assert_eq!(rt; list.get(0).copied(), Some(9));
    assert_eq!(rt; list.pop(), Some(8));
    assert_eq!(rt; list.into_vec().len(), 1);
    Ok(())
}

#[test]
fn texts(rt: HostRuntime) -> Result<(), Fail> {
    let text = Text::of(rt.alloc(), b"node0")?;
    let copied = text.copy(rt.alloc())?;
    assert_eq!(rt; copied.bytes(), b"node0".as_slice());
    assert_eq!(rt; Text::empty(rt.alloc()).bytes().len(), 0);
    Ok(())
}

#[test]
fn commands(rt: HostRuntime) -> Result<(), Fail> {
    let command = Command::Reserve {
        job: 5,
        ask: ask(rt.alloc())?,
    };
    let copied = command.copy(rt.alloc())?;
    let Command::Reserve { job, ask } = copied else {
        return Err(Fail::from("another command"));
    };
    assert_eq!(rt; job, 5);
    assert_eq!(rt; ask.duration, 60);
    assert_eq!(rt; ask.barred.items(), [1, 6].as_slice());
    assert_eq!(rt; inner_needs(&ask), 2);
    Ok(())
}

#[test]
fn jobs(rt: HostRuntime) -> Result<(), Fail> {
    let claims = vec![in rt.alloc(); Claim::Pass { vertex: 1 }, Claim::Hold { vertex: 2 }]?;
    let job = Job {
        id: 1,
        start: 0,
        end: 60,
        claims: List::of_vec(claims),
    };
    let copied = job.copy(rt.alloc())?;
    assert_eq!(rt; copied.claims.items(), job.claims.items());
    assert_eq!(rt; copied.end, 60);
    OpenGate.at(0, Place::Placed);
    Ok(())
}
