//! One entry beside a look, and many threads at one value.
ghost use Rattle.std.specs.Prelude.{◌≡◌, ◌+◌, All, length, IfOk};
ghost use Rattle.turn_table.specs.declared.view.TheConstants.{ALL_SHARES};
ghost use Rattle.turn_table.specs.Seats.{share, Rests};
ghost use Rattle.turn_table.specs.Turns.{Belongs};

use flux_defs::List;
use std::alloc::{AllocError, Global};
use std::sync::Wait;
use std::test::Fail;
use std::thread::{Threads, for_each_mut, join_mut};
use turn_table::{Logged, Seat, Turn};

const CLIENTS: usize = 16;

const ROUNDS: u64 = 200;

// Numbers of clients, in the order in which they came.
#[derive(Drop)]
struct Log {
    name: u8,
    entries: List<u32>,
}

impl Logged for Log {
    type Entry = u32;

    type Setting = u8;

    ghost history = { λ log. log.entries };

    ghost setting = { λ log. log.name };

    fn count(&self) -> u64 {
        self.entries.len() as u64
    }
}

// Adds one entry, and answers its position.
fn add<R: Wait>(
    rt: &R,
    turn: &Turn<Log>,
    seat: &mut Seat<Log>,
    entry: u32,
) -> Result<u64, AllocError>
    requires { Belongs (λ log. log.name) turn.now seat.old × Rests seat.old }
    ensures own { Belongs (λ log. log.name) turn.now seat.new × Rests seat.new }
    ensures share { share seat.new ≡ share seat.old }
{
    let mut log = turn.take(rt, seat);
    let at = log.count();
    let pushed = log.entries.push(entry);
    turn.give(seat, log);
    match pushed {
        Ok(()) => Ok(at),
        Err((_, failed)) => Err(failed),
    }
}

// One seat looks, and beside it the other adds an entry.
fn look_and_add<R: Threads + Wait + Sync>(
    rt: &R,
    turn: &Turn<Log>,
    first: &mut Seat<Log>,
    second: &mut Seat<Log>,
) -> (u64, bool)
    requires first { Belongs (λ log. log.name) turn.now first.old × Rests first.old }
    requires second { Belongs (λ log. log.name) turn.now second.old × Rests second.old }
    ensures first { Belongs (λ log. log.name) turn.now first.new × Rests first.new }
    ensures second { Belongs (λ log. log.name) turn.now second.new × Rests second.new }
    ensures share { (share first.new ≡ share first.old) × (share second.new ≡ share second.old) }
{
    join_mut(
        rt,
        &mut || turn.version(first),
        &mut || add(rt, turn, second, 5).is_ok(),
    )
}

fn open(alloc: Global) -> Result<(Turn<Log>, Seat<Log>), AllocError>
    ensures own { IfOk result (λ made. Belongs (λ log. log.name) made.0 made.1 × Rests made.1) }
    ensures share { IfOk result (λ made. share made.1 ≡ ALL_SHARES) }
{
    let empty = Log {
        name: 7,
        entries: List::new(alloc),
    };
    Turn::new(alloc, empty).map_err(|(_, failed)| failed)
}

#[test]
fn a_seat_sees_what_another_added(rt: HostRuntime) -> Result<(), Fail> {
    let (turn, mut first) = open(rt.alloc())?;
    let mut second = turn.split(&mut first)?;
    let (count, added) = look_and_add(&rt, &turn, &mut first, &mut second);
    assert!(rt; added && count <= 1, "beside the other: {count}");
    turn.join(&mut first, second);
    assert_eq!(rt; turn.version(&mut first), 1);
    let log = turn.close(first);
    assert!(rt; log.name == 7 && log.entries.items() == [5].as_slice());
    Ok(())
}

// A client, with the positions of the entries that it added.
#[derive(Drop)]
struct Client {
    number: u32,
    seat: Seat<Log>,
    positions: List<u64>,
}

// A client for each number, each with a seat.
fn deal(alloc: Global, turn: &Turn<Log>, first: &mut Seat<Log>) -> Result<Vec<Client>, AllocError>
    requires own { Belongs (λ log. log.name) turn.now first.old × Rests first.old }
    requires share { share first.old ≡ ALL_SHARES }
    ensures own { Belongs (λ log. log.name) turn.now first.new × Rests first.new }
    ensures theirs { IfOk result (λ clients. All
        (λ c. Belongs (λ log. log.name) turn.now c.seat × Rests c.seat × (share c.seat ≡ 1)) clients.items) }
    ensures share { IfOk result (λ clients. share first.new + length clients.items ≡ ALL_SHARES) }
{
    let mut clients = Vec::new(alloc);
    for number in 0..CLIENTS {
        let seat = turn.split(first)?;
        let client = Client {
            number: number as u32,
            seat,
            positions: List::new(alloc),
        };
        clients.push(client)?;
    }
    Ok(clients)
}

// The client adds its entries, and notes their positions. It stops where no memory is left.
fn work<R: Wait>(rt: &R, turn: &Turn<Log>, client: &mut Client)
    requires { Belongs (λ log. log.name) turn.now client.old.seat × Rests client.old.seat
        × (share client.old.seat ≡ 1) }
    ensures { Belongs (λ log. log.name) turn.now client.new.seat × Rests client.new.seat
        × (share client.new.seat ≡ 1) }
{
    for _ in 0..ROUNDS {
        let Ok(at) = add(rt, turn, &mut client.seat, client.number) else {
            return;
        };
        if client.positions.push(at).is_err() {
            return;
        }
    }
}

// All clients work, each in a thread.
fn work_all<R: Threads + Wait + Sync>(rt: &R, turn: &Turn<Log>, clients: &mut Vec<Client>)
    requires { All
        (λ c. Belongs (λ log. log.name) turn.now c.seat × Rests c.seat × (share c.seat ≡ 1)) clients.old.items }
    ensures theirs { All
        (λ c. Belongs (λ log. log.name) turn.now c.seat × Rests c.seat × (share c.seat ≡ 1)) clients.new.items }
    ensures count { length clients.new.items ≡ length clients.old.items }
{
    for_each_mut(
        rt,
        clients.as_mut_slice(),
        CLIENTS,
        &|_, client| work(rt, turn, client),
    );
}

// Takes all seats in.
fn gather(turn: &Turn<Log>, first: &mut Seat<Log>, mut clients: Vec<Client>)
    requires own { Belongs (λ log. log.name) turn.now first.old × Rests first.old }
    requires theirs { All
        (λ c. Belongs (λ log. log.name) turn.now c.seat × Rests c.seat × (share c.seat ≡ 1)) clients.items }
    requires share { share first.old + length clients.items ≡ ALL_SHARES }
    ensures own { Belongs (λ log. log.name) turn.now first.new × Rests first.new }
    ensures share { share first.new ≡ ALL_SHARES }
{
    while let Some(client) = clients.pop() {
        turn.join(first, client.seat);
    }
}

// The positions rise, and at each stands the client's number.
fn stands_where_it_says(client: &Client, log: &Log) -> bool {
    let positions = client.positions.items();
    let rising = positions.windows(2).all(|pair| pair[0] < pair[1]);
    let own = positions
        .iter()
        .all(|&at| log.entries.get(at as usize) == Some(&client.number));
    rising && own && positions.len() as u64 == ROUNDS
}

#[test]
fn sixteen_clients_take_turns(rt: HostRuntime) -> Result<(), Fail> {
    let (turn, mut first) = open(rt.alloc())?;
    let mut clients = deal(rt.alloc(), &turn, &mut first)?;
    work_all(&rt, &turn, &mut clients);
    let log = turn.take(&rt, &mut first);
    for client in clients.as_slice() {
        let number = client.number;
        assert!(rt; stands_where_it_says(client, &log), "client {number}");
    }
    turn.give(&mut first, log);
    gather(&turn, &mut first, clients);
    assert_eq!(rt; turn.close(first).count(), 3_200);
    Ok(())
}
