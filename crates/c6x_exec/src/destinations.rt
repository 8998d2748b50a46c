ghost use Rattle.std.specs.Prelude.{◌≡◌, ◌∷◌, ◌++◌, [], ℕ, ◌+◌, ◌*◌, ◌<◌, ◌≤◌, List, length, take, drop, All, IfSome, flat_map};
ghost use Rattle.c6x_encoding.specs.Rows.{FitsWrite, FitsAccess, FitsEffects};
ghost use Rattle.c6x_machine.specs.Packet.{destination_of, load_destination_of, destinations_of_row, destinations_in, is_among, two_writes_by};
ghost use Rattle.c6x_machine.specs.Origin.{most_cycles};
ghost use Rattle.c6x_exec.specs.Pending.{is_due};
ghost use Rattle.c6x_exec.specs.Fits.{IsSoon};
ghost use Rattle.c6x_exec.specs.Sound.{IsSound};

use crate::context::Context;
use crate::pending::{is_write_pending, register_place};
use c6x_isa::{Effects, MemOp, Write, write_of_load};
use c6x_machine::Destination;
use std::marker::Model;

/// The writes of a packet: three at most for each instruction.
#[derive(Drop)]
struct Destinations {
    items: [Destination; 24],
    count: usize,
}

/// Seen as their list.
impl Model for Destinations {
    ghost use Rattle.std.specs.Prelude.{◌≡◌, ◌≤◌, List, length, take};
    ghost use Rattle.c6x_machine.specs.declared.destination.Destination.{Destination};

    ghost Value = { List Destination };

    ghost view = { λ l. take l.count l.items };

    ghost invariant = { λ l. (l.count ≤ 24) × (length l.items ≡ 24) };
}

impl Destinations {
    fn new() -> Destinations
        ensures { result ≡ [] }
    {
        Destinations {
            items: [Destination { at: 0, register: 0 }; 24],
            count: 0,
        }
    }

    fn push(&mut self, destination: Destination)
        requires { length self.old < 24 }
        ensures { self.new ≡ self.old ++ destination ∷ [] }
    {
        self.items[self.count] = destination;
        self.count += 1;
    }

    fn as_slice(&self) -> &[Destination]
        ensures { result.now ≡ self.now }
    {
        &self.items[..self.count]
    }
}

/// Adds a write of the current cycle.
fn add_write(destinations: &mut Destinations, now: u32, written: &Option<Write>)
    requires now { now ≤ most_cycles }
    requires fits { IfSome written.now FitsWrite }
    requires room { length destinations.old < 24 }
    ensures added { destinations.new ≡ destinations.old ++ destination_of now written.now }
    ensures few { length destinations.new ≤ length destinations.old + 1 }
{
    if let Some(write) = written {
        destinations.push(Destination {
            at: now + 1 + write.delay as u32,
            register: register_place(write.side, write.register),
        });
    }
}

/// Adds the write of a load of the current cycle.
fn add_load(destinations: &mut Destinations, now: u32, access: &Option<MemOp>)
    requires now { now ≤ most_cycles }
    requires fits { IfSome access.now FitsAccess }
    requires room { length destinations.old < 24 }
    ensures added { destinations.new ≡ destinations.old ++ load_destination_of now access.now }
    ensures few { length destinations.new ≤ length destinations.old + 1 }
{
    if let Some(access) = access {
        add_write(destinations, now, &write_of_load(*access, 0));
    }
}

/// Adds the writes of a row.
fn add_row(destinations: &mut Destinations, now: u32, row: &Effects)
    requires now { now ≤ most_cycles }
    requires fits { FitsEffects row.now }
    requires room { length destinations.old ≤ 21 }
    ensures added { destinations.new ≡ destinations.old ++ destinations_of_row now row.now }
    ensures few { length destinations.new ≤ length destinations.old + 3 }
{
    add_write(destinations, now, &row.result);
    add_write(destinations, now, &row.update);
    add_load(destinations, now, &row.access);
}

/// The writes of the rows of a packet.
fn destinations_of(rows: &[Effects], now: u32) -> Destinations
    requires now { now ≤ most_cycles }
    requires fits { All FitsEffects rows.now }
    requires few { length rows.now ≤ 8 }
    ensures { result ≡ destinations_in now rows.now }
{
    let mut destinations = Destinations::new();
    for row in rows {
        add_row(&mut destinations, now, row);
    }
    destinations
}

/// Whether a write is among others.
fn is_among(destination: Destination, others: &[Destination]) -> bool
    ensures { result ≡ is_among destination others.now }
{
    for other in others {
        if destination.at == other.at && destination.register == other.register {
            return true;
        }
    }
    false
}

/// Whether one of the writes lands with an earlier one, or with a later one of them.
fn meet(p: &Context, destinations: &[Destination]) -> bool
    requires sound { IsSound p.now }
    requires soon { All IsSoon destinations.now }
    ensures { result ≡ two_writes_by (is_due p.now.writes.stamps p.now.writes.values) destinations.now }
{
    for place in 0..destinations.len() {
        let destination = destinations[place];
        if is_write_pending(p, destination.at, destination.register) {
            return true;
        }
        if is_among(destination, &destinations[place + 1..]) {
            return true;
        }
    }
    false
}

/// Whether two writes would land on one register at one cycle.
#[tactic(auto, using(crate::proofs::Meetings::soon_destinations))]
pub(crate) fn two_writes(p: &Context, rows: &[Effects]) -> bool
    requires sound { IsSound p.now }
    requires fits { All FitsEffects rows.now }
    requires few { length rows.now ≤ 8 }
    ensures { result ≡ two_writes_by (is_due p.now.writes.stamps p.now.writes.values) (destinations_in p.now.cycles rows.now) }
{
    meet(p, destinations_of(rows, p.cycles).as_slice())
}
