ghost use Rattle.std.specs.Prelude.{◌≡◌, ℕ, ◌+◌, ◌<◌, ◌≤◌, List, length, drop, All, IfSome, nat_lt, None};
ghost use Rattle.c6x_encoding.specs.Rows.{FitsAccess, FitsEffects};
ghost use Rattle.c6x_machine.specs.Packet.{targets_in, bad_read_of, bad_write_of, misaligned_of, first_end, is_store, overlap, shares, two_stores, destinations_in, fault_by};
ghost use Rattle.c6x_exec.specs.Pending.{is_due};
ghost use Rattle.c6x_exec.specs.Sound.{IsSound};

use crate::context::Context;
use crate::destinations::two_writes;
use c6x_access::{Map, Right};
use c6x_isa::{Effects, Job, MemOp};
use c6x_machine::{End, FaultKind};

/// How many of the rows branch.
fn targets(rows: &[Effects]) -> usize
    ensures { result ≡ targets_in rows.now }
{
    rows.iter().filter(|row| row.target.is_some()).count()
}

/// The fault of an access that may not read.
#[tactic(auto, unfolding(c6x_machine::specs::Packet::ends_if))]
fn bad_read_of(map: &Map, access: &Option<MemOp>) -> Option<End>
    ensures { result ≡ bad_read_of map.now access.now }
{
    match access {
        Some(access) => match access.job {
            Job::Load { .. } => {
                if map.allows(access.address, access.size as u32, Right::Read) {
                    None
                } else {
                    Some(End::Fault(FaultKind::BadRead, access.address))
                }
            }
            Job::Store { .. } => None,
        },
        None => None,
    }
}

/// The fault of an access that may not write.
#[tactic(auto, unfolding(c6x_machine::specs::Packet::ends_if))]
fn bad_write_of(map: &Map, access: &Option<MemOp>) -> Option<End>
    ensures { result ≡ bad_write_of map.now access.now }
{
    match access {
        Some(access) => match access.job {
            Job::Store { .. } => {
                if map.allows(access.address, access.size as u32, Right::Write) {
                    None
                } else {
                    Some(End::Fault(FaultKind::BadWrite, access.address))
                }
            }
            Job::Load { .. } => None,
        },
        None => None,
    }
}

/// The fault of an access whose address is no multiple of its size.
#[tactic(auto, unfolding(c6x_machine::specs::Packet::ends_if))]
fn misaligned_of(access: &Option<MemOp>) -> Option<End>
    requires { IfSome access.now FitsAccess }
    ensures { result ≡ misaligned_of access.now }
{
    match access {
        Some(access) => {
            if access.address % access.size as u32 == 0 {
                None
            } else {
                Some(End::Fault(FaultKind::Misaligned, access.address))
            }
        }
        None => None,
    }
}

/// The first fault of an access that may not read.
#[tactic(auto, using(crate::proofs::Firsts::first_rest))]
fn bad_read(map: &Map, rows: &[Effects]) -> Option<End>
    ensures { result ≡ first_end (bad_read_of map.now) rows.now }
{
    for row in rows {
        if let Some(end) = bad_read_of(map, &row.access) {
            return Some(end);
        }
    }
    None
}

/// The first fault of an access that may not write.
#[tactic(auto, using(crate::proofs::Firsts::first_rest))]
fn bad_write(map: &Map, rows: &[Effects]) -> Option<End>
    ensures { result ≡ first_end (bad_write_of map.now) rows.now }
{
    for row in rows {
        if let Some(end) = bad_write_of(map, &row.access) {
            return Some(end);
        }
    }
    None
}

/// The first fault of an access whose address is no multiple of its size.
#[tactic(auto, using(crate::proofs::Firsts::first_rest))]
fn misaligned(rows: &[Effects]) -> Option<End>
    requires { All FitsEffects rows.now }
    ensures { result ≡ first_end misaligned_of rows.now }
{
    for row in rows {
        if let Some(end) = misaligned_of(&row.access) {
            return Some(end);
        }
    }
    None
}

/// Whether a memory access is a store.
fn is_store(job: &Job) -> bool
    ensures { result ≡ is_store job.now }
{
    matches!(job, Job::Store { .. })
}

/// Whether two accesses share a byte.
fn overlap(first: &MemOp, other: &MemOp) -> bool
    ensures { result ≡ overlap first.now other.now }
{
    let first_end = first.address as u64 + first.size as u64;
    let other_end = other.address as u64 + other.size as u64;
    (first.address as u64) < other_end && (other.address as u64) < first_end
}

/// The fault of two stores that share a byte, at the second one's address.
#[tactic(auto, unfolding(c6x_machine::specs::Packet::ends_if))]
fn shares(first: &Option<MemOp>, other: &Option<MemOp>) -> Option<End>
    ensures { result ≡ shares first.now other.now }
{
    match (first, other) {
        (Some(first), Some(other)) => {
            if is_store(&first.job) && is_store(&other.job) && overlap(first, other) {
                Some(End::Fault(FaultKind::TwoStores, other.address))
            } else {
                None
            }
        }
        _ => None,
    }
}

/// The first fault of a later store that shares a byte with this one.
#[tactic(auto, using(crate::proofs::Firsts::first_rest))]
fn shares_later(first: &Option<MemOp>, rows: &[Effects]) -> Option<End>
    ensures { result ≡ first_end (shares first.now) rows.now }
{
    for row in rows {
        if let Some(end) = shares(first, &row.access) {
            return Some(end);
        }
    }
    None
}

/// The first fault of two stores that share a byte.
#[tactic(auto, using(crate::proofs::Firsts::two_stores_rest))]
fn two_stores(rows: &[Effects]) -> Option<End>
    ensures { result ≡ two_stores rows.now }
{
    for place in 0..rows.len() {
        if let Some(end) = shares_later(&rows[place].access, &rows[place + 1..]) {
            return Some(end);
        }
    }
    None
}

/// The first fault of a packet, in the order of the faults.
#[tactic(auto, unfolding(c6x_machine::specs::Packet::ends_if, c6x_machine::specs::Packet::fault_by))]
pub(crate) fn fault(p: &Context, map: &Map, rows: &[Effects], at: u32) -> Option<End>
    requires sound { IsSound p.now }
    requires fits { All FitsEffects rows.now }
    requires few { length rows.now ≤ 8 }
    ensures { result ≡ fault_by map.now (nat_lt 1 (targets_in rows.now)) (is_due p.now.writes.stamps p.now.writes.values) p.now.cycles at rows.now }
{
    if targets(rows) > 1 {
        return Some(End::Fault(FaultKind::TwoBranches, at));
    }
    if let Some(end) = bad_read(map, rows) {
        return Some(end);
    }
    if let Some(end) = bad_write(map, rows) {
        return Some(end);
    }
    if let Some(end) = misaligned(rows) {
        return Some(end);
    }
    if let Some(end) = two_stores(rows) {
        return Some(end);
    }
    if two_writes(p, rows) {
        return Some(End::Fault(FaultKind::TwoWrites, at));
    }
    None
}
