ghost use Rattle.std.specs.Prelude.{◌≡◌, ◌⊎◌, ◌<◌, ◌≤◌, ℕ, IfSome};
ghost use Rattle.c6x_encoding.specs.Rows.{access_at, distance_of, job_of, long_base, short_effects, FitsAccess, FitsEffects, FitsJob};
ghost use Rattle.c6x_encoding.specs.Values.{accesses_old, adds, changed_base, changes_base, size_of, takes_register};

use crate::rows::only_wait;
use c6x_base::Side;
use c6x_encoding::{Access, Effects, Job, MemOp, Regs, Write};

/// How many bytes a load or a store accesses.
pub fn size(access: Access) -> u8
    ensures bytes { result ≡ size_of access }
    ensures some { (result ≡ 1) ⊎ (result ≡ 2) ⊎ (result ≡ 4) }
{
    match access {
        Access::Ldbu | Access::Ldb | Access::Stb => 1,
        Access::Ldhu | Access::Ldh | Access::Sth => 2,
        Access::Ldw | Access::Stw => 4,
    }
}

/// What a load or a store does at its place.
fn job(access: Access, side: Side, register: u8, regs: &Regs) -> Job
    requires { register < 32 }
    ensures work { result ≡ job_of regs.now access side register }
    ensures fits { FitsJob result }
{
    match access {
        Access::Ldhu | Access::Ldbu => Job::Load {
            signed: false,
            side,
            register,
        },
        Access::Ldb | Access::Ldh | Access::Ldw => Job::Load {
            signed: true,
            side,
            register,
        },
        Access::Stb | Access::Sth | Access::Stw => Job::Store {
            value: regs.get(side, register),
        },
    }
}

/// The access of a load or a store at its address.
pub fn access_to(
    access: Access,
    side: Side,
    register: u8,
    address: u32,
    regs: &Regs,
) -> Option<MemOp>
    requires { register < 32 }
    ensures place { result ≡ access_at regs.now access side register address }
    ensures fits { IfSome result FitsAccess }
{
    Some(MemOp {
        address,
        size: size(access),
        job: job(access, side, register, regs),
    })
}

/// The offset of a short load or store in bytes.
pub fn distance(access: Access, side: Side, mode: u8, offset: u8, regs: &Regs) -> u32
    requires { offset < 32 }
    ensures { result ≡ distance_of regs.now access side mode offset }
{
    let offset = if mode / 4 % 2 == 1 {
        regs.get(side, offset)
    } else {
        u32::from(offset)
    };
    u32::from(size(access)).wrapping_mul(offset)
}

/// The base plus or minus the offset, as the mode says.
pub fn changed(mode: u8, base: u32, distance: u32) -> u32
    ensures { result ≡ changed_base mode base distance }
{
    if mode % 2 == 1 {
        base.wrapping_add(distance)
    } else {
        base.wrapping_sub(distance)
    }
}

/// Whether a mode changes the base register.
pub fn changes(mode: u8) -> bool
    ensures { result ≡ changes_base mode }
{
    8 <= mode
}

/// Whether a mode accesses the base as it was.
pub fn keeps(mode: u8) -> bool
    ensures { result ≡ accesses_old mode }
{
    8 <= mode && mode / 2 % 2 == 1
}
