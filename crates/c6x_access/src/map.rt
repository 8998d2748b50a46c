ghost use Rattle.std.specs.Prelude.{◌≡◌, ℕ, ◌+◌, ◌≤◌, ◌++◌, [], ◌∷◌, List, OnOk, OnErr};
ghost use Rattle.c6x_access.specs.Rights.{may_access};

use crate::area::Area;
use crate::reach::reach;
use crate::right::Right;
use std::alloc::{AllocError, Global};
use std::marker::Model;

/// The areas of a process, in the order in which they were added.
#[derive(Debug, Drop)]
pub struct Map {
    areas: Vec<Area>,
}

impl Model for Map {
    ghost use Rattle.std.specs.Prelude.{List};
    ghost use Rattle.c6x_access.specs.declared.area.Area.{Area};

    ghost Value = { List Area };

    ghost view = { λ m. m.areas.items };
}

impl Map {
    /// No areas. No memory is taken yet.
    pub fn new(alloc: Global) -> Map
        ensures { result ≡ [] }
    {
        Map {
            areas: Vec::new(alloc),
        }
    }

    /// Adds an area behind the others. Where there was no memory for it, nothing has changed.
    pub fn add(&mut self, area: Area) -> Result<(), AllocError>
        requires { area.lo + area.len ≤ 4294967295 }
        ensures added { OnOk result (self.new ≡ self.old ++ area ∷ []) }
        ensures unchanged { OnErr result (self.new ≡ self.old) }
    {
        self.areas.push(area)?;
        Ok(())
    }

    /// Whether an access may be made: each of the `len` bytes from an address on lies in an area with the right, and none
    /// past the last address.
    pub fn allows(&self, at: u32, len: u32, right: Right) -> bool
        ensures { result ≡ may_access self.now right at len }
    {
        is_allowed(&self.areas, at, len, right)
    }
}

/// Whether an access may be made, by the areas. Each step goes on to the end of an area, so that an access inside one area
/// takes one step.
#[tactic(auto, unfolding(crate::specs::Rights::may_access))]
fn is_allowed(areas: &[Area], at: u32, len: u32, right: Right) -> bool
    ensures { result ≡ may_access areas.now right at len }
{
    if at as u64 + len as u64 > 1 << 32 {
        return false;
    }
    let mut from = at;
    let mut left = len;
    'steps: loop {
        if left == 0 {
            return true;
        }
        let step = reach(areas, right, from);
        if step == 0 {
            return false;
        }
        if left <= step {
            return true;
        }
        from += step;
        left -= step;
    }
}
