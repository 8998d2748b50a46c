ghost use Rattle.c6x_relocated.specs.Plans.{MembersStand};
ghost use Rattle.c6x_relocated.specs.RelocatedPlans.{PlansAreRelocated};

/// Where a plan is loaded, each member of each search list stands in the memory, its text moved by a multiple of 32.
pub fn members_stand()
    ensures { MembersStand }
{}

/// Where a plan is loaded, the entries of each link hold their values in every process that uses its module.
pub fn plans_are_relocated()
    ensures { PlansAreRelocated }
{}
