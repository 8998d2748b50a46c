ghost use Rattle.c6x_cli.specs.LinkedModules.{LoadedPlansHold};

/// Where a plan is taken in and loaded, the entries of every link whose file one of its modules was read from hold their
/// values in every process that uses the module.
pub fn linked_modules_hold()
    ensures { LoadedPlansHold }
{}
