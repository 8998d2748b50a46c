ghost use Rattle.c6x_gen.specs.BoundModules.{ProcessesAreBound};

/// No process of a number breaks a rule of binding, over the modules that its sources are linked to.
pub fn processes_are_bound()
    ensures { ProcessesAreBound }
{}
