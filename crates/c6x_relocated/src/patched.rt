ghost use Rattle.c6x_relocated.specs.Patches.{LoadingIsPatching};

/// The table and the dynamic fields of a loaded range are fields set behind those that had been set in it.
pub fn loading_is_patching()
    ensures { LoadingIsPatching }
{}
