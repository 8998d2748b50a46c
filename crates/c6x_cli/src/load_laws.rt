ghost use Rattle.std.specs.Prelude.{◌≡◌, ℕ, All, List, Ok};
ghost use Rattle.c6x_spec.specs.Files.{Files};
ghost use Rattle.c6x_cli.specs.Linking.{linking_steps};
ghost use Rattle.c6x_cli.specs.LinkedLoads.{HoldsBytes, LinkedLoads};

/// The bytes of the module that a link plan asks for are read as the module of the link.
pub fn linked_modules_load()
    ensures { (files : Files) (name bytes : List ℕ) → All HoldsBytes files → (linking_steps files name).result ≡ Ok bytes → LinkedLoads files name bytes }
{}
