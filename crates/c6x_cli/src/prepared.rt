use c6x_base::{Bytes, Name};
use c6x_cli_run::Loading;
use c6x_elf::File;
use c6x_ports::Kind;

/// A command that nothing stops any more but its devices.
#[derive(Drop)]
pub enum Prepared {
    /// The file whose code is to be listed.
    Dis(File),
    /// The file of which it is to be told what stands in it.
    Show(File),
    /// The plan that is to be loaded and listed.
    Map(Loading),
    /// The plan that is to be run under the first policy of a kind, which begins with a seed, and whether its turns are
    /// told.
    Run(Loading, Kind, u32, bool),
    /// What this number came to is to be run under the first policy of kind Round, and its sums told.
    Generate(u32, Loading),
    /// These bytes are to be stored under the name.
    Store(Name, Bytes),
}
