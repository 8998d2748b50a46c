/// What a relocation's value is made of (SPRAB89, "Relocation").
#[derive(Clone, Copy, Debug)]
pub struct Inputs {
    /// S: the symbol's address.
    pub s: u32,
    /// A: the entry's addend.
    pub a: i32,
    /// P: the address of the place that is changed.
    pub p: u32,
    /// B: the address of the module's table, the DSBT.
    pub b: u32,
    /// The address of the symbol's GOT word.
    pub g: u32,
    /// The module's index in the DSBT.
    pub index: u32,
}
