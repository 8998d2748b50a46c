use c6x_base::Name;
use c6x_ports::Kind;

/// What the command's words ask for.
#[derive(Debug, Drop)]
pub enum Request {
    /// Assemble a text to an object file.
    Assemble {
        input: Name,
        output: Name,
    },
    /// Link the objects of a link plan to a module.
    Link {
        plan: Name,
        output: Name,
    },
    /// List the code of an ELF file.
    Dis {
        input: Name,
    },
    /// Tell what stands in an ELF file.
    Show {
        input: Name,
    },
    /// Lay the processes of a plan out on the board and list where everything stands.
    Map {
        plan: Name,
    },
    /// Run them to their ends, in turns of the first policy of this kind, and tell how they ended, and each turn where
    /// `turns` says so.
    Run {
        plan: Name,
        policy: Kind,
        seed: u32,
        turns: bool,
    },
    /// Run what a number of at most six digits generates, under the first policy of kind Round, and tell the sums.
    Generate {
        number: u32,
    },
}
