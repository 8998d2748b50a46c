use c6x_asm_lines::AsmRule;

/// The first rule that a text breaks, and its line.
#[derive(Debug, Clone, Copy, PartialEq, Eq)]
pub struct Broken {
    pub rule: AsmRule,
    pub line: u32,
}
