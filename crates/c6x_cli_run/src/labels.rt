ghost use Rattle.std.specs.Prelude.{◌≡◌, ◌≤◌, length};
ghost use Rattle.c6x_cli_run.specs.Words.{bind_words, module_words, room_words};

use c6x_base::Line;
use c6x_cli_steps::label;
use c6x_module::ModuleRule;
use c6x_place::BindRule;

/// The code and the word of a rule of modules.
pub fn module_label(rule: ModuleRule) -> Line
    ensures { result ≡ module_words rule }
{
    label(module_text(rule))
}

/// The same as bytes.
#[tactic(auto, unfolding(crate::specs::Words::module_words))]
fn module_text(rule: ModuleRule) -> &'static [u8]
    ensures words { result.now ≡ module_words rule }
    ensures short { length result.now ≤ 256 }
{
    match rule {
        ModuleRule::NotDsbt => b"L1 NotDsbt",
        ModuleRule::Segments => b"L2 Segments",
        ModuleRule::TextAlign => b"L3 TextAlign",
        ModuleRule::TableOutside => b"L4 TableOutside",
        ModuleRule::InitCode => b"L5 InitCode",
        ModuleRule::RelForm => b"L6 RelForm",
        ModuleRule::RelocKind => b"L7 RelocKind",
        ModuleRule::TextReloc => b"L8 TextReloc",
        ModuleRule::FieldOverlap => b"L9 FieldOverlap",
        ModuleRule::EntryOutside => b"L10 EntryOutside",
        ModuleRule::DynamicOutside => b"L11 DynamicOutside",
    }
}

/// The code and the word of a rule of binding.
pub fn bind_label(rule: BindRule) -> Line
    ensures { result ≡ bind_words rule }
{
    label(bind_text(rule))
}

/// The same as bytes.
#[tactic(auto, unfolding(crate::specs::Words::bind_words))]
fn bind_text(rule: BindRule) -> &'static [u8]
    ensures words { result.now ≡ bind_words rule }
    ensures short { length result.now ≤ 256 }
{
    match rule {
        BindRule::ExecIndex => b"L12 ExecIndex",
        BindRule::UnassignedIndex => b"L13 UnassignedIndex",
        BindRule::DuplicateIndex => b"L14 DuplicateIndex",
        BindRule::TableTooSmall => b"L15 TableTooSmall",
        BindRule::MissingModule => b"L16 MissingModule",
        BindRule::Unresolved => b"L17 Unresolved",
        BindRule::SymbolOutside => b"L19 SymbolOutside",
        BindRule::Count => b"L20 Count",
    }
}

/// The code and the word of the rule on room.
#[tactic(auto, unfolding(crate::specs::Words::room_words))]
pub fn room_label() -> Line
    ensures { result ≡ room_words }
{
    label(b"L18 NoRoom")
}
