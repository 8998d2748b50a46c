ghost use Rattle.std.specs.Prelude.{◌≡◌, ◌&&◌};
ghost use Rattle.c6x_symbols.specs.Binding.{binding_of, is_lost, is_shown, is_table, is_undefined, without_definition};
ghost use Rattle.c6x_symbols.specs.Bindings.{is_defined, is_import, source_by};

use crate::binding::Binding;
use crate::group::Group;
use crate::source::Source;
use c6x_elf::Visibility;

/// Whether a name is the table's.
#[tactic(auto, unfolding(crate::specs::Binding::is_table))]
fn is_table(name: &[u8]) -> bool
    ensures { result ≡ is_table name.now }
{
    name == b"__c6xabi_DSBT_BASE".as_slice()
}

/// What a name is bound to.
#[tactic(auto, unfolding(crate::specs::Binding::binding_of))]
pub fn binding_of(name: &[u8], group: &Group) -> Binding
    ensures { result ≡ binding_of name.now group.now }
{
    match (group.strong, group.common, group.weak) {
        (Some(source), _, _) => Binding::Strong {
            object: source.object,
            symbol: source.symbol,
        },
        (None, Some(common), _) => Binding::Common {
            size: common.size,
            align: common.align,
            near: common.near,
        },
        (None, None, Some(source)) => Binding::Weak {
            object: source.object,
            symbol: source.symbol,
        },
        (None, None, None) => undefined(is_table(name), group.all_weak),
    }
}

/// What a name without a definition is bound to.
fn undefined(table: bool, weak: bool) -> Binding
    ensures { result ≡ without_definition table weak }
{
    if table {
        Binding::Table
    } else {
        Binding::Import { weak }
    }
}

/// Where the symbol stands that a name is written from.
pub fn source_of(group: &Group) -> Option<Source>
    ensures { result ≡ source_by group.now.strong group.now.common group.now.weak }
{
    match (group.strong, group.common) {
        (Some(source), _) => Some(source),
        (None, Some(common)) => Some(common.source),
        (None, None) => group.weak,
    }
}

/// Whether other modules see a name of this visibility.
fn is_shown(visibility: Visibility) -> bool
    ensures { result ≡ is_shown visibility }
{
    match visibility {
        Visibility::Internal | Visibility::Hidden => false,
        Visibility::Protected | Visibility::Default => true,
    }
}

/// Whether a name is bound to a definition or a common that other modules see.
pub fn is_exported(binding: Binding, visibility: Visibility) -> bool
    ensures { result ≡ (is_defined binding && is_shown visibility) }
{
    match binding {
        Binding::Strong { .. } | Binding::Weak { .. } | Binding::Common { .. } => {
            is_shown(visibility)
        }
        Binding::Import { .. } | Binding::Table => false,
    }
}

/// Whether a name is bound to a definition of another module.
pub fn is_imported(binding: Binding) -> bool
    ensures { result ≡ is_import binding }
{
    match binding {
        Binding::Import { .. } => true,
        Binding::Strong { .. } | Binding::Weak { .. } | Binding::Common { .. } | Binding::Table =>
            false,
    }
}

/// Whether nothing defines a name that no other module sees.
pub fn is_lost(name: &[u8], group: &Group) -> bool
    ensures { result ≡ is_lost name.now group.now }
{
    !is_shown(group.visibility) && is_undefined(group) && !is_table(name)
}

/// Whether no mention defines the name.
fn is_undefined(group: &Group) -> bool
    ensures { result ≡ is_undefined group.now }
{
    group.strong.is_none() && group.common.is_none() && group.weak.is_none()
}
