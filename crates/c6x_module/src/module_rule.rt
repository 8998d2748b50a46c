/// A rule that a file must keep to be a module, numbered L1 to L11 in this order. L11 is looked at between L6 and L7.
#[derive(Clone, Copy, Debug, PartialEq, Eq)]
pub enum ModuleRule {
    /// There are no dynamic entries, or a tag of the data segment base table is missing.
    NotDsbt,
    /// There are not just one text and one data range with memory, within their limits and apart.
    Segments,
    /// The text does not begin at a fetch packet, or an alignment can not be met.
    TextAlign,
    /// The table is not made of whole words of the data range.
    TableOutside,
    /// There is code that would have to run before the entry or after the end.
    InitCode,
    /// There are relocation entries without addends.
    RelForm,
    /// A dynamic relocation entry's kind is not NONE, ABS32 or JUMP_SLOT.
    RelocKind,
    /// A dynamic field does not lie in the data range.
    TextReloc,
    /// A dynamic field shares a byte with an earlier one or with the table.
    FieldOverlap,
    /// An executable's entry is not a word of the text.
    EntryOutside,
    /// A table that the dynamic entries name is missing, or what it names is outside.
    DynamicOutside,
}
