// The rows of symbols, of a catalogue, of externs and of a program.

/// A part of a table: bytes of names, section entries, parameters or instruction slots.
#[derive(Clone, Copy, Debug, PartialEq, Eq)]
pub struct Span {
    /// Its first row.
    pub start: usize,
    /// How many rows it has.
    pub len: usize,
}

/// What a symbol stands for.
#[derive(Clone, Copy, Debug, PartialEq, Eq)]
pub enum SymbolKind {
    Unknown,
    Text,
    Data,
    Section,
    File,
    Label,
    Tls,
}

/// A symbol of the probe.
#[derive(Clone, Copy, Debug, PartialEq, Eq)]
pub struct Symbol {
    /// The number by which relocations refer to it.
    pub index: u32,
    /// Its name, a part of the symbol names.
    pub name: Option<Span>,
    /// The section it lies in.
    pub section: Option<u32>,
    /// Whether it is a definition.
    pub is_definition: bool,
    /// What it stands for.
    pub kind: SymbolKind,
    /// Whether it is weak.
    pub is_weak: bool,
}

/// What a row of a catalogue is of.
#[derive(Clone, Copy, Debug, PartialEq, Eq)]
pub enum CatalogueKind {
    Func,
    Var,
}

/// A function or a variable that the kernel has a type for.
#[derive(Clone, Copy, Debug, PartialEq, Eq)]
pub struct CatalogueRow {
    /// Its name, a part of the catalogue's names.
    pub name: Span,
    /// What it is.
    pub kind: CatalogueKind,
    /// The id of its type in the kernel's BTF.
    pub id: u32,
    /// Whether its type is compatible with the one that the probe declares.
    // A flag, not an Option of the id: a row that does not fit is refused otherwise than one that is not there.
    pub fits: bool,
}

/// A kernel symbol that the probe declares, and what is known of it.
#[derive(Clone, Copy, Debug, PartialEq, Eq)]
pub struct ExternDesc {
    /// Its name, a part of the type strings.
    pub name: Span,
    /// The id of its Func or Var in the probe's BTF.
    pub btf_id: u32,
    /// The id of its type past modifiers and typedefs; none for a variable of type void.
    pub type_id: Option<u32>,
    /// Whether it may be missing.
    pub is_weak: bool,
    /// Whether it has an id or a nonzero address.
    // A rule of the project: the row is aya-obj's, and a load is given the first of the id and the address, of which an address of zero resolves nothing.
    pub is_resolved: bool,
    /// The id of its type in the kernel's BTF.
    pub kernel_btf_id: Option<u32>,
    /// Its address in the kernel.
    pub ksym_addr: Option<u64>,
}

/// A function of the probe: a stretch of instruction slots.
#[derive(Clone, Copy, Debug, PartialEq, Eq)]
pub struct Function {
    /// The section it lies in.
    pub section: u32,
    /// Its address in the section.
    pub address: u64,
    /// Where it begins in the section, in bytes, as relocations count.
    pub section_offset: u64,
    /// Its slots.
    pub slots: Span,
}

/// A place in a section that refers to a symbol.
#[derive(Clone, Copy, Debug, PartialEq, Eq)]
pub struct Relocation {
    /// The section.
    pub section: u32,
    /// The place, in bytes.
    pub offset: u64,
    /// The number of the symbol.
    pub symbol: u32,
}

/// An instruction slot of eight bytes.
// Numbers as the instruction set has them: two registers in one byte.
#[derive(Clone, Copy, Debug, PartialEq, Eq)]
pub struct Slot {
    /// What to do.
    pub code: u8,
    /// The destination register in the low four bits, the source register in the high four.
    pub regs: u8,
    /// A signed offset.
    pub off: i16,
    /// A signed immediate value.
    pub imm: i32,
}
