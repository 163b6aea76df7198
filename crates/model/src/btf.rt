// The rows of an object's BTF.

use crate::rows::Span;

/// The kind of a type row, numbered from 0 as in the kernel's BTF documentation.
#[derive(Clone, Copy, Debug, PartialEq, Eq)]
pub enum BtfKind {
    Unknown,
    Int,
    Ptr,
    Array,
    Struct,
    Union,
    Enum,
    Fwd,
    Typedef,
    Volatile,
    Const,
    Restrict,
    Func,
    FuncProto,
    Var,
    DataSec,
    Float,
    DeclTag,
    TypeTag,
    Enum64,
}

/// A type; row 0 has kind 0 and stands for void.
// Numbers as the kernel's format has them: bits packed in one, a size or an id in another.
#[derive(Clone, Copy, Debug, PartialEq, Eq)]
pub struct BtfType {
    /// The kind.
    pub kind: BtfKind,
    /// The offset of the name in the type strings.
    pub name_offset: u32,
    /// The kind, the number of parts and a flag, in bits.
    pub info: u32,
    /// The size, or the id of another type, as the kind has it.
    pub size_or_type: u32,
    /// An Int's encoding, offset and bits; a Var's linkage.
    pub data: u32,
    /// The section entries of a DataSec, or the parameters of a FuncProto.
    pub parts: Span,
}

/// An entry of a DataSec: where a variable stands in its section.
#[derive(Clone, Copy, Debug, PartialEq, Eq)]
pub struct DataSecEntry {
    /// The id of a Var or a Func.
    pub btf_type: u32,
    /// Its offset in the section.
    pub offset: u32,
    /// Its size.
    pub size: u32,
}

/// A parameter of a FuncProto.
// Numbers as the kernel's format has them, in which 0 stands for none.
#[derive(Clone, Copy, Debug, PartialEq, Eq)]
pub struct BtfParam {
    /// The offset of the name in the type strings, 0 for none.
    pub name_offset: u32,
    /// The id of its type, 0 for none.
    pub btf_type: u32,
}

/// The numbers of a BTF's header that change with its tables.
#[derive(Clone, Copy, Debug, PartialEq, Eq)]
pub struct BtfHeader {
    /// The length of the type section in bytes.
    pub type_len: u32,
    /// Where the strings begin, counted from the end of the header.
    pub str_off: u32,
    /// The length of the strings in bytes.
    pub str_len: u32,
}

/// Why a chain of types has no end.
#[derive(Clone, Copy, Debug, PartialEq, Eq)]
pub enum ChainError {
    /// An id on it is not a row.
    UnknownBtfType,
    /// 32 rows all pass on to another.
    MaximumTypeDepthReached,
}
