//! The types that every crate of the linker shares, the readers of little-endian fields, and the
//! rule by which a reference finds a definition within one object.
#![tactic(auto)]

mod carriers;
mod fault;
mod field;
mod law;
mod linking;
mod matching;
mod name;
mod number;
mod object;
mod parts;
mod sequence;
mod shared_list;
mod symbols;
mod text;

/// Bytes that no longer change: those that an owner sees may be a part of what others see, in one memory, which is
/// freed with the last of them.
pub use bytes::Bytes as SharedBytes;
pub use carriers::Carriers;
pub use fault::{AsmCause, DlFault, NotAccepted, ReadFault, Shown};
pub use field::{field16, field32, field64};
pub use law::one_pick;
pub use linking::{Added, Calls, Choice, File, Files, Loaded, Role, State, TlsPlace, Want};
pub use matching::pick;
pub use name::Name;
pub use number::{GrantNo, HartId, NsId, Serial};
pub use object::{
    Kind, ObjFlags, Object, Places, Reloc, Relocs, Segment, Segments, Span, Symbol, TlsSeg, Verdef,
    Verdefs, Verneed, Verneeds,
};
pub use parts::{
    DynParts, GnuPart, HashTable, Head, Header, Headers, Ints, Longs, Shorts, SysvPart, Tag, Tags,
    Versions,
};
pub use sequence::{Bytes, Names, Sequence, Serials};
pub use shared_list::SharedList;
pub use symbols::{SharedSymbols, Symbols};
