//! Why something is refused.

ghost use Rattle.std.specs.Prelude.{◌≡◌};
ghost use Rattle.ld_base.specs.declared.fault.ReadFault.TheVariants.{Memory};

use crate::{GrantNo, Name, Serial};
use std::alloc::{AllocError, AllocFailed};
use thiserror::Error;

/// The rule of acceptance that a file breaks, with the rule's number for it.
#[derive(Clone, Copy, Debug, PartialEq, Eq, Error)]
#[error("not accepted: rule {rule}, number {number}")]
pub struct NotAccepted {
    pub rule: u8,
    pub number: u64,
}

/// Why a file isn't read as an object.
#[derive(Debug, Drop, Error)]
pub enum ReadFault {
    #[error("{0}")]
    NotAccepted(NotAccepted),
    #[error("out of memory")]
    Memory,
}

impl From<AllocError> for ReadFault {
    ghost from_gives = { λ _ fault. fault ≡ Memory };

    fn from(_error: AllocError) -> Self {
        ReadFault::Memory
    }
}

impl<T: Drop> From<AllocFailed<T>> for ReadFault {
    ghost from_gives = { λ _ fault. fault ≡ Memory };

    fn from(_error: AllocFailed<T>) -> Self {
        ReadFault::Memory
    }
}

/// Why an opening, a look-up or a closing is refused.
#[derive(Debug, Drop)]
pub enum DlFault {
    /// No object and no file was found for the name.
    MissingLibrary(Name),
    /// The file at the path couldn't be read.
    ReadFault(Name),
    /// The file at the path breaks a rule of acceptance.
    NotAccepted(Name, NotAccepted),
    /// The object needs of the file a version that isn't defined there.
    MissingVersion(Name, Name, Name),
    /// No definition of the name and version; the object where there is one.
    MissingSymbol(Option<Name>, Name, Option<Name>),
    /// A slot of the object, or a start of a hart, that doesn't lead to code.
    NotCode(Name, Name),
    /// A late object that a thread's static block would need.
    NeedsStaticTls(Name),
    /// No gap of so many pages.
    AddressSpaceFull(u64),
    NamespacesFull,
    BadHandle(u64),
    BadFlags(u64),
    /// The object is being closed by the hart that asks for it.
    ClosingHere(Name),
    NameTooLong,
    BadNamespace(u64),
}

/// What a hart met that has to try again.
#[derive(Clone, Copy, Debug, PartialEq, Eq)]
pub enum Shown {
    /// The control words that were found, in order.
    Locked(u64, u64),
    Initialising(Serial),
    Closing(Serial),
    OpenGrant(GrantNo),
}

/// Why a line of an assembler source is refused.
#[derive(Clone, Copy, Debug)]
pub enum AsmCause {
    /// It is no line of the grammar.
    BadStatement,
    /// No directive and no instruction is named so.
    UnknownWord,
    /// An operand hasn't the form that is asked for.
    BadOperand,
    /// A number or a distance doesn't fit.
    OutOfRange,
    /// The label is defined before.
    DoubleLabel,
    /// A label or a version isn't defined.
    UnknownLabel,
    /// The statement may not stand in its section.
    WrongSection,
    /// The source or the object is too long.
    TooBig,
}
