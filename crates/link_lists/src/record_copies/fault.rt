//! Copies of refusals.

use crate::record_copies::Copied;
use ld_base::DlFault;
use std::alloc::{AllocError, Global};

impl Copied for DlFault {
    fn copy(&self, alloc: Global) -> Result<Self, AllocError> {
        Ok(match self {
            DlFault::MissingLibrary(name) => DlFault::MissingLibrary(name.copy(alloc)?),
            DlFault::ReadFault(path) => DlFault::ReadFault(path.copy(alloc)?),
            DlFault::NotAccepted(path, rule) => DlFault::NotAccepted(path.copy(alloc)?, *rule),
            DlFault::MissingVersion(object, file, version) => {
                let (object, file) = (object.copy(alloc)?, file.copy(alloc)?);
                DlFault::MissingVersion(object, file, version.copy(alloc)?)
            }
            DlFault::MissingSymbol(object, name, version) => {
                let (object, name) = (object.copy(alloc)?, name.copy(alloc)?);
                DlFault::MissingSymbol(object, name, version.copy(alloc)?)
            }
            DlFault::NotCode(object, name) => {
                let object = object.copy(alloc)?;
                DlFault::NotCode(object, name.copy(alloc)?)
            }
            DlFault::NeedsStaticTls(object) => DlFault::NeedsStaticTls(object.copy(alloc)?),
            DlFault::AddressSpaceFull(pages) => DlFault::AddressSpaceFull(*pages),
            DlFault::NamespacesFull => DlFault::NamespacesFull,
            DlFault::BadHandle(handle) => DlFault::BadHandle(*handle),
            DlFault::BadFlags(flags) => DlFault::BadFlags(*flags),
            DlFault::ClosingHere(path) => DlFault::ClosingHere(path.copy(alloc)?),
            DlFault::NameTooLong => DlFault::NameTooLong,
            DlFault::BadNamespace(number) => DlFault::BadNamespace(*number),
        })
    }
}
