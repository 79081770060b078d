//! Where the records of a version table stand, and the names that they have.

ghost use Rattle.std.specs.Prelude.{◌≡◌, ◌+◌, ◌≤◌, ◌<◌, ◌^◌, Ok, IfOk, length};
ghost use Rattle.std.specs.Result.{result_map_both};
ghost use Rattle.elf_head.specs.AcceptancePart.Gives.{Gives};
ghost use Rattle.elf_head.specs.Rules.{head_verdict};
ghost use Rattle.ld_base.specs.declared.fault.ReadFault.TheVariants as faults;
ghost use Rattle.elf_head.specs.DynTable.Name.{string_in};
ghost use Rattle.elf_versions.specs.Record.{bad_table, named, record_at};

use elf_head::{file_bytes, string_at};
use ld_base::{Head, NotAccepted, ReadFault};
use std::marker::Model;

/// The most records of one kind: there are no more version indexes.
pub(crate) const MAX_RECORDS: u64 = 0x8000;

/// What the records of one version table are read from.
#[derive(Drop)]
pub(crate) struct Records<'a> {
    bytes: &'a [u8],
    head: &'a Head,
    strings: &'a [u8],
    tag: u64,
}

impl<'a> Model for Records<'a> {
    ghost use Rattle.std.specs.Prelude.{◌≡◌, Ok};
    ghost use Rattle.elf_head.specs.Rules.{head_verdict};
    ghost use Rattle.elf_versions.specs.Source.{Source};

    ghost Value = { Source };

    ghost view = { λ r. record {
      bytes = r.bytes.now;
      headers = r.head.now.headers;
      strings = r.strings.now;
      tag = r.tag;
    } };

    ghost invariant = { λ r. head_verdict r.bytes.now ≡ Ok r.head.now };
}

impl<'a> Records<'a> {
    /// The records of the table that a tag names, with names from these strings.
    pub(crate) fn new(bytes: &'a [u8], head: &'a Head, strings: &'a [u8], tag: u64) -> Self
        requires { head_verdict bytes.now ≡ Ok head.now }
        ensures { result ≡ record { bytes = bytes.now; headers = head.now.headers; strings = strings.now; tag = tag } }
    {
        Records {
            bytes,
            head,
            strings,
            tag,
        }
    }

    /// The fault of a table that isn't well formed.
    pub(crate) fn fault(&self) -> ReadFault
        ensures { result ≡ faults.NotAccepted (bad_table self.now.tag) }
    {
        ReadFault::NotAccepted(NotAccepted {
            rule: 17,
            number: self.tag,
        })
    }

    /// The bytes of the record of this size at an address.
    #[tactic(auto, unfolding(crate::specs::Record::record_at))]
    pub(crate) fn bytes_at(&self, at: u64, size: u64) -> Result<&'a [u8], ReadFault>
        ensures read { Gives (result_map_both (λ part. part.now) (λ fault. fault) result) (record_at self.now size at) }
        ensures size { IfOk result (λ part. length part.now ≡ size) }
        ensures low { 0 < size → IfOk result (λ part. at + size ≤ 2 ^ 32) }
    {
        match file_bytes(self.bytes, self.head, at, size) {
            Some(part) => Ok(part),
            None => Err(self.fault()),
        }
    }

    /// The offset of a name, where a string of the string table stands.
    #[tactic(auto, unfolding(crate::specs::Record::named))]
    pub(crate) fn named(&self, offset: u32) -> Result<u32, ReadFault>
        ensures { Gives (result_map_both (λ at. string_in self.now.strings at) (λ fault. fault) result) (named self.now offset) }
    {
        match string_at(self.strings, offset.into()) {
            Some(_) => Ok(offset),
            None => Err(self.fault()),
        }
    }
}
