//! What a hart's next turn is, and what it asks the linker for.

ghost use Rattle.std.specs.Prelude.{◌≡◌};
ghost use Rattle.hart_moves.specs.Copying.{first_left};

use crate::hart_parts::Purpose;
use history_event::{Dying, Function, HartEnd};
use ld_base::{GrantNo, Serial, Shown};

/// A granted slot, as its hart gets it.
#[derive(Clone, Copy, Debug, PartialEq, Eq)]
pub struct Offered {
    /// The number of the grant.
    pub number: GrantNo,
    /// The address of the slot.
    pub slot: u64,
    /// What the slot holds until it is bound.
    pub lazy: u64,
    /// What is to be put there.
    pub value: u64,
}

/// The functions that take names.
#[derive(Clone, Copy, PartialEq, Eq)]
pub enum Naming {
    Dlopen,
    Dlmopen,
    Dlsym,
    Dlvsym,
}

/// What is copied of a hart's memory, a doubleword a turn.
#[derive(Clone, Copy)]
pub enum Copying<'a> {
    /// The name that a function takes.
    Name(Naming),
    /// The version that dlvsym takes beside this name.
    Version(&'a [u8]),
    /// The module's number and the offset that `__tls_get_addr` takes.
    Pair,
    /// So many bytes that are to be written.
    Text(u64),
}

/// What a hart asks the linker for.
#[derive(Clone, Copy)]
pub enum Call<'a> {
    /// A slot is called for the first time.
    Resolve {
        /// The serial of its object.
        owner: u64,
        /// Eight times its number.
        eights: u64,
    },
    /// dlopen(3), of a name or of the program.
    Dlopen {
        /// Where the call returns to, which lies in the caller.
        caller: u64,
        name: Option<&'a [u8]>,
        flags: u64,
    },
    /// dlmopen(3).
    Dlmopen {
        namespace: u64,
        name: Option<&'a [u8]>,
        flags: u64,
    },
    /// dlsym(3).
    Dlsym {
        /// Where the call returns to, which lies in the caller.
        caller: u64,
        handle: u64,
        name: &'a [u8],
    },
    /// dlvsym(3).
    Dlvsym {
        /// Where the call returns to, which lies in the caller.
        caller: u64,
        handle: u64,
        name: &'a [u8],
        version: &'a [u8],
    },
    /// dlclose(3), of a handle.
    Dlclose(u64),
    /// dlclose(3) goes on: the destructors of these objects have run.
    Unmap(&'a Dying),
    /// dlerror(3).
    Dlerror,
    /// `__tls_get_addr`.
    Locate {
        /// The number of the module.
        number: u64,
        offset: u64,
    },
    /// write(2), of these bytes.
    Write(&'a [u8]),
    /// The hart runs no further.
    Stop(HartEnd),
}

/// What a hart's next turn is.
#[derive(Clone, Copy)]
pub enum Due<'a> {
    /// The hart has ended.
    Nothing,
    /// The exchange of a granted slot.
    Exchange(Offered),
    /// The end of an offer, whose exchange found this word.
    Finish(Offered, u64),
    /// The hart's turns are used up.
    FuelOut,
    /// An instruction.
    Instruction,
    /// One doubleword more of what begins at an address, of which these bytes are copied. [`first_left`] has
    /// where it stands.
    Copy(Copying<'a>, u64, &'a [u8]),
    /// A service.
    Serve(Call<'a>),
    /// An opening has to wait for this. While it is so nothing is asked; then the call is made again.
    Wait(Shown, Call<'a>),
    /// One doubleword more of dlerror's text.
    Store {
        /// Where the text begins.
        text: u64,
        /// How many doublewords of it stand there.
        stored: u64,
        /// This one is next.
        word: u64,
    },
    /// The next function of an object is entered.
    Enter(u64),
    /// The functions of an object have run: what for, the object, and those behind it.
    Complete(&'a Purpose, Serial, &'a [Function]),
}

/// The address of the first byte that isn't copied yet, of what begins at an address.
pub fn first_left(start: u64, bytes: &[u8]) -> u64
    ensures { result ≡ first_left start bytes.now }
{
    start.wrapping_add(bytes.len() as u64)
}
