//! The flags of an opening, RTLD_NOW and its kin (dlopen(3)).
//!
//! What is promised: each is that of the history's definition, which has the numbers.
ghost use Rattle.std.specs.Prelude.{◌≡◌};
ghost use Rattle.history_state.specs.Flags.{are_flags, is_deepbind, is_global, is_nodelete, is_noload, is_now};

/// Slots are bound when their objects are loaded.
const RTLD_NOW: u64 = 2;

/// Nothing is loaded: the object is used if it is there.
const RTLD_NOLOAD: u64 = 4;

/// New objects see their own libraries before those of the program.
const RTLD_DEEPBIND: u64 = 8;

/// Every object of the namespace sees what is opened.
const RTLD_GLOBAL: u64 = 0x100;

/// What is opened stays.
const RTLD_NODELETE: u64 = 0x1000;

/// All flags that there are; RTLD_LAZY is 1.
const ALL_FLAGS: u64 = 0x110f;

/// Whether the flags have RTLD_NOW.
pub fn is_now(flags: u64) -> bool
    ensures { result ≡ is_now flags }
{
    flags & RTLD_NOW != 0
}

/// Whether the flags have RTLD_NOLOAD.
pub fn is_noload(flags: u64) -> bool
    ensures { result ≡ is_noload flags }
{
    flags & RTLD_NOLOAD != 0
}

/// Whether the flags have RTLD_DEEPBIND.
pub fn is_deepbind(flags: u64) -> bool
    ensures { result ≡ is_deepbind flags }
{
    flags & RTLD_DEEPBIND != 0
}

/// Whether the flags have RTLD_GLOBAL.
pub fn is_global(flags: u64) -> bool
    ensures { result ≡ is_global flags }
{
    flags & RTLD_GLOBAL != 0
}

/// Whether the flags have RTLD_NODELETE.
pub fn is_nodelete(flags: u64) -> bool
    ensures { result ≡ is_nodelete flags }
{
    flags & RTLD_NODELETE != 0
}

/// Whether they are flags: exactly one of RTLD_LAZY and RTLD_NOW, with any of the others.
pub fn are_flags(flags: u64) -> bool
    ensures { result ≡ are_flags flags }
{
    let binding = flags & 3;
    flags & ALL_FLAGS == flags && (binding == 1 || binding == 2)
}
