//! Names that a guest passes.

ghost use Rattle.std.specs.Prelude.{◌≡◌};
ghost use Rattle.history_calls.specs.Call.{known};

/// Of a longer name 256 bytes are known.
pub(crate) const LONG_NAME: usize = 256;

/// Of a name that is too long as many bytes as show that it is.
pub(crate) fn known(name: &[u8]) -> &[u8]
    ensures { result.now ≡ known name.now }
{
    let count = LONG_NAME.min(name.len());
    &name[..count]
}
