//! The linker's own object, which every scope ends with.

ghost use Rattle.std.specs.Prelude.{◌≡◌};
ghost use Rattle.scope_rule.specs.Linker.{linker_symbol};

/// The symbol of the linker's own object with this name (dlopen(3)).
#[tactic(auto, unfolding(crate::specs::Linker::linker_symbol))]
pub fn linker_symbol(name: &[u8]) -> Option<u32>
    ensures { result ≡ linker_symbol name.now }
{
    if name == b"dlopen".as_slice() {
        return Some(1);
    }
    if name == b"dlmopen".as_slice() {
        return Some(2);
    }
    if name == b"dlsym".as_slice() {
        return Some(3);
    }
    if name == b"dlvsym".as_slice() {
        return Some(4);
    }
    if name == b"dlclose".as_slice() {
        return Some(5);
    }
    if name == b"dlerror".as_slice() {
        return Some(6);
    }
    if name == b"__tls_get_addr".as_slice() {
        return Some(7);
    }
    None
}
