//! Taking objects out.

ghost use Rattle.std.specs.Prelude.{◌≡◌, ◌+◌, ◌≤◌, ◌++◌, count_by, filter, map, not, IfOk};
ghost use Rattle.std.specs.List.{flat_map};
ghost use Rattle.std.specs.Vec.{vec_capacity, vec_len};
ghost use Rattle.history_state.specs.Objects.{has};
ghost use Rattle.history_state.specs.Step.{gone_in, is_left};
ghost use Rattle.close_mark.specs.UnmappedObjects.Taken.{goes};

use history_graph::SerialSet;
use ld_base::{Added, Loaded, Serial};
use scope_rule::Namespace;
use std::alloc::{AllocError, Global};
use std::collections::VecDeque;
use std::mem;

/// How many mapped objects are of a set.
///
/// # Errors
///
/// Want of memory, where they are too many to count.
pub fn count_in(namespaces: &[Namespace], set: &[Serial]) -> Result<usize, AllocError>
    ensures { IfOk result (λ n. n ≡ count_by (goes set.now) (flat_map (λ ns. ns.objects) namespaces.now)) }
{
    let set = SerialSet::new(set);
    let mut count: usize = 0;
    for namespace in namespaces {
        let more = count_among(namespace.objects.as_slice(), &set);
        let Some(sum) = count.checked_add(more) else {
            return Err(AllocError);
        };
        count = sum;
    }
    Ok(count)
}

/// How many of some objects are of a set.
fn count_among(objects: &[Loaded], set: &SerialSet) -> usize
    ensures { result ≡ count_by (goes set.now) objects.now }
{
    objects
        .iter()
        .filter(|object| set.has(object.serial))
        .count()
}

/// Takes the objects of a set out of their namespaces, and puts them behind others, for which there is room.
/// A namespace but the base ends with its last object.
pub fn take_out(
    alloc: Global,
    namespaces: &mut Vec<Namespace>,
    set: &[Serial],
    gone: &mut Vec<Loaded>,
)
    requires { vec_len gone.old + count_by (goes set.now) (flat_map (λ ns. ns.objects) namespaces.old.items) ≤ vec_capacity gone.old }
    ensures namespaces { namespaces.new.items ≡ filter is_left (map (gone_in set.now) namespaces.old.items) }
    ensures gone { gone.new.items ≡ gone.old.items ++ filter (goes set.now) (flat_map (λ ns. ns.objects) namespaces.old.items) }
{
    let set = SerialSet::new(set);
    take_all(alloc, namespaces.as_mut_slice(), &set, gone);
    namespaces.retain(|namespace| is_left(namespace));
}

/// Whether a namespace is the base or has an object.
fn is_left(namespace: &Namespace) -> bool
    ensures { result ≡ is_left namespace.now }
{
    namespace.id.number() == 0 || namespace.objects.as_slice().len() != 0
}

/// Takes the objects out of each namespace.
fn take_all(alloc: Global, namespaces: &mut [Namespace], set: &SerialSet, gone: &mut Vec<Loaded>)
    requires { vec_len gone.old + count_by (goes set.now) (flat_map (λ ns. ns.objects) namespaces.old) ≤ vec_capacity gone.old }
    ensures namespaces { namespaces.new ≡ map (gone_in set.now) namespaces.old }
    ensures gone { gone.new.items ≡ gone.old.items ++ filter (goes set.now) (flat_map (λ ns. ns.objects) namespaces.old) }
{
    for namespace in namespaces.iter_mut() {
        take_from(alloc, namespace, set, gone);
    }
}

/// Takes the objects out of one namespace.
fn take_from(alloc: Global, namespace: &mut Namespace, set: &SerialSet, gone: &mut Vec<Loaded>)
    requires { vec_len gone.old + count_by (goes set.now) namespace.old.objects ≤ vec_capacity gone.old }
    ensures namespace { namespace.new ≡ gone_in set.now namespace.old }
    ensures gone { gone.new.items ≡ gone.old.items ++ filter (goes set.now) namespace.old.objects }
    ensures len { vec_len gone.new ≡ vec_len gone.old + count_by (goes set.now) namespace.old.objects }
    ensures capacity { vec_capacity gone.new ≡ vec_capacity gone.old }
{
    let objects = mem::replace(&mut namespace.objects, Added::new(alloc)).into_vec();
    namespace.objects = Added::from(part(objects, set, gone));
}

/// Parts objects: those of the set go behind others, and the rest stay. Each is taken from the front of a queue
/// once, and one that stays goes to its back.
fn part(objects: Vec<Loaded>, set: &SerialSet, gone: &mut Vec<Loaded>) -> Vec<Loaded>
    requires { vec_len gone.old + count_by (goes set.now) objects.items ≤ vec_capacity gone.old }
    ensures stay { result.items ≡ filter (λ o. not (has set.now o.serial)) objects.items }
    ensures gone { gone.new.items ≡ gone.old.items ++ filter (goes set.now) objects.items }
    ensures len { vec_len gone.new ≡ vec_len gone.old + count_by (goes set.now) objects.items }
    ensures capacity { vec_capacity gone.new ≡ vec_capacity gone.old }
{
    let count = objects.len();
    let mut queue = VecDeque::from_vec(objects);
    for _ in 0..count {
        let object = queue.pop_front().unwrap();
        if set.has(object.serial) {
            gone.push_reserved(object);
        } else {
            queue.push_back_reserved(object);
        }
    }
    queue.into_vec()
}
