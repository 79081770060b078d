//! Images of new objects, over the namespace as the opening leaves it.

ghost use Rattle.std.specs.Prelude.{IfOk};
ghost use Rattle.link_holds.specs.OpeningBrings.Brought.{seen_over, seen_with};
ghost use Rattle.link_open_images.specs.Relocated.{AreChoices, AreRelocated, MayRelocateAll};

use crate::opening_brings::bringing::Planned;
use history_event::Choices;
use link_lists::is_global;
use link_open_images::images_of;
use link_spaces::{empty_namespace, namespace_in};
use relocator::TlsPlaces;
use scope_rule::{Namespace, opened_lists};
use seg_image::Images;
use std::alloc::{AllocError, Global};

/// The images of new objects, relocated by what is seen in their namespace as the opening leaves it.
///
/// # Errors
///
/// Want of memory.
pub fn images_in(
    alloc: Global,
    namespaces: &[Namespace],
    planned: &Planned,
    now: bool,
    choices: &[Choices],
    places: &TlsPlaces,
) -> Result<Images, AllocError>
    requires choices { AreChoices (seen_with namespaces.now planned.now) now planned.now.added.now choices.now }
    requires may { MayRelocateAll (seen_with namespaces.now planned.now) now places.now planned.now.added.now }
    ensures { IfOk result (AreRelocated (seen_with namespaces.now planned.now) now places.now planned.now.added.now) }
{
    match namespace_in(namespaces, planned.ns) {
        Some(namespace) => images_over(alloc, namespace, planned, now, choices, places),
        None => images_over(
            alloc,
            &empty_namespace(alloc, planned.ns),
            planned,
            now,
            choices,
            places,
        ),
    }
}

/// The same over the namespace.
fn images_over(
    alloc: Global,
    namespace: &Namespace,
    planned: &Planned,
    now: bool,
    choices: &[Choices],
    places: &TlsPlaces,
) -> Result<Images, AllocError>
    requires choices { AreChoices (seen_over namespace.now planned.now) now planned.now.added.now choices.now }
    requires may { MayRelocateAll (seen_over namespace.now planned.now) now places.now planned.now.added.now }
    ensures { IfOk result (AreRelocated (seen_over namespace.now planned.now) now places.now planned.now.added.now) }
{
    let before = namespace.view_with(planned.added);
    let lists = opened_lists(alloc, &before, planned.root, is_global(planned.ask.flags))?;
    images_of(
        alloc,
        &lists.view(&before),
        now,
        planned.added,
        choices,
        places,
    )
}
