//! What an opening makes of a namespace.

ghost use Rattle.std.specs.Prelude.{◌≡◌, ◌==◌, ◌++◌, ◌∷◌, [], IfOk, OnOk, map};
ghost use Rattle.std.specs.List.{list_any};
ghost use Rattle.scope_rule.specs.Breadth.{breadth, extend};
ghost use Rattle.scope_rule.specs.Opening.{global_after, opens_after, raised};
ghost use Rattle.scope_rule.specs.Seen.{seen};

use crate::breadth_first::{breadth, extend};
use crate::namespace::{Namespace, OpenRec, Opens};
use crate::view::View;
use indexmap::IndexSet;
use ld_base::{Added, Serial, Serials};
use std::alloc::{AllocError, Global};

/// So few serials are looked for in a list one by one: that is quicker than a set of what the list has.
const FEW: usize = 8;

/// The global objects and the openings of a namespace, as an opening leaves them.
#[derive(Drop)]
pub struct OpenedLists {
    pub global: Serials,
    pub opens: Opens,
}

impl OpenedLists {
    ghost use Rattle.std.specs.Prelude.{◌≡◌};
    ghost use Rattle.scope_rule.specs.Seen.{seen};

    /// What is seen of the namespace after the opening.
    pub fn view<'a>(&'a self, before: &View<'a>) -> View<'a>
        ensures { seen result ≡ record (seen before.now) { global = self.now.global; opens = self.now.opens } }
    {
        View {
            objects: before.objects,
            added: before.added,
            global: self.global.as_slice(),
            opens: self.opens.as_slice(),
        }
    }
}

/// What an opening makes of the lists of a namespace; the view has its new objects (dlopen(3)).
///
/// # Errors
///
/// Want of memory.
pub fn opened_lists(
    alloc: Global,
    view: &View,
    root: Serial,
    is_global: bool,
) -> Result<OpenedLists, AllocError>
    ensures global { IfOk result (λ o. o.global ≡ global_after (seen view.now) root is_global) }
    ensures opens { IfOk result (λ o. o.opens ≡ opens_after root (seen view.now).opens) }
{
    Ok(OpenedLists {
        global: global_after(alloc, view, root, is_global)?,
        opens: opens_after(alloc, root, view.opens)?,
    })
}

/// Puts a serial at the end if the list lacks it; the linker's own is left out.
fn push_lacking(list: &mut Serials, serial: Serial) -> Result<(), AllocError>
    ensures { OnOk result (list.new ≡ extend list.old (serial ∷ [])) }
{
    if serial != Serial::LINKER && !list.as_slice().contains(&serial) {
        list.push(serial)?;
    }
    Ok(())
}

/// Puts those serials at the end that a list lacks, each of which is looked for in it.
fn extend_by_each(list: &mut Serials, serials: &[Serial]) -> Result<(), AllocError>
    ensures { OnOk result (list.new ≡ extend list.old serials.now) }
{
    for serial in serials {
        push_lacking(list, *serial)?;
    }
    Ok(())
}

/// Puts those serials at the end that a list lacks; the linker's own is left out.
///
/// # Errors
///
/// Want of memory.
#[tactic(auto, using(crate::specs::Lemmas::Orders::extended_length))]
pub fn extend_list(alloc: Global, list: &mut Serials, serials: &[Serial]) -> Result<(), AllocError>
    ensures { OnOk result (list.new ≡ extend list.old serials.now) }
{
    if serials.len() <= FEW {
        return extend_by_each(list, serials);
    }
    let mut known = IndexSet::new(alloc);
    extend(&mut known, list.as_slice())?;
    let count = known.len();
    extend(&mut known, serials)?;
    list.extend_from_slice(&known.as_slice()[count..])
}

/// Puts what a root leads to at the end of a list that lacks it.
fn extend_by_breadth(
    alloc: Global,
    view: &View,
    root: Serial,
    list: &mut Serials,
) -> Result<(), AllocError>
    ensures { OnOk result (list.new ≡ extend list.old (breadth (seen view.now) root)) }
{
    let libraries = breadth(alloc, view, root)?;
    extend_list(alloc, list, libraries.as_slice())
}

/// The global objects after an opening.
fn global_after(
    alloc: Global,
    view: &View,
    root: Serial,
    is_global: bool,
) -> Result<Serials, AllocError>
    ensures { IfOk result (λ serials. serials ≡ global_after (seen view.now) root is_global) }
{
    let mut global = Serials::from_slice(alloc, view.global)?;
    if !is_global {
        return Ok(global);
    }
    extend_by_breadth(alloc, view, root, &mut global)?;
    Ok(global)
}

/// An opening that counts one more where it is of this root.
fn raised(root: Serial, opening: OpenRec) -> Result<OpenRec, AllocError>
    ensures { IfOk result (λ r. r ≡ raised root opening) }
{
    if opening.root != root {
        return Ok(opening);
    }
    let count = opening.count.checked_add(1).ok_or(AllocError)?;
    Ok(OpenRec { root, count })
}

/// The openings, of which those of a root count one more.
fn all_raised(alloc: Global, root: Serial, opens: &[OpenRec]) -> Result<Opens, AllocError>
    ensures { IfOk result (λ all. all ≡ map (raised root) opens.now) }
{
    let mut all = Opens::new(alloc);
    for open in opens {
        all.push(raised(root, *open)?)?;
    }
    Ok(all)
}

/// Whether a root was opened.
fn is_open(root: Serial, opens: &[OpenRec]) -> bool
    ensures { result ≡ list_any (λ r. r.root == root) opens.now }
{
    opens.iter().any(|open| open.root == root)
}

/// The openings after one more.
fn opens_after(alloc: Global, root: Serial, opens: &[OpenRec]) -> Result<Opens, AllocError>
    ensures { IfOk result (λ all. all ≡ opens_after root opens.now) }
{
    if is_open(root, opens) {
        return all_raised(alloc, root, opens);
    }
    let mut all = Opens::from_slice(alloc, opens)?;
    all.push(OpenRec { root, count: 1 })?;
    Ok(all)
}

/// Objects, and others behind them.
fn joined(objects: Added, more: Added) -> Result<Added, AllocError>
    ensures { IfOk result (λ all. all ≡ objects ++ more) }
{
    let mut all = objects.into_vec();
    all.append(&mut more.into_vec())?;
    Ok(Added::from(all))
}

impl Namespace {
    ghost use Rattle.std.specs.Prelude.{◌≡◌, ◌++◌, IfOk};
    ghost use Rattle.scope_rule.specs.Opening.{opened};

    /// Its objects alone.
    fn into_objects(self) -> Added
        ensures { result ≡ self.objects }
    {
        self.objects
    }

    /// The namespace with new objects, and with these lists in place of its own.
    fn with(self, added: Added, lists: OpenedLists) -> Result<Namespace, AllocError>
        ensures { IfOk result (λ ns. ns ≡ record self { objects = self.objects ++ added; global = lists.global; opens = lists.opens }) }
    {
        let id = self.id;
        Ok(Namespace {
            id,
            objects: joined(self.into_objects(), added)?,
            global: lists.global,
            opens: lists.opens,
        })
    }

    /// The namespace after an opening that brought these objects.
    ///
    /// # Errors
    ///
    /// Want of memory. The namespace is given up then.
    pub fn opened(
        self,
        alloc: Global,
        added: Added,
        root: Serial,
        is_global: bool,
    ) -> Result<Namespace, AllocError>
        ensures { IfOk result (λ ns. ns ≡ opened self added root is_global) }
    {
        let lists = opened_lists(alloc, &self.view_with(added.as_slice()), root, is_global)?;
        self.with(added, lists)
    }
}
