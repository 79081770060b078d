//! The laws of closings.

ghost use Rattle.std.specs.Prelude.{◌≡◌, ℕ, find, List, None, Some};
ghost use Rattle.close_mark.specs.ClosingGraph.Graphs.{all_edges, all_roots, has_closable};
ghost use Rattle.close_mark.specs.ClosingLaws.Given.{IsGraphOf};
ghost use Rattle.ld_base.specs.declared.fault.DlFault.TheVariants.{BadHandle};
ghost use Rattle.history_event.specs.declared.state.Granting.{Granting};
ghost use Rattle.history_graph.specs.Reached.{Unneeded};
ghost use Rattle.history_graph.specs.declared.graph.Edge.{Edge};
ghost use Rattle.history_state.specs.Allowed.{IsBadHandle, IsOpened};
ghost use Rattle.history_state.specs.Links.{IsUnneeded};
ghost use Rattle.history_state.specs.State.{State};
ghost use Rattle.history_state.specs.Step.{lower};
ghost use Rattle.scope_rule.specs.declared.namespace.Namespace.{Namespace};

/// What no chain of edges leads to in the graph of the lists is what nothing needs once one opening less of
/// the handle counts.
pub fn closes_exactly()
    ensures { (s : State) (handle : ℕ) (held : List Edge) (fixed : List ℕ) (granted : List Granting) (nodes set : List ℕ) → IsGraphOf s held fixed granted →
        Unneeded (all_edges s.namespaces held) (all_roots s.namespaces handle fixed granted) nodes set → IsUnneeded (lower handle s) nodes set }
{}

/// The first namespace with an opening of a handle that may be closed has one. Where there is none, the
/// handle is of no opening that may be closed.
pub fn first_is_opened()
    ensures opened { (s : State) (handle : ℕ) (ns : Namespace) → find (has_closable handle) s.namespaces ≡ Some ns → IsOpened s handle ns }
    ensures none { (s : State) (handle : ℕ) → find (has_closable handle) s.namespaces ≡ None → IsBadHandle s handle (BadHandle handle) }
{}
