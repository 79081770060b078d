//! What holds of every load.

ghost use Rattle.std.specs.Prelude.{◌≡◌, ◌≤◌, ◌++◌, ℕ, Bool, List, [], Some, None, Err, length, map};
ghost use Rattle.std.specs.List.{range_with_len, slice_get, AllByRecursion};
ghost use Rattle.ld_base.specs.declared.fault.DlFault.TheVariants.{MissingLibrary};
ghost use Rattle.ld_base.specs.declared.fault.Shown.{Shown};
ghost use Rattle.ld_base.specs.declared.linking.Loaded.{Loaded};
ghost use Rattle.scope_rule.specs.declared.arrival.Arrival.{Arrival};
ghost use Rattle.scope_rule.specs.Breadth.{breadth};
ghost use Rattle.scope_rule.specs.Finding.{absent};
ghost use Rattle.scope_rule.specs.Load.{Load, Walk, Stop, Brings, Stops, IsRoot, finds, present, take_found, paths_of, records_of, refuses, stops, use_of};
ghost use Rattle.scope_rule.specs.Load.{waits};
ghost use Rattle.scope_rule.specs.Loads.{Closed, IsFound, IsMissing, IsRead, ReadsNothing, Stands, WaitsForOne, alone, named_there, new_of};
ghost use Rattle.scope_rule.specs.Seen.{Seen, with_added};

/// A load comes to one walk, or stops for one reason.
pub fn one_outcome()
    ensures one_walk { (load : Load) (first second : Walk) → Brings load first → Brings load second → first ≡ second }
    ensures one_stop { (load : Load) (first second : Stop) → Stops load first → Stops load second → first ≡ second }
    ensures not_both { (load : Load) (w : Walk) (why : Stop) → Brings load w → Stops load why → ⊥ }
{}

/// Each name finds what the rules find for it among the objects that were there and the new ones of
/// the names before it.
#[tactic(auto, using(crate::proofs::Walks::each_is_found))]
pub fn names_find()
    ensures { (load : Load) (w : Walk) → Brings load w → (place serial : ℕ) → slice_get w.found place ≡ Some serial → IsFound load w place serial }
{}

/// The serials of the new objects follow one another, from the one that is asked for on.
#[tactic(auto, using(crate::proofs::Records::records_numbered))]
pub fn serials_follow()
    ensures { (load : Load) (deep : Bool) (w : Walk) → map (λ o. o.serial) (records_of load deep w) ≡ range_with_len load.next (length w.arrivals) }
{}

/// Where nothing is there before, the root is the first new object.
pub fn root_is_new()
    ensures { (load : Load) (w : Walk) (root : ℕ) → load.there ≡ [] → Brings load w → IsRoot w root → root ≡ load.next }
{}

/// The new objects come breadth-first from the root: they are what the root leads to, in that
/// order, those left out that were there before.
#[tactic(auto, using(crate::proofs::Ordered::news_breadth_first))]
pub fn loads_breadth_first()
    ensures { (load : Load) (deep : Bool) (w : Walk) (ns : Seen) (root : ℕ) →
        Brings load w → IsRoot w root → ns.objects ≡ load.there → Closed load.next load.there → 1 ≤ load.next →
        map (λ o. o.serial) (records_of load deep w) ≡ new_of load.next (breadth (with_added ns (records_of load deep w)) root) }
{}

/// What a name found is there once the load is done: no other hart starts or closes it, and the
/// load's own hart doesn't close it.
pub fn found_stands()
    ensures names { (load : Load) (deep : Bool) (w : Walk) → Brings load w → AllByRecursion (Stands load (load.there ++ records_of load deep w)) w.found }
    ensures founds { (load : Load) (deep : Bool) (w : Walk) → Brings load w →
        AllByRecursion (λ o. AllByRecursion (Stands load (load.there ++ records_of load deep w)) o.found) (records_of load deep w) }
{}

/// Each new object was read at the first path at which there is a file, of those that a name which
/// was asked for may have; and no two were read at one path.
pub fn reads_candidates()
    ensures candidates { (load : Load) (w : Walk) → Brings load w → AllByRecursion (IsRead load w.arrivals) w.arrivals }
    ensures once { (load : Load) (w : Walk) → Brings load w → (i j : ℕ) (a b : Arrival) →
        slice_get w.arrivals i ≡ Some a → slice_get w.arrivals j ≡ Some b → a.path ≡ b.path → i ≡ j }
{}

/// Where nothing is to be read, as under RTLD_NOLOAD, there are no new objects.
pub fn reads_nothing()
    ensures { (load : Load) (w : Walk) → ReadsNothing load → Brings load w → w.arrivals ≡ [] }
{}

/// Where nothing is to be read, the object that is there for the load's name is all that it comes to:
/// its root where the load's hart may use it, and else why it may not; the library is missing where
/// there is none.
#[tactic(auto, using(crate::proofs::Walks::brings_alone, crate::proofs::Walks::stops_at_once, crate::proofs::Walks::is_missing))]
pub fn finds_loaded()
    ensures brings { (load : Load) (o : Loaded) (root : ℕ) →
        ReadsNothing load → named_there load ≡ Some o → use_of load.hart o ≡ present root → Brings load (alone root) }
    ensures stops { (load : Load) (o : Loaded) (why : Stop) →
        ReadsNothing load → named_there load ≡ Some o → use_of load.hart o ≡ stops why → Stops load why }
    ensures missing { (load : Load) → ReadsNothing load → named_there load ≡ None → Stops load (refuses (MissingLibrary load.name)) }
{}

/// A load stops for a missing library only where no path that its name may have has a file: the
/// load, and the name by itself.
#[tactic(auto, using(crate::proofs::Walks::stops_missing, crate::proofs::Walks::name_missing))]
pub fn missing_library()
    ensures load { (load : Load) (name : List ℕ) → Stops load (refuses (MissingLibrary name)) → IsMissing load name }
    ensures name { (load : Load) (w : Walk) (name other : List ℕ) →
        take_found load w name (finds load (length w.found) w.arrivals name) ≡ Err (refuses (MissingLibrary other)) →
        (other ≡ name) × AllByRecursion (λ path. load.reading path ≡ absent) (paths_of load (length w.found) name) }
{}

/// A load only waits for an object that was there before it, which another hart starts or closes.
#[tactic(auto, using(crate::proofs::Walks::stops_waiting))]
pub fn waits_for_one()
    ensures { (load : Load) (shown : Shown) → Stops load (waits shown) → WaitsForOne load shown }
{}

/// Where nothing is there before, as at the load of a program, there is nothing to wait for.
pub fn never_waits()
    ensures { (load : Load) (shown : Shown) → load.there ≡ [] → Stops load (waits shown) → ⊥ }
{}
