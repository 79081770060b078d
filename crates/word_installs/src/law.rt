//! What the keeper may put into memory and take away by an event, and what its view is then.

ghost use Rattle.word_installs.specs.Remaking.{InstalledIsRemade, InstalledIsView, InstallsMayCome, RangesMayGo, UnmappedIsRemade, UnmappedIsView};
ghost use Rattle.word_installs.specs.Starting.{StartupKept, StartupMayCome};

/// What an event reserves may be installed, and remakes the keeper's view by the event.
pub fn installs_remake()
    ensures may { InstallsMayCome }
    ensures remade { InstalledIsRemade }
    ensures view { InstalledIsView }
{
    scope_rule::serials_follow();
    scope_rule::found_stands();
    scope_rule::reads_candidates();
    seg_image::pages_hold_segments();
    history_state::memory_changes();
    history_state::slots_begin();
    history_state::slots_lead_to_rx();
    history_state::images_are_mapped();
    history_state::none_is_lazy();
    history_state::areas_are_data();
    history_state::serials_are_in_order();
    history_memory::code_is_whole();
    history_memory::slots_stand();
}

/// What an event takes away may be unmapped, and remakes the keeper's view by the event.
pub fn unmappings_remake()
    ensures may { RangesMayGo }
    ensures remade { UnmappedIsRemade }
    ensures view { UnmappedIsView }
{
    scope_rule::serials_follow();
    scope_rule::found_stands();
    scope_rule::reads_candidates();
    seg_image::pages_hold_segments();
    history_state::memory_changes();
    history_state::slots_begin();
    history_state::slots_lead_to_rx();
    history_state::images_are_mapped();
    history_state::none_is_lazy();
    history_state::areas_are_data();
    history_memory::code_is_whole();
    history_memory::slots_stand();
    kept_words::remade_is_kept();
}

/// What startup loaded may be installed, and the keeper's record is as it has to be then.
pub fn startup_is_kept()
    ensures may { StartupMayCome }
    ensures kept { StartupKept }
{
    installs_remake();
    kept_words::remade_stays();
    kept_words::states_stay();
}
