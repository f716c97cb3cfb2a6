//! What somebody may rely on who watches the wire: the laws of what is seen of a session, said of the
//! frames that the manager takes and of what it does.
#![tactic(auto)]

mod laws;
mod worked;

pub use laws::{
    all_acts_are_seen, all_events_are_seen, completed_saves_stand, discarded_states_are_not_named,
    entries_were_saved, every_file_is_safe, every_run_keeps_the_laws,
    files_forget_discarded_states, files_keep_other_sessions, files_keep_up_with_new_ids,
    files_keep_what_was_saved, later_runs_give_other_ids, lines_begin_again, new_ids_are_fresh,
    new_ids_are_of_the_run, new_ids_differ, notes_of_others_stay, old_ids_are_recorded,
    one_has_the_token, other_sessions_begin_alike, others_are_left_alone, others_stay,
    pending_is_not_lost, saves_are_kept, the_first_is_served, the_second_phase_waits,
    what_was_done_is_a_front_of_the_line,
};
pub use worked::notes_compute;
