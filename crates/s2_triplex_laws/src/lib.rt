//! Laws of the triple machine, for every processor core: what its steps keep, and why it masks a fault of one
//! processor.
//!
//! Each law is a public function without a body, whose contract is the law: the statement stands in
//! `specs/`. A program never calls one; a body whose proof needs a law may.
#![tactic(auto)]

mod calls;
mod counts;
mod decisions;
mod events;
mod executions;
mod lawful;
mod mending;
mod notes;
mod private;
mod processor;
mod reference;
mod repair;
mod steps;

pub use calls::{
    joiner_is_added, latching_by_calls, members_leave_by_calls, named_are_processors,
    removal_is_a_call,
};
pub use counts::{
    event_counts_repair, fault_counts_repair, good_agree_on_sync, reintegration_ends_in_time,
    removal_counts_repair, revive_counts_repair, tick_counts_repair,
};
pub use decisions::{decisions_are_right, decisions_never_split, good_processors_are_in};
pub use events::{
    acts_accept_in_order, frame_ends_deliver_what_was_seen, steps_deliver_in_order,
    steps_keep_what_was_seen, syncs_are_prompt, ticks_deliver_in_order,
};
pub use executions::{
    act_advances, act_keeps_state, every_execution, every_r2000_execution, execution_begins,
    execution_goes_on, start_is_reference, start_is_state, steps_keep_frame, tick_advances,
    tick_keeps_state,
};
pub use lawful::{
    act_keeps_invariant, board_fault_keeps_invariant, decisions_find_all_latched,
    event_keeps_invariant, fault_keeps_invariant, first_state_invariant, removal_keeps_invariant,
    requests_wait_briefly, tick_keeps_invariant, ticks_decide_right, verdicts_come_in_time,
};
pub use mending::{
    dead_boards_end_mendings, mend_notes_begin_mendings, mended_boards_may_fail,
    mended_notes_end_mendings, mending_counts_idle_turns, mending_ends, mends_go_on_as_far,
    mends_leave_runs, steps_ignore_boards, steps_ignore_mending,
};
pub use notes::{TURN_NOTES, act_turn_tells, tick_turn_tells, turn_tells_advance};
pub use private::{acts_leave_devices, private_stores_print, slot_loads_give, ticks_print_slots};
pub use processor::r2000_is_triplex_core;
pub use reference::{delivered_runs_add, frame_ends_are_due, good_are_ahead, run_goes_on};
pub use repair::{
    board_fault_keeps_repair, event_keeps_repair, fault_keeps_repair, last_word_reintegrates,
    no_reintegration_tells, open_reintegration_tells, removal_keeps_repair, revive_keeps_repair,
    saved_words_restore, tick_keeps_repair,
};
pub use steps::{
    access_advances_reference, access_keeps_agreement, access_keeps_replicas,
    board_fault_keeps_masking, event_keeps_masking, fault_keeps_masking, removal_keeps_masking,
    sync_advances_reference, sync_keeps_agreement, sync_keeps_replicas, tick_keeps_masking,
    wait_advances_reference, wait_keeps_agreement, wait_keeps_replicas,
};
