//! Which recorded histories hosts that keep the promise could have had: definitions, and laws whose functions do nothing.
//!
//! `specs/Shows.antt` says what a history may leave out, `specs/Alike.antt` which journals are the same but for bytes,
//! `specs/Formed.antt` what the form of the tables is, and `specs/Explained.antt` which histories are explained.
//! `specs/Asks.antt` says which events ask for sound commands, `specs/GivesWay.antt` over which lines a start may be moved up,
//! and an answer down. What a program can test is said by `specs/Standing.antt`, the form of the tables without events, with
//! `specs/ToldHosts.antt`; by `specs/Fitting.antt`, what is allowed, of notes without what isn't told (`specs/Untold.antt`), with
//! `specs/Counting.antt` for checks; and by `specs/Possible.antt` and `specs/Covering.antt`, the states behind lines.
#![tactic(auto)]

mod laws;

pub use laws::{
    a_check_is_counted, a_listing_may_have_any_length, a_run_is_explained, a_script_is_explained,
    a_set_of_states_judges, a_start_moves_up, a_task_is_formed, an_answer_moves_down,
    answers_stand_at_their_places, commands_that_begin_are_sound, first_lines_are_explained,
    hosts_are_told, some_state_is_possible, the_same_but_for_bytes, what_fits_is_allowed,
    what_follows_is_formed, what_is_allowed_fits, what_is_formed_stands,
    what_is_legal_is_explained, what_stands_explains, what_stands_is_formed, what_stands_is_told,
    where_no_line_is_left_out,
};
