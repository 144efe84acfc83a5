//! What calls and events do on the machine of all hosts: for each row a case, and what isn't one.

ghost use Rattle.std.specs.Prelude.{◌≡◌, nat_lt, false, [], ◌∷◌, Some, None, codes, length, option_map};
ghost use Rattle.fam_base.specs.Image.{Image};
ghost use Rattle.fam_base.specs.declared.cmd.Cmd.TheVariants.{Logplay, Mount};
ghost use Rattle.fam_machine.specs.MkfsRequest.{mkfs_request};
ghost use Rattle.fam_format.specs.Layout.{least_lines};
ghost use Rattle.fam_journal.specs.Calls.{Begins, Declares, Does, Finishes, Halts, Makes, Moves, Refuses, Steps, Stops, Umounts, refusal_of};
ghost use Rattle.fam_journal.specs.Events.{DoesEvent, first_session};
ghost use Rattle.fam_journal.specs.Follows.{Follows};
ghost use Rattle.fam_journal.specs.Machines.{Done, Fails, Passes, machine_of, operation, unused, with_machine};
ghost use Rattle.fam_journal.specs.Notes.{Halt, Host, Refused, Start, Stop, Umount};
ghost use Rattle.fam_journal.specs.declared.event.Ask.TheVariants.{Plain};
ghost use Rattle.fam_journal.specs.declared.event.Event.TheVariants as event;
ghost use Rattle.fam_journal.specs.declared.refusal.Refusal.TheVariants as why;
ghost use Rattle.fam_samples.specs.Scene.{beginning, client_uuid, host_m, master, mkdir, mounted_host, one_host, one_line, unread_session, ten_events, ten_notes, uuid, x};
ghost use Rattle.fam_machine.specs.HostMoves.{Evict, Fetch, moved};
ghost use Rattle.fam_machine.specs.Operations.{Breaking};
ghost use Rattle.fam_media.specs.Files.{Files};

/// The first refusal of each call, in its order.
pub fn refusals_in_order()
    ensures same_name { refusal_of (Declares (codes "m") client_uuid) (one_host [] None) ≡ Some (why.SameHost (record { 0 = 0 })) }
    ensures same_uuid { refusal_of (Declares (codes "d") master) (one_host [] None) ≡ Some (why.SameHost (record { 0 = 0 })) }
    ensures another { refusal_of (Declares (codes "c") client_uuid) (one_host [] None) ≡ None }
    ensures no_maker { refusal_of (Makes (codes "c") (mkfs_request (uuid 255) 5000 0 1 false None)) (one_host [] None) ≡ Some why.NoHost }
    ensures geometry { refusal_of (Makes (codes "m") (mkfs_request (uuid 255) 5000 8388608 1 false None)) (one_host [] (Some beginning))
        ≡ Some (why.BadGeometry 5000 8388608) }
    ensures small { refusal_of (Makes (codes "m") (mkfs_request (uuid 255) 4096 65536 1 false None)) (one_host [] (Some beginning))
        ≡ Some (why.TooSmall 2166784 0) }
    ensures no_host { refusal_of (Begins (codes "c") Logplay) (one_host [] None) ≡ Some why.NoHost }
    ensures no_gate { refusal_of (Begins (codes "m") Logplay) (one_host [] (Some beginning)) ≡ Some (why.ImageSmall 0) }
    ensures idle_step { refusal_of (Steps (codes "m")) (one_host [] None) ≡ Some why.Idle }
    ensures busy_step { refusal_of (Steps (codes "m")) (one_host [] (Some beginning)) ≡ None }
    ensures idle_finish { refusal_of (Finishes (codes "m")) (one_host [] None) ≡ Some why.Idle }
    ensures idle_stop { refusal_of (Stops (codes "m")) (one_host [] None) ≡ Some why.Idle }
    ensures idle_halt { refusal_of (Halts (codes "m")) (one_host [] None) ≡ None }
    ensures busy_umount { refusal_of (Umounts (codes "m")) (one_host [] (Some beginning)) ≡ Some (why.Busy (record { 0 = 0 })) }
    ensures bare_umount { refusal_of (Umounts (codes "m")) (one_host [] None) ≡ Some why.NotMounted }
    ensures umount { refusal_of (Umounts (codes "m")) (mounted_host []) ≡ None }
    ensures second_mount { (image : Image) → nat_lt (length image) least_lines ≡ false
        → refusal_of (Begins (codes "m") Mount) (mounted_host image) ≡ Some why.Mounted }
    ensures logplay_of_a_mounted_host { (image : Image) → nat_lt (length image) least_lines ≡ false
        → refusal_of (Begins (codes "m") Logplay) (mounted_host image) ≡ None }
    ensures no_line { refusal_of (Moves (codes "m") 1 Evict) (one_host ([] ∷ []) None) ≡ Some (why.NoLine 1 1) }
    ensures a_line { refusal_of (Moves (codes "m") 0 Evict) (one_host ([] ∷ []) None) ≡ None }
{}

/// Calls that do no operation.
pub fn calls_without_operations()
    ensures host { Does (Declares (codes "m") master) (unused []) (Host (codes "m") master ∷ []) (one_host [] None) }
    ensures host_is_not_forgotten { Does (Declares (codes "m") master) (unused []) (Host (codes "m") master ∷ []) (unused []) → ⊥ }
    ensures host_is_noted { Does (Declares (codes "m") master) (unused []) [] (one_host [] None) → ⊥ }
    ensures refused_host { Does (Declares (codes "m") client_uuid) (one_host [] None) (Refused (codes "m") (why.SameHost (record { 0 = 0 })) ∷ []) (one_host [] None) }
    ensures begin { (image : Image) → nat_lt (length image) least_lines ≡ false
        → Does (Begins (codes "m") (mkdir x)) (one_host image None) (Start 0 (mkdir x) ∷ []) (one_host image (Some beginning)) }
    ensures begin_is_not_refused { (image : Image) → nat_lt (length image) least_lines ≡ false
        → Does (Begins (codes "m") (mkdir x)) (one_host image None) (Refused (codes "m") (why.Busy (record { 0 = 0 })) ∷ []) (one_host image None) → ⊥ }
    ensures stop { (image : Image) → Does (Stops (codes "m")) (one_host image (Some beginning)) (Stop 0 ∷ []) (one_host image None) }
    ensures stop_ends_the_task { (image : Image) → Does (Stops (codes "m")) (one_host image (Some beginning)) (Stop 0 ∷ []) (one_host image (Some beginning)) → ⊥ }
    ensures halt { (image : Image) → Does (Halts (codes "m")) (one_host image (Some beginning)) (Halt 0 ∷ []) (one_host image None) }
    ensures halt_is_no_stop { (image : Image) → Does (Halts (codes "m")) (one_host image (Some beginning)) (Stop 0 ∷ []) (one_host image None) → ⊥ }
    ensures umount { (image : Image) → Does (Umounts (codes "m")) (mounted_host image) (Umount 0 ∷ []) (one_host image None) }
    ensures umount_forgets { (image : Image) → Does (Umounts (codes "m")) (mounted_host image) (Umount 0 ∷ []) (mounted_host image) → ⊥ }
    ensures refuse { (image : Image) → Does (Refuses (codes "m") (why.BadListing 3)) (one_host image None) (Refused (codes "m") (why.BadListing 3) ∷ []) (one_host image None) }
    ensures refuse_of_a_small_image { Does (Refuses (codes "m") (why.ImageSmall 0)) (one_host [] None) (Refused (codes "m") (why.ImageSmall 0) ∷ []) (one_host [] None) }
    ensures refuse_needs_a_cause { Does (Refuses (codes "m") why.Idle) (one_host [] None) (Refused (codes "m") why.Idle ∷ []) (one_host [] None) → ⊥ }
{}

/// Moves of a cache, and one operation of a task.
pub fn moves_and_operations()
    // An absent line is brought whole, and nothing is noted; or the media fails at it, and nothing is brought.
    ensures fetch { Does (Moves (codes "m") 0 (Fetch 255)) (one_host one_line None) [] (with_machine 0 (moved (Fetch 255) 0 (machine_of (one_host one_line None) (host_m None))) None (one_host one_line None)) }
    ensures fetch_brings { Does (Moves (codes "m") 0 (Fetch 255)) (one_host one_line None) [] (one_host one_line None) → ⊥ }
    ensures fetch_fails { Does (Moves (codes "m") 0 (Fetch 255)) (one_host one_line None) (Refused (codes "m") (why.MediaFault (record { 0 = 0 })) ∷ []) (one_host one_line None) }
    ensures no_fault_elsewhere { Does (Moves (codes "m") 0 (Fetch 255)) (one_host one_line None) (Refused (codes "m") (why.MediaFault (record { 0 = 1 })) ∷ []) (one_host one_line None) → ⊥ }

    // A task drops line 0 first, which asks nothing of memory while no copy is dirty, so it can't fail.
    ensures first { option_map (λ (d : Done). d.notes) (operation Passes 0 (one_host [] (Some beginning))) ≡ Some [] }
    ensures first_serves { (through : Breaking) → operation (Fails through) 0 (one_host [] (Some beginning)) ≡ None }
    ensures no_host { operation Passes 1 (one_host [] (Some beginning)) ≡ None }
    ensures no_task { operation Passes 0 (one_host [] None) ≡ None }
{}

/// Events of a script, and a script of ten events with its ten notes.
pub fn events()
    ensures ten { (files : Files) → Follows files ten_events (first_session []) ten_notes (unread_session (one_host [] None)) }
    ensures nothing_is_left_out { (files : Files) → Follows files (event.Host (codes "m") master ∷ []) (first_session []) [] (first_session []) → ⊥ }
    ensures nothing_is_done_twice { (files : Files) → Follows files (event.Host (codes "m") master ∷ []) (first_session []) (Host (codes "m") master ∷ Host (codes "m") master ∷ []) (unread_session (one_host [] None)) → ⊥ }
    ensures step_of_an_idle_host { (files : Files) → DoesEvent files (event.Step (codes "m") 5) (unread_session (one_host [] None)) (Refused (codes "m") why.Idle ∷ []) (unread_session (one_host [] None)) }
    ensures one_refusal_of_many_steps { (files : Files) → DoesEvent files (event.Step (codes "m") 2) (unread_session (one_host [] None)) (Refused (codes "m") why.Idle ∷ Refused (codes "m") why.Idle ∷ []) (unread_session (one_host [] None)) → ⊥ }
    ensures run_of_a_small_image { (files : Files) → DoesEvent files (event.Run (codes "m") (Plain Logplay)) (unread_session (one_host [] None)) (Refused (codes "m") (why.ImageSmall 0) ∷ []) (unread_session (one_host [] None)) }
    ensures no_run_of_a_small_image { (files : Files) → DoesEvent files (event.Run (codes "m") (Plain Logplay)) (unread_session (one_host [] None)) (Start 0 Logplay ∷ Refused (codes "m") (why.ImageSmall 0) ∷ []) (unread_session (one_host [] None)) → ⊥ }
{}
