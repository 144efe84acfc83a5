//! What notes settle: one clause or more for each note.

ghost use Rattle.std.specs.Prelude.{◌≡◌, ◌++◌, [], ◌∷◌, Some, None, codes, slice_get, option_map};
ghost use Rattle.fam_base.specs.declared.cmd.Cmd.TheVariants.{Logplay};
ghost use Rattle.fam_format.specs.declared.faults.Reason.TheVariants.{BadPath};
ghost use Rattle.fam_format.specs.declared.faults.SuperFault.TheVariants.{NoSuper};
ghost use Rattle.fam_journal.specs.Notes.{Answered, Cut, Found, Halt, Host, Made, Mark, MediaFault, Refused, Replied, Start, Stop, Writes};
ghost use Rattle.fam_journal.specs.Past.{Bad, BadSlot, FewLines, Given, Halted, NoSuperblock, HostPast, Sound, first_state, state_after};
ghost use Rattle.fam_journal.specs.declared.refusal.Refusal.TheVariants.{NoHost};
ghost use Rattle.fam_samples.specs.Scene.{notes_tell, damaged, done, folder, found, held, made, mkdir, no_tree, params, report_of_log, state_behind, small_tree, writing, x, y};
ghost use Rattle.fam_rules.specs.Reply.{Appended, Played, Reports};
ghost use Rattle.fam_rules.specs.declared.answers.LogState.TheVariants as log;

/// What is settled behind each note, where one entry is pending, and where none is.
pub fn what_notes_settle()
    ensures few_lines { first_state [] ≡ Bad (Given []) (FewLines 0) 0 }
    ensures made { state_behind made ≡ Sound params [] None }
    ensures writes { state_behind writing ≡ Sound params [] (Some (held x)) }

    // What is pending is dropped where the master finds as many entries as are settled, and joins where it finds one
    // more.
    ensures found_old { state_behind (writing ++ Found 0 0 ∷ []) ≡ Sound params [] None }
    ensures found_new { state_behind (writing ++ Found 0 1 ∷ []) ≡ Sound params (held x ∷ []) None }
    ensures found_far { state_behind (writing ++ Found 0 2 ∷ []) ≡ Sound params [] (Some (held x)) }

    // It joins where an answer shows it, and stays where an answer doesn't.
    ensures shown_old { state_behind (writing ++ Answered 1 (Replied (Played 0 no_tree)) ∷ []) ≡ Sound params [] (Some (held x)) }
    ensures shown_new { state_behind (writing ++ Answered 1 (Replied (Played 1 (small_tree x))) ∷ []) ≡ Sound params (held x ∷ []) None }
    ensures reported { state_behind (writing ++ Answered 1 (Replied (Reports (report_of_log (log.Sound 1 127)))) ∷ [])
        ≡ Sound params (held x ∷ []) None }
    ensures unread { state_behind (writing ++ Answered 1 (Replied (Reports (report_of_log log.Unread))) ∷ [])
        ≡ Sound params [] (Some (held x)) }

    // It joins where it is acknowledged, and stays where another number is.
    ensures acknowledged { state_behind (writing ++ Answered 0 (Replied (Appended 0)) ∷ []) ≡ Sound params (held x ∷ []) None }
    ensures another { state_behind (writing ++ Answered 0 (Replied (Appended 1)) ∷ []) ≡ Sound params [] (Some (held x)) }

    // Nothing else settles anything, and a new file system forgets all.
    ensures quiet { state_behind (writing ++ Host (codes "d") [] ∷ Start 1 Logplay ∷ Mark 1 ∷ Answered 1 (MediaFault 32769) ∷ Stop 0 ∷ Halt 0 ∷ Refused (codes "q") NoHost ∷ [])
        ≡ Sound params [] (Some (held x)) }
    ensures forgotten { state_behind (writing ++ Made 1 params ∷ []) ≡ Sound params [] None }

    // So does a maker that halts from its first send on, and none before it.
    ensures halted_early { state_behind (writing ++ Cut 1 35 ∷ []) ≡ Sound params [] (Some (held x)) }
    ensures halted { state_behind (writing ++ Cut 1 36 ∷ []) ≡ Bad Halted (NoSuperblock (NoSuper 0)) 0 }
{}

/// What is known of a host: its last command, how much was settled at that command's mark, and what it named.
pub fn what_hosts_leave()
    ensures begun { option_map (λ (h : HostPast). h.cmd) (slice_get (notes_tell found).hosts 0) ≡ Some (Some (mkdir x)) }
    ensures unmarked { option_map (λ (h : HostPast). h.floor) (slice_get (notes_tell (done ++ Start 1 Logplay ∷ [])).hosts 1) ≡ Some None }
    ensures marked { option_map (λ (h : HostPast). h.floor) (slice_get (notes_tell (done ++ Start 1 Logplay ∷ Mark 1 ∷ [])).hosts 1)
        ≡ Some (Some 1) }
    ensures kept { option_map (λ (h : HostPast). h.floor) (slice_get (notes_tell (found ++ Start 1 Logplay ∷ Mark 1 ∷ Writes 0 0 (folder x) ∷ Answered 0 (Replied (Appended 0)) ∷ [])).hosts 1)
        ≡ Some (Some 0) }
    ensures wrote { option_map (λ (h : HostPast). h.wrote) (slice_get (notes_tell writing).hosts 0)
        ≡ Some (Some (record { seq = 0; entry = folder x })) }
    ensures forgets { option_map (λ (h : HostPast). h.wrote) (slice_get (notes_tell (writing ++ Stop 0 ∷ Start 0 (mkdir y) ∷ [])).hosts 0)
        ≡ Some None }
{}

/// An image without history settles nothing, whatever is noted, up to a new file system. A maker that halts from its
/// first send on makes it one without a superblock.
pub fn what_a_damaged_image_settles()
    ensures found { state_after (damaged (BadSlot 1 BadPath) 2) (Found 0 2) ≡ Bad (Given []) (BadSlot 1 BadPath) 2 }
    ensures writes { state_after (damaged (BadSlot 1 BadPath) 2) (Writes 0 0 (folder x)) ≡ Bad (Given []) (BadSlot 1 BadPath) 2 }
    ensures shown { state_after (damaged (BadSlot 1 BadPath) 2) (Answered 1 (Replied (Played 0 no_tree))) ≡ Bad (Given []) (BadSlot 1 BadPath) 2 }
    ensures acknowledged { state_after (damaged (BadSlot 1 BadPath) 2) (Answered 0 (Replied (Appended 0))) ≡ Bad (Given []) (BadSlot 1 BadPath) 2 }
    ensures halted_early { state_after (damaged (BadSlot 1 BadPath) 2) (Cut 0 35) ≡ Bad (Given []) (BadSlot 1 BadPath) 2 }
    ensures halted { state_after (damaged (BadSlot 1 BadPath) 2) (Cut 0 80) ≡ Bad Halted (NoSuperblock (NoSuper 0)) 0 }
    ensures made { state_after (damaged (BadSlot 1 BadPath) 2) (Made 0 params) ≡ Sound params [] None }
{}
