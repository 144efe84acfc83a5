//! The shape of notes, whatever memory holds: notes of a mkdir that go through, and some that don't.

ghost use Rattle.std.specs.Prelude.{ℕ, ⊤, ◌≡◌, [], ◌∷◌, None, Some, codes, false, true};
ghost use Rattle.fam_base.specs.declared.cmd.Cmd.TheVariants.{Logplay, Mount};
ghost use Rattle.fam_machine.specs.MkfsRequest.{mkfs_request};
ghost use Rattle.fam_journal.specs.Calls.{Makes};
ghost use Rattle.fam_journal.specs.EventShapes.{StartShape};
ghost use Rattle.fam_journal.specs.Shapes.{ActsShape, CompletesShape, OperationsShape, shapes_behind};
ghost use Rattle.fam_journal.specs.Notes.{Answered, Cut, Found, Made, Mark, Replied, Start, Umount, Writes};
ghost use Rattle.fam_journal.specs.declared.event.Ask.TheVariants.{Plain};
ghost use Rattle.fam_samples.specs.Scene.{folder, shape_m, idle_m, mkdir, no_tree, params, running_m, uuid, x, y};
ghost use Rattle.fam_machine.specs.Mkfs.{asked};
ghost use Rattle.fam_rules.specs.Reply.{Appended, Mounted, Played};

/// The notes of a mkdir that is run, and of a mkfs.
pub fn shapes_of_notes()
    ensures done { (lines : ℕ) → StartShape CompletesShape (codes "m") (Plain (mkdir x)) lines idle_m
        (Start 0 (mkdir x) ∷ Mark 0 ∷ Found 0 0 ∷ Writes 0 0 (folder x) ∷ Answered 0 (Replied (Appended 0)) ∷ []) }
    ensures without_start { (lines : ℕ) → StartShape CompletesShape (codes "m") (Plain (mkdir x)) lines idle_m
        (Mark 0 ∷ Found 0 0 ∷ Writes 0 0 (folder x) ∷ Answered 0 (Replied (Appended 0)) ∷ []) → ⊥ }
    ensures without_mark { OperationsShape 0 (running_m (mkdir x)) (Found 0 0 ∷ []) → ⊥ }
    ensures second_answer { OperationsShape 0 (running_m (mkdir x))
        (Mark 0 ∷ Found 0 0 ∷ Writes 0 0 (folder x) ∷ Answered 0 (Replied (Appended 0)) ∷ Answered 0 (Replied (Appended 0)) ∷ []) → ⊥ }
    ensures listing { OperationsShape 0 (running_m (mkdir x)) (Mark 0 ∷ Answered 0 (Replied (Played 0 no_tree)) ∷ []) → ⊥ }
    ensures of_a_logplay { OperationsShape 0 (running_m Logplay) (Mark 0 ∷ Answered 0 (Replied (Played 0 no_tree)) ∷ []) }
    ensures of_a_mount { OperationsShape 0 (running_m Mount) (Mark 0 ∷ Answered 0 (Replied (Mounted 0)) ∷ []) }
    ensures mount_keeps { shapes_behind (running_m Mount) (Mark 0 ∷ Answered 0 (Replied (Mounted 0)) ∷ []) ≡ record shape_m { keeps = true } ∷ [] }
    ensures umount_forgets { shapes_behind (running_m Mount) (Mark 0 ∷ Answered 0 (Replied (Mounted 0)) ∷ Umount 0 ∷ []) ≡ idle_m }
    ensures other_host { OperationsShape 0 (running_m (mkdir x)) (Mark 1 ∷ []) → ⊥ }
    ensures other_entry { OperationsShape 0 (running_m (mkdir x)) (Mark 0 ∷ Found 0 0 ∷ Writes 0 0 (folder y) ∷ []) → ⊥ }
    ensures other_number { OperationsShape 0 (running_m (mkdir x)) (Mark 0 ∷ Found 0 0 ∷ Writes 0 1 (folder x) ∷ []) → ⊥ }

    // A mkfs makes just what was asked for.
    ensures made { (lines : ℕ) → ActsShape (Makes (codes "m") (mkfs_request (uuid 255) 4096 65536 1 false None)) 0 shape_m lines idle_m
        (Made 0 (asked (mkfs_request (uuid 255) 4096 65536 1 false None) shape_m.uuid lines) ∷ []) }
    ensures made_another { (lines : ℕ) → ActsShape (Makes (codes "m") (mkfs_request (uuid 255) 8192 65536 1 false None)) 0 shape_m lines idle_m
        (Made 0 params ∷ []) → ⊥ }

    // A maker that is to halt makes none.
    ensures cut { (lines : ℕ) → ActsShape (Makes (codes "m") (mkfs_request (uuid 255) 4096 65536 1 false (Some 36))) 0 shape_m lines idle_m
        (Cut 0 36 ∷ []) }
    ensures cut_elsewhere { (lines : ℕ) → ActsShape (Makes (codes "m") (mkfs_request (uuid 255) 4096 65536 1 false (Some 36))) 0 shape_m lines idle_m
        (Cut 0 37 ∷ []) → ⊥ }
    ensures cut_unasked { (lines : ℕ) → ActsShape (Makes (codes "m") (mkfs_request (uuid 255) 4096 65536 1 false None)) 0 shape_m lines idle_m
        (Cut 0 36 ∷ []) → ⊥ }
    ensures cut_and_made { (lines : ℕ) → ActsShape (Makes (codes "m") (mkfs_request (uuid 255) 4096 65536 1 false (Some 36))) 0 shape_m lines idle_m
        (Made 0 (asked (mkfs_request (uuid 255) 4096 65536 1 false (Some 36)) shape_m.uuid lines) ∷ []) → ⊥ }
{}
