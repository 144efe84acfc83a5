//! A model of those who call the world: what the world's calls promise is enough to chain them, and can be met. Laws
//! with empty bodies.
ghost use Rattle.std.specs.Prelude.{◌≤◌, ◌+◌, ◌*◌, length, true, [], ◌∷◌, ℕ, List, Some, None, false, codes};
ghost use Rattle.fam_journal.specs.declared.event.Event.TheVariants.{Finish, Host};
ghost use Rattle.fam_base.specs.Image.{Image};
ghost use Rattle.fam_machine.specs.MkfsRequest.{mkfs_request};
ghost use Rattle.fam_format.specs.Params.{IsUuid, need};
ghost use Rattle.fam_rules.specs.Place.{line_bytes};
ghost use Rattle.fam_journal.specs.Calls.{Makes};
ghost use Rattle.fam_journal.specs.declared.refusal.Refusal.TheVariants.{MediaFault};
ghost use Rattle.fam_journal.specs.Ends.{AllDone, MkfsFails, EndsOutOfMemory};
ghost use Rattle.fam_journal.specs.Laws.{IsImage};
ghost use Rattle.fam_media.specs.Files.{Files};
ghost use Rattle.fam_media.specs.States.{media_change};
ghost use Rattle.fam_journal.specs.CallRecords.{MakeCall, StepCall};
ghost use Rattle.fam_journal.specs.Notes.{Note};
ghost use Rattle.fam_samples.specs.Bodies.{after_cut, after_mkfs, after_step, before_mkfs, before_step, made_machine};
ghost use Rattle.fam_samples.specs.Caller.{ComesTo, ComesToCut, CutTrace, Trace, OutOfMemoryTrace, Wishes, events};

/// What seven calls promise is enough to know that their notes follow a script's events, that the media has the last
/// image, and that the world is held (`done`). Where a media fault cuts a mkfs the notes follow up to it and are legal,
/// and the image reads as that mkfs leaves it (`cut`). Where a finish finds no memory the world is held still, and may go on (`out_of_memory`).
pub fn a_caller_chains_what_calls_promise()
    ensures done { (start : Image) (files : Files) (w : Wishes) → IsImage start → (t : Trace start w)
        → ComesTo start AllDone files (events w) t.halted t.evicted.told }
    ensures cut { (start : Image) (files : Files) (w : Wishes) → IsImage start → (t : CutTrace start w)
        → ComesToCut start MkfsFails files (events w) t.cut.world t.cut.told }
    ensures out_of_memory { (start : Image) (files : Files) (w : Wishes) → IsImage start → (t : OutOfMemoryTrace start w)
        → ComesTo start EndsOutOfMemory files (Host w.name w.uuid ∷ Finish w.name ∷ []) t.wanting.world t.wanting.told }
{}

/// A body that does what its own task says meets what the call promises: the first operation of a logplay drops line 0,
/// of which the cache has no copy, so memory is asked for nothing; on every image that is modelled (`step`), and on a
/// media that tells nothing (`untold`). So does one that makes a file system of 65,536 bytes of log and units of 4,096,
/// over whatever stands there, on every image that has room for it (`mkfs`); and one in which the media fails at the
/// first load (`cut`).
pub fn a_body_meets_what_calls_promise()
    ensures step { (me : List ℕ) (lines : ℕ) (journal : List Note) (image : Image) (faults : ℕ)
        → StepCall (codes "m") lines None false (media_change (Some image) faults (Some image) faults) (before_step me lines journal) (after_step me lines journal) }
    ensures untold { (me : List ℕ) (lines : ℕ) (journal : List Note) (faults : ℕ)
        → StepCall (codes "m") lines None false (media_change None faults None faults) (before_step me lines journal) (after_step me lines journal) }
    ensures mkfs { (me fs : List ℕ) (image : Image) (journal : List Note) (faults : ℕ) → IsUuid fs
        → need 65536 4096 ≤ line_bytes * length image
        → MakeCall (Makes (codes "m") (mkfs_request fs 4096 65536 1 true None)) (length image) None (media_change (Some image) faults (Some (made_machine me fs image).image) faults) (before_mkfs me journal) (after_mkfs me fs image journal) }
    ensures cut { (me fs : List ℕ) (image : Image) (journal : List Note) (faults : ℕ) → IsUuid fs
        → need 65536 4096 ≤ line_bytes * length image
        → MakeCall (Makes (codes "m") (mkfs_request fs 4096 65536 1 true None)) (length image) (Some (MediaFault (record { 0 = 0 }))) (media_change (Some image) faults (Some image) (faults + 1)) (before_mkfs me journal) (after_cut me journal) }
{}
