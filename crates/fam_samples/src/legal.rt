//! Which notes are allowed: for each row one that is, and some that aren't.

ghost use Rattle.std.specs.Prelude.{◌≡◌, ◌++◌, [], ◌∷◌};
ghost use Rattle.fam_base.specs.declared.cmd.Cmd.TheVariants.{Fsck, Logplay, Mount, Verify};
ghost use Rattle.fam_base.specs.declared.cmd.Content.TheVariants.{Zero};
ghost use Rattle.fam_base.specs.declared.entry.Kind.TheVariants.{Directory, File};
ghost use Rattle.fam_format.specs.declared.faults.LogFault.{LogFault};
ghost use Rattle.fam_format.specs.declared.faults.Reason.TheVariants.{BadPath, Map};
ghost use Rattle.fam_format.specs.declared.faults.SuperFault.TheVariants.{NoSuper};
ghost use Rattle.fam_journal.specs.Legal.{Allowed, cleared_report};
ghost use Rattle.fam_journal.specs.Notes.{Answered, Found, Mark, MediaFault, Replied, Start, Writes};
ghost use Rattle.fam_journal.specs.Past.{BadHeader, BadSlot, NoSuperblock};
ghost use Rattle.fam_samples.specs.Scene.{notes_tell, client_uuid, cut_off, damaged, done, folder, found, long, made, made_second, master, mkdir, no_tree, report_of_log, small_tree, writing, x, y};
ghost use Rattle.fam_rules.specs.Reply as reply;
ghost use Rattle.fam_rules.specs.Reply.{Appended, Mounted, NotAppended, NotFound, Played, Reports};
ghost use Rattle.fam_rules.specs.declared.answers.LogState.TheVariants as log;
ghost use Rattle.fam_rules.specs.declared.answers.Refused.TheVariants as cause;

/// What the master may find, and what it may write.
pub fn notes_of_the_master()
    // As many entries as are settled, or one more while one is pending.
    ensures settled { Allowed (notes_tell made) (Found 0 0) }
    ensures none_pending { Allowed (notes_tell made) (Found 0 1) → ⊥ }
    ensures dropped { Allowed (notes_tell writing) (Found 0 0) }
    ensures joined { Allowed (notes_tell writing) (Found 0 1) }
    ensures too_far { Allowed (notes_tell writing) (Found 0 2) → ⊥ }
    ensures forgotten { Allowed (notes_tell done) (Found 0 0) → ⊥ }

    // Of a bad slot's image as many as its gate counts; of another damaged image nothing.
    ensures bad_slot { Allowed (damaged (BadSlot 1 BadPath) 2) (Found 0 2) }
    ensures other_gate { Allowed (damaged (BadSlot 1 BadPath) 2) (Found 0 1) → ⊥ }
    ensures no_superblock { Allowed (damaged (NoSuperblock (NoSuper 7)) 0) (Found 0 0) → ⊥ }

    // The entry that is decided, behind the last one, while nothing is pending.
    ensures decided { Allowed (notes_tell found) (Writes 0 0 (folder x)) }
    ensures other_entry { Allowed (notes_tell found) (Writes 0 0 (folder y)) → ⊥ }
    ensures other_number { Allowed (notes_tell found) (Writes 0 1 (folder x)) → ⊥ }
    ensures pending { Allowed (notes_tell writing) (Writes 0 0 (folder x)) → ⊥ }
    ensures client { Allowed (notes_tell (made ++ Start 1 (mkdir x) ∷ Mark 1 ∷ [])) (Writes 1 0 (folder x)) → ⊥ }
    ensures undeclared { Allowed (notes_tell found) (Writes 2 0 (folder x)) → ⊥ }
    ensures damage { Allowed (damaged (BadSlot 1 BadPath) 2) (Writes 0 0 (folder x)) → ⊥ }
{}

/// What a command that appends may answer.
pub fn answers_of_appends()
    // Done: behind the answer its own entry is the last.
    ensures done { Allowed (notes_tell writing) (Answered 0 (Replied (Appended 0))) }
    ensures other_number { Allowed (notes_tell writing) (Answered 0 (Replied (Appended 1))) → ⊥ }
    ensures other_host { Allowed (notes_tell writing) (Answered 1 (Replied (Appended 0))) → ⊥ }
    ensures unnamed { Allowed (notes_tell found) (Answered 0 (Replied (Appended 0))) → ⊥ }

    // Not the master: the host's own UUID and the superblock's, and they differ.
    ensures client { Allowed (notes_tell (made ++ Start 1 (mkdir x) ∷ [])) (Answered 1 (Replied (NotAppended (cause.NotMaster client_uuid master)))) }
    ensures the_master { Allowed (notes_tell (made ++ Start 0 (mkdir x) ∷ [])) (Answered 0 (Replied (NotAppended (cause.NotMaster master master)))) → ⊥ }
    ensures other_uuid { Allowed (notes_tell (made ++ Start 0 (mkdir x) ∷ [])) (Answered 0 (Replied (NotAppended (cause.NotMaster client_uuid master)))) → ⊥ }
    ensures no_superblock { Allowed (damaged (NoSuperblock (NoSuper 7)) 0) (Answered 1 (Replied (NotAppended (cause.NotMaster client_uuid master)))) → ⊥ }

    // Too long a path: the master's, for which a slot of the first format has no room, whatever is found.
    ensures long { Allowed (notes_tell (made ++ Start 0 (mkdir (long 169)) ∷ [])) (Answered 0 (Replied (NotAppended (cause.LongPath 168)))) }
    ensures fits { Allowed (notes_tell (made ++ Start 0 (mkdir (long 168)) ∷ [])) (Answered 0 (Replied (NotAppended (cause.LongPath 168)))) → ⊥ }
    ensures other_limit { Allowed (notes_tell (made ++ Start 0 (mkdir (long 169)) ∷ [])) (Answered 0 (Replied (NotAppended (cause.LongPath 167)))) → ⊥ }
    ensures long_of_client { Allowed (notes_tell (made ++ Start 1 (mkdir (long 169)) ∷ [])) (Answered 1 (Replied (NotAppended (cause.LongPath 168)))) → ⊥ }
    ensures long_read { Allowed (notes_tell (made ++ Start 0 Logplay ∷ [])) (Answered 0 (Replied (NotAppended (cause.LongPath 168)))) → ⊥ }
    ensures long_nowhere { Allowed (damaged (NoSuperblock (NoSuper 7)) 0) (Answered 0 (Replied (NotAppended (cause.LongPath 168)))) → ⊥ }
    ensures long_second { Allowed (notes_tell (made_second ++ Start 0 (mkdir (long 513)) ∷ [])) (Answered 0 (Replied (NotAppended (cause.LongPath 512)))) → ⊥ }
    ensures fits_second { Allowed (notes_tell (made_second ++ Start 0 (mkdir (long 169)) ∷ [])) (Answered 0 (Replied (NotAppended (cause.LongPath 168)))) → ⊥ }

    // Another refusal: the one that is decided on the history, with nothing pending.
    ensures exists { Allowed (notes_tell (done ++ Start 0 (mkdir x) ∷ Mark 0 ∷ Found 0 1 ∷ [])) (Answered 0 (Replied (NotAppended (cause.Exists Directory)))) }
    ensures other_kind { Allowed (notes_tell (done ++ Start 0 (mkdir x) ∷ Mark 0 ∷ Found 0 1 ∷ [])) (Answered 0 (Replied (NotAppended (cause.Exists File)))) → ⊥ }
    ensures free { Allowed (notes_tell found) (Answered 0 (Replied (NotAppended (cause.Exists Directory)))) → ⊥ }
    ensures pending { Allowed (notes_tell writing) (Answered 0 (Replied (NotAppended (cause.Exists Directory)))) → ⊥ }
    ensures full { Allowed (notes_tell found) (Answered 0 (Replied (NotAppended (cause.LogFull 127)))) → ⊥ }
{}

/// What a command that reads may answer: by so many entries as were settled at its mark, or more.
pub fn answers_of_questions()
    ensures none { Allowed (notes_tell (writing ++ Start 1 Logplay ∷ Mark 1 ∷ [])) (Answered 1 (Replied (Played 0 no_tree))) }
    ensures one { Allowed (notes_tell (writing ++ Start 1 Logplay ∷ Mark 1 ∷ [])) (Answered 1 (Replied (Played 1 (small_tree x)))) }
    ensures too_many { Allowed (notes_tell (writing ++ Start 1 Logplay ∷ Mark 1 ∷ [])) (Answered 1 (Replied (Played 2 (small_tree x)))) → ⊥ }
    ensures too_few { Allowed (notes_tell (done ++ Start 1 Logplay ∷ Mark 1 ∷ [])) (Answered 1 (Replied (Played 0 no_tree))) → ⊥ }
    ensures since_the_mark { Allowed (notes_tell (found ++ Start 1 Logplay ∷ Mark 1 ∷ Writes 0 0 (folder x) ∷ Answered 0 (Replied (Appended 0)) ∷ [])) (Answered 1 (Replied (Played 0 no_tree))) }
    ensures without_mark { Allowed (notes_tell (done ++ Start 1 Logplay ∷ [])) (Answered 1 (Replied (Played 1 (small_tree x)))) → ⊥ }
    ensures other_question { Allowed (notes_tell (done ++ Start 1 Fsck ∷ Mark 1 ∷ [])) (Answered 1 (Replied (Played 1 (small_tree x)))) → ⊥ }
    ensures not_found { Allowed (notes_tell (done ++ Start 1 (Verify y Zero) ∷ Mark 1 ∷ [])) (Answered 1 (Replied (NotFound 1))) }
    ensures found { Allowed (notes_tell (done ++ Start 1 (Verify x Zero) ∷ Mark 1 ∷ [])) (Answered 1 (Replied (NotFound 1))) → ⊥ }
    ensures mounted { Allowed (notes_tell (done ++ Start 1 Mount ∷ Mark 1 ∷ [])) (Answered 1 (Replied (Mounted 1))) }
    ensures mounted_too_few { Allowed (notes_tell (done ++ Start 1 Mount ∷ Mark 1 ∷ [])) (Answered 1 (Replied (Mounted 0))) → ⊥ }
    ensures mounted_by_no_mount { Allowed (notes_tell (done ++ Start 1 Logplay ∷ Mark 1 ∷ [])) (Answered 1 (Replied (Mounted 1))) → ⊥ }
    ensures damage { Allowed (damaged (BadSlot 1 BadPath) 2) (Answered 1 (Replied (Played 0 no_tree))) → ⊥ }
{}

/// What a check of the whole file system may report of a sound one.
pub fn reports()
    ensures sound { Allowed (notes_tell (done ++ Start 1 Fsck ∷ Mark 1 ∷ [])) (Answered 1 (Replied (Reports (report_of_log (log.Sound 1 127))))) }
    ensures pending { Allowed (notes_tell (writing ++ Start 1 Fsck ∷ Mark 1 ∷ [])) (Answered 1 (Replied (Reports (report_of_log (log.Sound 1 127))))) }
    ensures unread { Allowed (notes_tell (done ++ Start 1 Fsck ∷ Mark 1 ∷ [])) (Answered 1 (Replied (Reports (report_of_log log.Unread)))) → ⊥ }
    ensures other_slots { Allowed (notes_tell (done ++ Start 1 Fsck ∷ Mark 1 ∷ [])) (Answered 1 (Replied (Reports (report_of_log (log.Sound 1 126))))) → ⊥ }
    ensures too_few { Allowed (notes_tell (done ++ Start 1 Fsck ∷ Mark 1 ∷ [])) (Answered 1 (Replied (Reports (report_of_log (log.Sound 0 127))))) → ⊥ }
{}

/// What may be answered on a damaged image: its own fault; and where a maker has halted that there is no superblock. A media's fault may always be answered.
pub fn answers_of_a_damaged_image()
    ensures own { Allowed (damaged (NoSuperblock (NoSuper 7)) 0) (Answered 1 (Replied (reply.NoSuperblock (NoSuper 7)))) }
    ensures other_word { Allowed (damaged (NoSuperblock (NoSuper 7)) 0) (Answered 1 (Replied (reply.NoSuperblock (NoSuper 8)))) → ⊥ }
    ensures header { (fault : LogFault) → Allowed (damaged (BadHeader fault) 0) (Answered 1 (Replied (reply.BadHeader fault))) }
    ensures no_header { (fault : LogFault) → Allowed (damaged (BadSlot 1 BadPath) 2) (Answered 1 (Replied (reply.BadHeader fault))) → ⊥ }
    ensures slot { Allowed (damaged (BadSlot 1 BadPath) 2) (Answered 1 (Replied (reply.BadSlot 1 BadPath))) }
    ensures other_slot { Allowed (damaged (BadSlot 1 BadPath) 2) (Answered 1 (Replied (reply.BadSlot 0 BadPath))) → ⊥ }
    ensures other_reason { Allowed (damaged (BadSlot 1 BadPath) 2) (Answered 1 (Replied (reply.BadSlot 1 Map))) → ⊥ }
    ensures cut { Allowed (cut_off 36) (Answered 1 (Replied (reply.NoSuperblock (NoSuper 0)))) }
    ensures cut_word { Allowed (cut_off 36) (Answered 1 (Replied (reply.NoSuperblock (NoSuper 7)))) → ⊥ }
    ensures cut_report { Allowed (cut_off 80) (Answered 1 (Replied (Reports cleared_report))) }
    ensures cut_log { Allowed (cut_off 80) (Answered 1 (Replied (Reports (report_of_log log.Unread)))) → ⊥ }
    ensures cut_early { Allowed (cut_off 35) (Answered 1 (Replied (reply.NoSuperblock (NoSuper 0)))) → ⊥ }
    ensures sound { Allowed (notes_tell done) (Answered 1 (Replied (reply.BadSlot 0 BadPath))) → ⊥ }
    ensures media { Allowed (notes_tell done) (Answered 1 (MediaFault 32769)) }
    ensures media_undeclared { Allowed (notes_tell done) (Answered 2 (MediaFault 32769)) → ⊥ }
{}
