//! Wrong protocols, each with a run that shows it: why a reader drops the lines that it drops when it does, and why a
//! master sends a slot by a fence before it stores the gate, and the gate before it answers.
//!
//! A run begins with an image that reads as sound, and with empty caches. Its master appends an entry behind those of
//! the image, by any command that the rules allow it, and a reader loads the gate and the slots that it counts. Their
//! operations are those of the table of fam_commands, the master's from its decision on and the reader's from the gate
//! on, but for the one change that the law names. specs/Refused.antt has the runs. A law has an empty body.

ghost use Rattle.std.specs.Prelude.{◌≡◌, ◌≢◌, ℕ, Ok, length};
ghost use Rattle.fam_base.specs.Image.{line_at};
ghost use Rattle.fam_base.specs.declared.entry.Params.{Params};
ghost use Rattle.fam_format.specs.Layout.{geometry};
ghost use Rattle.fam_format.specs.Params.{SoundParams};
ghost use Rattle.fam_format.specs.Reading.{slot_in, slot_words};
ghost use Rattle.fam_format.specs.ReadingLaws.{HasWords};
ghost use Rattle.fam_format.specs.Slot.{spelling};
ghost use Rattle.fam_commands.specs.Table.{Answer, append_rows, rows};
ghost use Rattle.fam_protocol.specs.Core.{IsHistory};
ghost use Rattle.fam_refuted.specs.Refused.{Begins, Misleads, Misreads, Misses, Scene, SceneOf, TearsEntry, answers_early, appends, drops_early, drops_gate, fetches_gate, fetches_slot, gate_first, history, keeps_gate, keeps_slots, next, old_history, reads_well, sends_late};
ghost use Rattle.fam_protocol.specs.Invariant.{Known, Invariant, solo, no_hosts};
ghost use Rattle.fam_rules.specs.Decide.{decide};
ghost use Rattle.fam_rules.specs.Reply.{Appended};

/// The scenes of the laws below.
pub fn each_scene_begins()
    // There is one for any sound parameters and any two hosts.
    ensures some { (p : Params) (master reader : ℕ) → SoundParams p → master ≢ reader
        → SceneOf p master reader }

    // Where memory has words of 64 bits, a slot that isn't the new entry's spelling doesn't read as it.
    ensures other { (c : Scene) → HasWords (line_at c.image)
        → slot_words (line_at c.image) c.params (next c) ≢ spelling (geometry c.params) c.entry (next c)
        → slot_in (line_at c.image) c.params (next c) ≢ Ok c.entry }

    // What the protocol keeps holds at its beginning, and with the new entry its entries are a history.
    ensures invariant { (c : Scene) → Begins c
        → Invariant (Known c.params (old_history c) (next c)) (length c.image) no_hosts (solo c.image) }
    ensures history { (c : Scene) → Begins c → IsHistory c.params (history c) }

    // The master's operations are the rows that the table has behind its decision. The last one answers.
    ensures table { (c : Scene) → Begins c
        → append_rows c.cmd c.params (next c) (decide c.params c.params.master c.entries c.cmd)
        ≡ rows (appends c) (Answer (Appended (next c))) }
{}

/// A reader must drop a slot's lines after it has loaded the gate. One that drops every slot before may have one back
/// by an early fetch, as it was. Then the master appends and answers, and the reader is given a gate that counts the
/// new entry, and words of its slot that don't read as it.
pub fn an_early_drop_reads_an_old_slot()
    ensures { (c : Scene) → Begins c → Misreads c (drops_early c) (keeps_slots c) }
{}

/// A reader must drop a slot's lines though it has never loaded them. An early fetch may have brought them before
/// the entry was stored, and nobody tells the reader's cache that they are stale.
pub fn without_a_drop_an_old_slot_is_read()
    ensures { (c : Scene) → Begins c → Misreads c (fetches_slot c) (keeps_slots c) }
{}

/// A reader must drop the gate's line before it loads the gate. Else it may be given a gate that its cache fetched
/// before the entry was published, though the master has answered before the reader begins.
pub fn without_a_drop_an_old_gate_is_read()
    ensures { (c : Scene) → Begins c → Misses c (fetches_gate c) (keeps_gate c) }
{}

/// A master must send the whole slot before it stores the gate: to ask for its lines isn't enough. Where no fence stands
/// between, its cache may send the gate's line first, by itself. Then a reader that drops each line before it loads it is
/// given a gate that counts the entry, and words of its slot that don't read as it.
pub fn a_gate_before_its_slot_tears_the_entry()
    ensures { (c : Scene) → Begins c → TearsEntry c (gate_first c) (reads_well c) (sends_late c) }
{}

/// A master must wait until the gate is sent before it answers: to ask for its line isn't enough. Where it answers behind
/// the write-back, a reader that begins then, and drops the gate's line before it loads it, is given a gate below what
/// that answer settles.
pub fn an_answer_before_its_fence_is_missed()
    ensures { (c : Scene) → Begins c → Misleads c (answers_early c) (drops_gate c) }
{}
