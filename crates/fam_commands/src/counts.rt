//! The numbers of operations that commands take which read every slot: of any shape of slots, and of the first format's.

ghost use Rattle.std.specs.Prelude.{◌≡◌, ◌+◌, ◌-◌, ◌*◌, ℕ, length};
ghost use Rattle.fam_base.specs.declared.cmd.Content.{Content};
ghost use Rattle.fam_base.specs.declared.entry.Entry.{Entry};
ghost use Rattle.fam_base.specs.declared.entry.Params.{Params};
ghost use Rattle.fam_commands.specs.Counts.{append_steps, decided_steps, head_steps, line_steps, log_steps, slot_steps, steps_by};
ghost use Rattle.fam_commands.specs.Table.{append_ops, slot_ops, words_before};
ghost use Rattle.fam_format.specs.Layout.{Geometry, first_format, geometry};
ghost use Rattle.fam_rules.specs.declared.answers.LogState.TheVariants.{Sound};
ghost use Rattle.fam_rules.specs.Reply.{Appended};
ghost use Rattle.fam_rules.specs.Written.{lines_of};

/// Superblock, header and gate take 31 operations, a line takes 9, and a slot of `w` lines `9 w + 1`: so a replay of
/// the slots from `k` on, up to slot `n`, takes `32 + (9 w + 1)(n - k)`, and a check of the whole file system as many
/// for all slots. An append of a file of `d` lines takes `9 d + 9 w + 4` more. These are the operations of the table,
/// and `26 + 8 w n` words are loaded before slot `n`.
pub fn each_shape_takes_these_counts()
    ensures head { head_steps ≡ 31 }
    ensures line { line_steps ≡ 9 }
    ensures slot { (g : Geometry) → slot_steps g ≡ 9 * g.lines + 1 }
    ensures slot_ops { (p : Params) (i : ℕ) → length (slot_ops p i) ≡ slot_steps (geometry p) }
    ensures replay { (g : Geometry) (k n : ℕ) → decided_steps g k n ≡ 32 + (9 * g.lines + 1) * (n - k) }
    ensures append { (g : Geometry) (d : ℕ) → append_steps g d ≡ 9 * d + 9 * g.lines + 4 }
    ensures append_ops { (p : Params) (seq : ℕ) (e : Entry) (fill : Content) →
        length (append_ops p seq e fill) ≡ append_steps (geometry p) (lines_of e.size) }
    ensures appended { (g : Geometry) (k n d seq : ℕ) →
        steps_by g k n d (Appended seq) ≡ 36 + 9 * g.lines + (9 * g.lines + 1) * (n - k) + 9 * d }
    ensures survey { (g : Geometry) (entries slots : ℕ) →
        log_steps g 0 (Sound entries slots) ≡ 32 + (9 * g.lines + 1) * slots }
    ensures words { (p : Params) (n : ℕ) → words_before p 0 n ≡ 26 + 8 * (geometry p).lines * n }
{}

/// In the first format a slot takes 73 operations: so a replay of `n` slots takes 32 + 73 n. An append to a log of `n`
/// entries, of a file of `d` lines, takes 9 d + 76 more. These are the operations of the table, and 26 + 64 n words are
/// loaded before slot `n`.
pub fn the_first_format_takes_these_counts()
    ensures head { head_steps ≡ 31 }
    ensures line { line_steps ≡ 9 }
    ensures slot { slot_steps first_format ≡ 73 }
    ensures slot_ops { (p : Params) (i : ℕ) → p.format ≡ 1 → length (slot_ops p i) ≡ slot_steps first_format }
    ensures replay { (n : ℕ) → decided_steps first_format 0 n ≡ 32 + 73 * n }
    ensures append { (d : ℕ) → append_steps first_format d ≡ 9 * d + 76 }
    ensures append_ops { (p : Params) (seq : ℕ) (e : Entry) (fill : Content) → p.format ≡ 1 →
        length (append_ops p seq e fill) ≡ append_steps first_format (lines_of e.size) }
    ensures appended { (n d seq : ℕ) → steps_by first_format 0 n d (Appended seq) ≡ 32 + 73 * n + (9 * d + 76) }
    ensures words { (p : Params) (n : ℕ) → p.format ≡ 1 → words_before p 0 n ≡ 26 + 64 * n }
{}
