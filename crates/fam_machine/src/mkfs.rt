//! What all operations of making a file system come to.

ghost use Rattle.std.specs.Prelude.{◌≡◌, ◌*◌, ◌<◌, ◌≤◌, ℕ, Bool, Option, length, map as map_list, slice_index};
ghost use Rattle.fam_base.specs.declared.entry.Params.{Params};
ghost use Rattle.fam_base.specs.declared.line.LineNo.{LineNo};
ghost use Rattle.fam_base.specs.Image.{Image, eight, line_at};
ghost use Rattle.fam_format.specs.Layout.{least_lines};
ghost use Rattle.fam_format.specs.declared.faults.SuperFault.TheVariants as super;
ghost use Rattle.fam_format.specs.Params.{SoundParams};
ghost use Rattle.fam_format.specs.Reading.{NoSuperblock, reading};
ghost use Rattle.fam_machine.specs.Cuts.{Cuts};
ghost use Rattle.fam_machine.specs.Caches.{Cache, IsClean};
ghost use Rattle.fam_machine.specs.Mkfs.{IsHeadSent, IsOldNoneOrNew, drop_lines, expected_ops, first_sent, halted_image, halted_ops, mkfs_ops, read_ops};
ghost use Rattle.fam_machine.specs.Operations.{Machine, machine, operated_all};
ghost use Rattle.fam_machine.specs.EightWords.{HasEightWords};
ghost use Rattle.fam_rules.specs.Place.{line_bytes};
ghost use Rattle.fam_rules.specs.Written.{format_puts, formatted};

/// A new file system is made by 81 operations, of which the first 27 read. They leave a new file system in memory,
/// over what the reading left there, and the cache of the reading without the lines that were put (`leaves`). From a
/// cache that has nothing to send, as an empty one, the reading leaves memory as it is (`reads`), so all of them leave
/// a new file system over what stood there (`clean`). The cache has nothing to send then either (`reads_sent`,
/// `sent`).
pub fn a_file_system_is_made()
    ensures read_count { length read_ops ≡ 27 }
    ensures count { (p : Params) → length (mkfs_ops p) ≡ 81 }
    ensures leaves { (p : Params) (m : Machine) → HasEightWords m
        → operated_all (mkfs_ops p) m ≡ machine (formatted (operated_all read_ops m).image p)
        (drop_lines (format_puts p) (operated_all read_ops m).cache) }
    ensures reads { (image : Image) (cache : Cache) → map_list eight image ≡ image → IsClean cache
        → (operated_all read_ops (machine image cache)).image ≡ image }
    ensures clean { (p : Params) (image : Image) (cache : Cache) → map_list eight image ≡ image → IsClean cache
        → (operated_all (mkfs_ops p) (machine image cache)).image ≡ formatted image p }
    ensures reads_sent { (image : Image) (cache : Cache) → map_list eight image ≡ image → IsClean cache
        → IsClean (operated_all read_ops (machine image cache)).cache }
    ensures sent { (p : Params) (image : Image) (cache : Cache) → map_list eight image ≡ image → IsClean cache
        → IsClean (operated_all (mkfs_ops p) (machine image cache)).cache }
{}

/// Where the media fails in one of these operations, the image that is left reads as before, as no superblock, or as
/// the new file system. The maker's cache must have nothing to send of lines 0, 1 and 2, which the first 27 operations
/// drop; any other line may be dirty, since all eight words of a line are stored before it is sent. So it is also of a
/// maker that is to halt.
pub fn a_cut_mkfs_is_old_none_or_new()
    ensures { (p : Params) (m left : Machine) (force : Bool) (halt : Option ℕ) (line : LineNo) → SoundParams p
        → least_lines ≤ length m.image → p.device ≤ line_bytes * length m.image → map_list eight m.image ≡ m.image
        → HasEightWords m → IsHeadSent m.cache → Cuts (expected_ops force halt p m) m line left
        → IsOldNoneOrNew p m.image left.image }
{}

/// Where the maker halts after the first `k` operations, memory has the lines that were put (`leaves`), from a cache that
/// has nothing to send of lines 0, 1 and 2. Before the first is sent these are none, so memory is as before (`before`).
/// From then on word 0 of line 0 is zero (`cleared`), and there is no superblock (`none`).
pub fn a_halted_mkfs_leaves_its_first_lines()
    ensures leaves { (k : ℕ) (p : Params) (m : Machine) → map_list eight m.image ≡ m.image → HasEightWords m
        → IsHeadSent m.cache → (operated_all (halted_ops k p) m).image ≡ halted_image k p m.image }
    ensures before { (k : ℕ) (p : Params) (image : Image) → k < first_sent → halted_image k p image ≡ image }
    ensures cleared { (k : ℕ) (p : Params) (image : Image) → first_sent ≤ k → 0 < length image
        → slice_index (line_at (halted_image k p image) 0) 0 ≡ 0 }
    ensures none { (k : ℕ) (p : Params) (image : Image) → first_sent ≤ k → 0 < length image
        → reading (halted_image k p image) ≡ NoSuperblock (super.NoSuper 0) }
{}
