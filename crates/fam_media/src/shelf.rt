//! A shelf: files to read from, by name.

ghost use Rattle.std.specs.Prelude.{◌≡◌, ◌⊎◌, ◌<◌, ◌≤◌, IfOk, OnErr, length, take, drop};
ghost use Rattle.std.specs.Option.{option_map};
ghost use Rattle.std.specs.FinMap as map;
ghost use Rattle.fam_media.specs.Causes.{HasCause, Rose};
ghost use Rattle.fam_media.specs.Outside.{IfModelled};
ghost use Rattle.fam_media.specs.Files.{HasNone, IsShort, bytes_of};
ghost use Rattle.fam_media.specs.States.{ShelfState};

use crate::media::Failed;

/// Files by name. No call changes them.
pub trait Shelf {
    /// The bytes of each name, where they are modelled, how often a call failed, and how often a read gave no byte where
    /// the file's size promised one. No count falls.
    ghost state: { Self → ShelfState };

    /// Returns the size of a file in bytes, and `None` where no file has the name.
    fn size(&mut self, name: &str) -> Result<Option<u64>, Failed>
        ensures value { IfOk result
            (λ size. IfModelled (state self.old).files
            (λ files. size ≡ option_map length (map.get files name.now))) }
        ensures same { (state self.new).files ≡ (state self.old).files }
        ensures cause { HasCause (state self.old).faults (state self.new).faults result }
        ensures later { (state self.old).shorts ≤ (state self.new).shorts }
        ensures shorts { IfModelled (state self.old).files (λ _. (state self.new).shorts ≡ (state self.old).shorts) };

    /// Reads a file's bytes from an offset on into the front of `into`, and returns how many. It is 0 only
    /// where the file has no byte there, or where the file is shorter than its size says.
    fn read_at(&mut self, name: &str, offset: u64, into: &mut [u8]) -> Result<usize, Failed>
        requires room { 0 < length into.old }

        ensures within { IfOk result (λ n. n ≤ length into.old) }
        ensures bytes { IfOk result (λ n. IfModelled (state self.old).files
            (λ files. take n into.new ≡ take n (drop offset (bytes_of files name.now)))) }
        ensures rest { IfOk result (λ n. drop n into.new ≡ drop n into.old) }
        ensures none { IfOk result (λ n. n ≡ 0 →
            HasNone (state self.old).files name.now offset ⊎ Rose (state self.old).shorts (state self.new).shorts) }
        ensures short { IfOk result (λ n. IfModelled (state self.old).files (λ files.
            (state self.old).shorts < (state self.new).shorts → IsShort files name.now offset n)) }

        // A read that fails leaves `into` as it was, and is no short one.
        ensures err { OnErr result (into.new ≡ into.old) }
        ensures whole { OnErr result (IfModelled (state self.old).files (λ _. (state self.new).shorts ≡ (state self.old).shorts)) }

        ensures same { (state self.new).files ≡ (state self.old).files }
        ensures cause { HasCause (state self.old).faults (state self.new).faults result }
        ensures later { (state self.old).shorts ≤ (state self.new).shorts };
}
