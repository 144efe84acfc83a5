//! Words of a line by a mask.

ghost use Rattle.std.specs.Prelude.{◌≡◌, ◌<◌};
ghost use Rattle.fam_base.specs.Image.{masked, masked_word};

use crate::line::{Line, Mask};

/// Word `w` after the words of `new` that the mask names were written over `old`.
fn masked_word_of(mask: Mask, new: &Line, old: &Line, w: usize) -> u64
    requires { w < 8 }
    ensures { result ≡ masked_word mask.0 new.now old.now w }
{
    if (mask.0 >> w) % 2 == 1 {
        new[w]
    } else {
        old[w]
    }
}

/// The words of `new` that the mask names, and those of `old` elsewhere: a line after a write that let only these
/// words through.
pub fn masked_line(mask: Mask, new: &Line, old: &Line) -> Line
    ensures { result ≡ masked mask.0 new.now old.now }
{
    let mut words = [0; 8];
    for w in 0..8 {
        words[w] = masked_word_of(mask, new, old, w);
    }
    words
}
