//! Laws of images: what a written line, a torn line and the normal form mean. `specs/Image.antt` has the words.
//!
//! A torn write leaves each word of a line old or new, by a mask. With no bit it changes nothing, and with
//! all bits it is the write. A told image has eight words in each line, and writes keep that.

ghost use Rattle.std.specs.Prelude.{◌≡◌, ◌≢◌, ◌<◌, ℕ, List, Some, length};
ghost use Rattle.fam_base.specs.Image.{Image, IsNormal, eight, line_at, masked, with_line, with_masked};

/// A written line is read back, and every other line reads as before.
pub fn line_is_written()
    ensures same { (image : Image) (at : ℕ) (words : List ℕ) → at < length image
        → line_at (with_line at words image) at ≡ eight words }
    ensures others { (image : Image) (at : ℕ) (words : List ℕ) (other : ℕ) → other ≢ at
        → line_at (with_line at words image) other ≡ line_at image other }
{}

/// A write of no masked word changes nothing, and one of all masked words is the whole write.
pub fn mask_of_none_or_all()
    ensures none { (image : Image) (at : ℕ) (words : List ℕ) → IsNormal (Some image)
        → with_masked at words 0 image ≡ image }
    ensures all { (image : Image) (at : ℕ) (words : List ℕ)
        → with_masked at words 255 image ≡ with_line at words image }
{}

/// Writes, whole or torn, keep the normal form.
pub fn writes_keep_the_form()
    ensures whole { (image : Image) (at : ℕ) (words : List ℕ) → IsNormal (Some image)
        → IsNormal (Some (with_line at words image)) }
    ensures torn { (image : Image) (at : ℕ) (words : List ℕ) (mask : ℕ) → IsNormal (Some image)
        → IsNormal (Some (with_masked at words mask image)) }
{}
