//! The test of a box, by the media alone.

ghost use Rattle.std.specs.Prelude.{ℕ, ◌≡◌, ◌<◌, ◌≤◌, IfErr, OnOk, Err, true};
ghost use Rattle.fam_base.specs.Image.{line_at};
ghost use Rattle.fam_media.specs.Causes.{IsSteady, Rose};
ghost use Rattle.fam_media.specs.Outside.{IfModelled};
ghost use Rattle.fam_rules.specs.Place.{IsProperEntry};
ghost use Rattle.fam_rules.specs.Written.{file_line};
ghost use Rattle.fam_mail.specs.Boxes.{IsBox, box_of, capacity_of};
ghost use Rattle.fam_mail.specs.Checks.{IfFailed, IfWrong, IsBoxCounted, IsReadLine};

use crate::record::wrong_word;
use fam_base::{Entry, LineNo};
use fam_content::file_line;
use fam_format::LINE_BYTES;
use fam_media::Media;

/// What makes a box none.
#[derive(Clone, Copy)]
pub enum WrongBox {
    /// The gate counts more records than the box has room for.
    BadBox { gate: u64, capacity: u64 },
    /// The record of this number, below the gate, is none: the least one.
    BadRecord(u64),
}

/// Why a box is not taken.
#[derive(Clone, Copy)]
pub enum BoxFault {
    /// It is no box.
    Wrong(WrongBox),
    /// The media failed at this line.
    MediaFault(LineNo),
}

/// Reads the gate and the records below it, and says whether they are a box: `Wrong` comes exactly where the file's lines are
/// read as none. `MediaFault` comes where the media failed, at the gate's line or at that of a record below the gate; where
/// the image is modelled the records before that one are records.
pub fn check_box<M: Media>(media: &mut M, entry: &Entry) -> Result<(), BoxFault>
    requires file { IsProperEntry entry.now }
    requires room { 128 ≤ entry.now.size }
    requires within { (j : ℕ) → j ≤ capacity_of entry.now.size → file_line entry.now j < M.size media.old }

    ensures read { OnOk result (IfModelled (M.state media.old).image (λ image.
        IsBox (file_line entry.now) (capacity_of entry.now.size) (line_at image))) }
    ensures wrong { IfErr result (λ fault. IfWrong fault (λ wrong. IfModelled (M.state media.old).image (λ image.
        box_of (file_line entry.now) (capacity_of entry.now.size) (line_at image) ≡ Err wrong))) }
    ensures cause { IfErr result (λ fault. IfFailed fault (λ line. Rose (M.state media.old).faults (M.state media.new).faults)) }
    ensures line { IfErr result (λ fault. IfFailed fault (λ line. IsReadLine (file_line entry.now) (capacity_of entry.now.size)
        (M.state media.old).image line.0)) }

    // A media that counts exactly has failed once where the fault tells it, and never else.
    ensures quiet { OnOk result (M.exact ≡ true → (M.state media.new).faults ≡ (M.state media.old).faults) }
    ensures counted { IfErr result (λ fault. M.exact ≡ true → IsBoxCounted (M.state media.old).faults (M.state media.new).faults fault) }
    ensures same { (M.state media.new).image ≡ (M.state media.old).image }
    ensures steady { IsSteady M.size M.state media.old media.new }
{
    let capacity = (entry.size / LINE_BYTES).saturating_sub(1);
    let first = file_line(entry, 0);
    let gate = match media.read(first) {
        Ok(words) => words[0],
        Err(_) => return Err(BoxFault::MediaFault(first)),
    };
    if capacity < gate {
        return Err(BoxFault::Wrong(WrongBox::BadBox { gate, capacity }));
    }
    for i in 0..gate {
        let line = file_line(entry, 1 + i);
        match media.read(line) {
            Ok(words) => {
                if wrong_word(&words).is_some() {
                    return Err(BoxFault::Wrong(WrongBox::BadRecord(i)));
                }
            }
            Err(_) => return Err(BoxFault::MediaFault(line)),
        }
    }
    Ok(())
}
