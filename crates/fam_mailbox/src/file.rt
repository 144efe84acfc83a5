//! The file at a path of an image, and the box in it.

ghost use Rattle.std.specs.Prelude.{◌≡◌, ◌*◌, ◌<◌, ◌≤◌, ℕ, IfErr, IfOk, List, Ok, OnOk, Some, length, true};
ghost use Rattle.std.specs.FinMap as map;
ghost use Rattle.fam_base.specs.Image.{Image, line_at};
ghost use Rattle.fam_base.specs.declared.entry.Kind.TheVariants as kind;
ghost use Rattle.fam_format.specs.Layout.{least_lines};
ghost use Rattle.fam_format.specs.Reading.{reading};
ghost use Rattle.fam_format.specs.Tree.{replay};
ghost use Rattle.fam_mail.specs.Boxes.{IsBox, capacity_of};
ghost use Rattle.fam_media.specs.Causes.{IsSteady};
ghost use Rattle.fam_media.specs.Outside.{IfModelled};
ghost use Rattle.fam_media.specs.States.{MediaChange, change};
ghost use Rattle.fam_replay.specs.Sources.{FailsAt, IsAskedFor, IsCounted, IsReadCaused, Tells};
ghost use Rattle.fam_rules.specs.Place.{line_bytes};
ghost use Rattle.fam_rules.specs.Written.{file_line};
ghost use Rattle.fam_mailbox.specs.Lookups.{HasFile, IsLookCaused, IsLookCounted, IsNoFile, IsFilePlaced, IsFilePlacedIn, IsSo, box_look, read_look};

use crate::fault::LookFault;
use fam_base::{Entry, Kind, Path};
use fam_format::LEAST_LINES;
use fam_mail::{BoxFault, WrongBox, check_box};
use fam_media::Media;
use fam_plan::Plan;
use fam_replay::{ReadFault, read_source};
use std::alloc::Global;

/// The fewest bytes of a box: a gate, and one record.
const LEAST_BOX: u64 = 128;

/// A fault of the lines that tell an image's entries.
fn entries_fault(fault: ReadFault) -> LookFault
    ensures told { result ≡ read_look fault }
    ensures is { (path : List ℕ) (image : Image) → least_lines ≤ length image → Tells fault (reading image)
        → FailsAt (IsAskedFor (line_at image) (line_bytes * length image)) fault → IsSo path image result }
    ensures cause { (lines : ℕ) (media : MediaChange) → IsReadCaused media.old.faults media.new.faults fault
        → FailsAt (λ at. at < lines) fault → IsLookCaused lines media result }
    ensures counted { (before now : ℕ) → IsCounted before now fault → IsLookCounted before now result }
{
    match fault {
        ReadFault::NoSuper(word) => LookFault::NoSuper(word),
        ReadFault::BadSuper {
            field,
            found,
            wanted,
        } => LookFault::BadSuper {
            field,
            found,
            wanted,
        },
        ReadFault::BadLog {
            field,
            found,
            wanted,
        } => LookFault::BadLog {
            field,
            found,
            wanted,
        },
        ReadFault::BadEntry { seq, reason } => LookFault::BadEntry { seq, reason },
        ReadFault::MediaFault(line) => LookFault::MediaFault(line),
        ReadFault::OutOfMemory => LookFault::OutOfMemory,
    }
}

/// The file at a path of entries, or why there is none: `NotFound` and `IsDirectory`, with the number of entries.
fn file_in(plan: &Plan, path: &Path) -> Result<Entry, LookFault>
    ensures there { IfOk result (λ entry. map.get (replay plan.now.entries) path.now ≡ Some entry) }
    ensures file { IfOk result (λ entry. entry.kind ≡ kind.File) }
    ensures placed { IfOk result (IsFilePlacedIn plan.now.params) }
    ensures none { IfErr result (IsNoFile plan.now.entries path.now) }
{
    plan.each_entry_joins();
    let m = plan.count();
    match plan.tree().get(path) {
        None => Err(LookFault::NotFound(m)),
        Some(entry) => match entry.kind {
            Kind::Directory => Err(LookFault::IsDirectory(m)),
            Kind::File => Ok(entry),
        },
    }
}

/// The entry of the file at a path of an image, whose log is read once, as a `read` reads it.
fn find_file<M: Media>(alloc: Global, media: &mut M, path: &Path) -> Result<Entry, LookFault>
    ensures found { IfOk result (λ entry. IfModelled (M.state media.old).image (λ image. HasFile path.now image entry)) }
    ensures placed { IfOk result (IsFilePlaced (M.size media.old)) }
    ensures fault { IfErr result (λ fault. IfModelled (M.state media.old).image (λ image. IsSo path.now image fault)) }
    ensures cause { IfErr result (IsLookCaused (M.size media.old) (change M.state media.old media.new)) }
    ensures quiet { OnOk result (M.exact ≡ true → (M.state media.new).faults ≡ (M.state media.old).faults) }
    ensures counted { IfErr result (λ fault. M.exact ≡ true → IsLookCounted (M.state media.old).faults (M.state media.new).faults fault) }
    ensures same { (M.state media.new).image ≡ (M.state media.old).image }
    ensures steady { IsSteady M.size M.state media.old media.new }
{
    let lines = media.lines();
    if lines < LEAST_LINES {
        return Err(LookFault::ImageSmall(lines));
    }
    match read_source(alloc, media) {
        Ok(plan) => file_in(&plan, path),
        Err(fault) => Err(entries_fault(fault)),
    }
}

/// A fault of a box.
fn box_fault(fault: BoxFault) -> LookFault
    ensures { result ≡ box_look fault }
{
    match fault {
        BoxFault::Wrong(WrongBox::BadBox { gate, capacity }) => {
            LookFault::BadBox { gate, capacity }
        }
        BoxFault::Wrong(WrongBox::BadRecord(i)) => LookFault::BadRecord(i),
        BoxFault::MediaFault(line) => LookFault::MediaFault(line),
    }
}

/// The entry of the file at a path of an image, in which a box stands: the log is read once, and then the gate and the records
/// below it. The first fault that is so comes, unless the media fails or no memory is left; the image is as it was.
pub fn find_box<M: Media>(alloc: Global, media: &mut M, path: &Path) -> Result<Entry, LookFault>
    ensures found { IfOk result (λ entry. IfModelled (M.state media.old).image (λ image. HasFile path.now image entry)) }
    ensures room { IfOk result (λ entry. 128 ≤ entry.size) }
    ensures placed { IfOk result (IsFilePlaced (M.size media.old)) }
    ensures read { IfOk result (λ entry. IfModelled (M.state media.old).image (λ image.
        IsBox (file_line entry) (capacity_of entry.size) (line_at image))) }
    ensures fault { IfErr result (λ fault. IfModelled (M.state media.old).image (λ image. IsSo path.now image fault)) }
    ensures cause { IfErr result (IsLookCaused (M.size media.old) (change M.state media.old media.new)) }

    // A media that counts exactly has failed once where the fault tells it, and never else.
    ensures quiet { OnOk result (M.exact ≡ true → (M.state media.new).faults ≡ (M.state media.old).faults) }
    ensures counted { IfErr result (λ fault. M.exact ≡ true → IsLookCounted (M.state media.old).faults (M.state media.new).faults fault) }
    ensures same { (M.state media.new).image ≡ (M.state media.old).image }
    ensures steady { IsSteady M.size M.state media.old media.new }
{
    let entry = match find_file(alloc, media, path) {
        Ok(entry) => entry,
        Err(fault) => return Err(fault),
    };
    if entry.size < LEAST_BOX {
        return Err(LookFault::BoxSmall(entry.size));
    }
    match check_box(media, &entry) {
        Ok(()) => Ok(entry),
        Err(fault) => Err(box_fault(fault)),
    }
}
