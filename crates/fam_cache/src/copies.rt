//! One line against memory: what each operation asks of the media, and what becomes of the copy.

ghost use Rattle.std.specs.Prelude.{◌≡◌, ◌<◌, IsOk, IfOk, OnOk, OnErr, is_err, true};
ghost use Rattle.std.specs.Option.{option_map};
ghost use Rattle.fam_machine.specs.Caches.{line_changed};
ghost use Rattle.fam_machine.specs.OneLine.{IsDirty, IsHeld, brought, failed_leak, failed_send, fetched, leaked, sent};
ghost use Rattle.fam_media.specs.Causes.{HasCause};
ghost use Rattle.fam_media.specs.Outside.{IfModelled};
ghost use Rattle.fam_media.specs.Plans.{count_if};
ghost use Rattle.fam_cache.specs.Effects.{FailsTo, FromMemory};
ghost use Rattle.fam_cache.specs.Blocks.{normal};

use fam_base::{LineNo, Mask, masked_line};
use fam_machine::Cell;
use fam_media::{Failed, Media};

/// The copy after a load or before a store: an absent line is brought from memory.
fn bring_copy<M: Media>(copy: Cell, media: &mut M, line: LineNo) -> Result<Cell, Failed>
    requires within { line.0 < M.size media.old }
    ensures copy { IfOk result (λ new. FromMemory (M.state media.old).image line.0
        (λ memory. normal new ≡ brought memory (normal copy))) }
    ensures idle { IsHeld (normal copy) → IsOk result }
    ensures same { IsHeld (normal copy) → media.new ≡ media.old }
    ensures image { (M.state media.new).image ≡ (M.state media.old).image }
    ensures size { M.size media.new ≡ M.size media.old }
    ensures cause { HasCause (M.state media.old).faults (M.state media.new).faults result }
    ensures counted { M.exact ≡ true → (M.state media.new).faults ≡ count_if (is_err result) (M.state media.old).faults }
{
    match copy {
        Cell::Absent => match media.read(line) {
            Ok(words) => Ok(Cell::Clean(words)),
            Err(fault) => Err(fault),
        },
        Cell::Clean(_) => Ok(copy),
        Cell::Dirty { .. } => Ok(copy),
    }
}

/// The copy after an early fetch: an absent line is brought, a clean one has its masked words refreshed.
pub(crate) fn fetch_copy<M: Media>(
    copy: Cell,
    media: &mut M,
    line: LineNo,
    mask: Mask,
) -> Result<Cell, Failed>
    requires within { line.0 < M.size media.old }
    ensures copy { IfOk result (λ new. FromMemory (M.state media.old).image line.0
        (λ memory. normal new ≡ fetched mask.0 memory (normal copy))) }
    ensures idle { IsDirty (normal copy) → IsOk result }
    ensures same { IsDirty (normal copy) → media.new ≡ media.old }
    ensures image { (M.state media.new).image ≡ (M.state media.old).image }
    ensures size { M.size media.new ≡ M.size media.old }
    ensures cause { HasCause (M.state media.old).faults (M.state media.new).faults result }
    ensures counted { M.exact ≡ true → (M.state media.new).faults ≡ count_if (is_err result) (M.state media.old).faults }
{
    match copy {
        Cell::Absent => bring_copy(copy, media, line),
        Cell::Clean(words) => match media.read(line) {
            Ok(memory) => Ok(Cell::Clean(masked_line(mask, &memory, &words))),
            Err(fault) => Err(fault),
        },
        Cell::Dirty { asked, words } => Ok(Cell::Dirty { asked, words }),
    }
}

/// Sends a dirty copy whole to memory.
pub(crate) fn send_copy<M: Media>(copy: Cell, media: &mut M, line: LineNo) -> Result<(), Failed>
    requires within { line.0 < M.size media.old }
    ensures memory { OnOk result ((M.state media.new).image
        ≡ option_map (line_changed line.0 (λ memory. sent memory (normal copy))) (M.state media.old).image) }
    ensures torn { OnErr result (IfModelled (M.state media.old).image (λ image. FailsTo line.0
        (λ through memory. failed_send through memory (normal copy)) image (M.state media.new).image)) }
    ensures idle { ¬ (IsDirty (normal copy)) → IsOk result }
    ensures same { ¬ (IsDirty (normal copy)) → media.new ≡ media.old }
    ensures size { M.size media.new ≡ M.size media.old }
    ensures cause { HasCause (M.state media.old).faults (M.state media.new).faults result }
    ensures counted { M.exact ≡ true → (M.state media.new).faults ≡ count_if (is_err result) (M.state media.old).faults }
{
    match copy {
        Cell::Absent => Ok(()),
        Cell::Clean(_) => Ok(()),
        Cell::Dirty { words, .. } => media.write(line, &words),
    }
}

/// Sends the masked words of a dirty copy to memory, by one read and one write.
pub(crate) fn leak_copy<M: Media>(
    copy: Cell,
    media: &mut M,
    line: LineNo,
    mask: Mask,
) -> Result<(), Failed>
    requires within { line.0 < M.size media.old }
    ensures memory { OnOk result ((M.state media.new).image
        ≡ option_map (line_changed line.0 (λ memory. leaked mask.0 memory (normal copy))) (M.state media.old).image) }
    ensures torn { OnErr result (IfModelled (M.state media.old).image (λ image. FailsTo line.0
        (λ through memory. failed_leak mask.0 through memory (normal copy)) image (M.state media.new).image)) }
    ensures idle { ¬ (IsDirty (normal copy)) → IsOk result }
    ensures same { ¬ (IsDirty (normal copy)) → media.new ≡ media.old }
    ensures size { M.size media.new ≡ M.size media.old }
    ensures cause { HasCause (M.state media.old).faults (M.state media.new).faults result }
    ensures counted { M.exact ≡ true → (M.state media.new).faults ≡ count_if (is_err result) (M.state media.old).faults }
{
    match copy {
        Cell::Absent => Ok(()),
        Cell::Clean(_) => Ok(()),
        Cell::Dirty { words, .. } => match media.read(line) {
            Ok(memory) => media.write(line, &masked_line(mask, &words, &memory)),
            Err(fault) => Err(fault),
        },
    }
}
