//! Making a file system: what is refused, what is read, and what is written.

ghost use Rattle.std.specs.Prelude.{◌≡◌, ◌≢◌, ◌*◌, ◌+◌, ◌++◌, ◌≤◌, ◌<◌, IfOk, IfErr, IfSome, OnOk, OnErr, Some, None, Ok, take, true, ℕ};
ghost use Rattle.fam_base.specs.Image.{Image, line_at};
ghost use Rattle.fam_format.specs.Layout.{gate_line, least_lines, log_line};
ghost use Rattle.fam_format.specs.Reading.{super_in};
ghost use Rattle.fam_machine.specs.Caches.{cell_at};
ghost use Rattle.fam_machine.specs.Operations.{machine, operated_all};
ghost use Rattle.fam_rules.specs.Place.{line_bytes};
ghost use Rattle.fam_machine.specs.Mkfs as spec;
ghost use Rattle.fam_machine.specs.Mkfs.{expected_by};
ghost use Rattle.fam_mkfs.specs.Ends.{MkfsEnds, done_end};
ghost use Rattle.fam_mkfs.specs.Parts.{HeldLines, IsElsewhere, Stands, header_puts, word_puts};
ghost use Rattle.fam_machine.specs.OneLine.{IsHeld};
ghost use Rattle.fam_mkfs.specs.Refusals as refusals;
ghost use Rattle.fam_media.specs.Causes.{IsSteady, Rose};
ghost use Rattle.fam_cache.specs.Runs.{AreCut, AreDone, over};

use crate::lines::{FailedAt, read_line, write_line};
use fam_base::{Line, LineNo, OutOfMemory, Params};
use fam_cache::HostCache;
use fam_entry::spell_log;
use fam_format::{GATE_LINE, LINE_BYTES, LOG_LINE, LOG_OFFSET, shape_of};
use fam_machine::MkfsRequest;
use fam_media::{MOST_LINES, Media};
use fam_super::{LOG_LIMIT, Super, is_unit, read_super};
use uuid::Uuid;

/// How many lines are brought: 0, 1 and 2, the gate's, the log's first one, and 0 again.
const ROOM: u64 = 6;

/// How many operations read.
const READS: u64 = 27;

/// How many operations put a line.
const PUTS: u64 = 9;

/// How many operations write.
const WRITES: u64 = 54;

/// How many of them put gate and header.
const HEADER_WRITES: u64 = 18;

/// After how many operations a maker halts at most: one is always left.
const MOST_HALTED: u64 = 80;

/// How making a file system ended.
#[derive(Clone, Copy, Debug, PartialEq, Eq)]
pub enum MkfsEnd {
    /// A file system with these parameters stands on the media.
    Made(Params),
    /// No unit, or no length of a log with this unit. Nothing was done.
    BadGeometry { unit: u64, log: u64 },
    /// The device has fewer bytes than are needed. Nothing was done.
    TooSmall { need: u64, have: u64 },
    /// A file system with this UUID stands there already. Lines 0, 1 and 2 were read, and nothing else was done.
    HasSuper(Uuid),
    /// The media failed at this line. The operations before were done.
    Failed(LineNo),
    /// The maker is to halt: the first operations, so many of them as were asked for, were done.
    Halted(u64),
}

/// Whether a file system can have this unit and a log of so many bytes.
fn is_geometry(unit: u64, log: u64) -> bool
    ensures { result ≡ spec.is_geometry unit log }
{
    is_unit(unit) && log > 0 && log % unit == 0 && log <= LOG_LIMIT
}

/// The parameters that are asked for, of the host `me`, on a device of so many lines.
pub fn asked(request: &MkfsRequest, me: Uuid, lines: u64) -> Params
    requires within { lines ≤ MOST_LINES }
    ensures { result ≡ spec.asked request.now me lines }
{
    Params {
        format: request.format,
        log_length: request.log,
        slots: (request.log / shape_of(request.format).bytes).saturating_sub(1),
        unit: request.unit,
        device: LINE_BYTES * lines,
        fs: request.fs,
        master: me,
    }
}

/// What is refused before anything is done, on a device of so many bytes: `BadGeometry`, or else `TooSmall`.
///
/// `mkfs` asks it first. So who tests it before, and then other causes of its own, calls `mkfs` where it is `None`, and
/// neither of these two comes then.
pub fn refusal(unit: u64, log: u64, have: u64) -> Option<MkfsEnd>
    ensures { result ≡ refusals.refusal unit log have }
{
    if !is_geometry(unit, log) {
        return Some(MkfsEnd::BadGeometry { unit, log });
    }
    let need = LOG_OFFSET + log + unit;
    if have < need {
        return Some(MkfsEnd::TooSmall { need, have });
    }
    None
}

/// Lines 0, 1 and 2.
fn read_super_lines<M: Media>(cache: &mut HostCache, media: &mut M) -> Result<[Line; 3], FailedAt>
    requires within { 2 < M.size media.old }
    requires room { 3 ≤ cache.old.spare }

    ensures done { OnOk result (AreDone spec.read_ops
        (over (M.state media.old).image cache.old.lines) (over (M.state media.new).image cache.new.lines)) }
    ensures cut { IfErr result (λ at. AreCut spec.read_ops at.0
        (over (M.state media.old).image cache.old.lines) (over (M.state media.new).image cache.new.lines)) }
    ensures found { IfOk result (λ lines. (image : Image) → (M.state media.old).image ≡ Some image
        → (have : ℕ) → super_in (line_at lines) have
        ≡ super_in (line_at (operated_all spec.read_ops (machine image cache.old.lines)).image) have) }
    ensures held { OnOk result (HeldLines cache.new.lines) }
    ensures others { (line : ℕ) → IsElsewhere line
        → cell_at cache.new.lines line ≡ cell_at cache.old.lines line }
    ensures spare { OnOk result (cache.old.spare ≤ cache.new.spare + 3) }
    ensures within { IfErr result (λ at. at.0.0 < M.size media.old) }
    ensures rose { OnErr result (Rose (M.state media.old).faults (M.state media.new).faults) }
    ensures steady { IsSteady M.size M.state media.old media.new }
{
    let magic = read_line(cache, media, LineNo(0))?;
    let first = read_line(cache, media, LineNo(1))?;
    let second = read_line(cache, media, LineNo(2))?;
    Ok([magic, first, second])
}

/// The UUID of a file system that stands there and isn't to be written over.
fn standing(lines: &[Line; 3], have: u64, force: bool) -> Option<Uuid>
    ensures none { result ≡ None → spec.goes_on force (super_in (line_at lines.now) have) ≡ true }
    ensures some { IfSome result (λ id. Stands force (super_in (line_at lines.now) have) id) }
{
    if force {
        return None;
    }
    match read_super(lines, have) {
        Ok(found) => Some(found.fs),
        Err(_) => None,
    }
}

/// How many operations are done of those that write, by after how many of all the maker halts.
fn writes(halt: Option<u64>) -> u64
    ensures { (p : Params) → expected_by true halt p ≡ spec.read_ops ++ take result (spec.write_ops p) }
{
    match halt {
        Some(most) => most.min(MOST_HALTED).saturating_sub(READS),
        None => WRITES,
    }
}

/// Puts the gate's line with zeros and the log's first line, by the first so many of 18 operations.
fn write_header<M: Media>(
    cache: &mut HostCache,
    media: &mut M,
    header: &Line,
    most: u64,
) -> Result<(), FailedAt>
    requires within { least_lines ≤ M.size media.old }
    requires room { 2 ≤ cache.old.spare }

    ensures done { OnOk result (AreDone (take most (header_puts header.now))
        (over (M.state media.old).image cache.old.lines) (over (M.state media.new).image cache.new.lines)) }
    ensures cut { IfErr result (λ at. AreCut (take most (header_puts header.now)) at.0
        (over (M.state media.old).image cache.old.lines) (over (M.state media.new).image cache.new.lines)) }
    ensures others { (line : ℕ) → line ≢ gate_line → line ≢ log_line
        → cell_at cache.new.lines line ≡ cell_at cache.old.lines line }
    ensures spare { cache.old.spare ≤ cache.new.spare + 2 }
    ensures within { IfErr result (λ at. at.0.0 < M.size media.old) }
    ensures rose { OnErr result (Rose (M.state media.old).faults (M.state media.new).faults) }
    ensures steady { IsSteady M.size M.state media.old media.new }
{
    write_line(cache, media, LineNo(GATE_LINE), &[0; 8], most)?;
    let most = most.saturating_sub(PUTS);
    write_line(cache, media, LineNo(LOG_LINE), header, most)
}

/// Puts lines 1 and 2, and then line 0, by the first so many of 27 operations.
fn write_words<M: Media>(
    cache: &mut HostCache,
    media: &mut M,
    magic: &Line,
    first: &Line,
    second: &Line,
    most: u64,
) -> Result<(), FailedAt>
    requires within { 2 < M.size media.old }
    requires prefix { IsHeld (cell_at cache.old.lines 1) }
    requires rest { IsHeld (cell_at cache.old.lines 2) }
    requires room { 1 ≤ cache.old.spare }

    ensures done { OnOk result (AreDone (take most (word_puts magic.now first.now second.now))
        (over (M.state media.old).image cache.old.lines) (over (M.state media.new).image cache.new.lines)) }
    ensures cut { IfErr result (λ at. AreCut (take most (word_puts magic.now first.now second.now)) at.0
        (over (M.state media.old).image cache.old.lines) (over (M.state media.new).image cache.new.lines)) }
    ensures others { (line : ℕ) → line ≢ 0 → line ≢ 1 → line ≢ 2
        → cell_at cache.new.lines line ≡ cell_at cache.old.lines line }
    ensures within { IfErr result (λ at. at.0.0 < M.size media.old) }
    ensures rose { OnErr result (Rose (M.state media.old).faults (M.state media.new).faults) }
    ensures steady { IsSteady M.size M.state media.old media.new }
{
    write_line(cache, media, LineNo(1), first, most)?;
    let most = most.saturating_sub(PUTS);
    write_line(cache, media, LineNo(2), second, most)?;
    let most = most.saturating_sub(PUTS);
    write_line(cache, media, LineNo(0), magic, most)
}

/// Writes superblock, header and gate, by the first so many of 54 operations. Line 0 is cleared first, and has the magic
/// last.
fn write_super<M: Media>(
    cache: &mut HostCache,
    media: &mut M,
    params: &Params,
    most: u64,
) -> Result<(), FailedAt>
    requires within { least_lines ≤ M.size media.old }
    requires held { HeldLines cache.old.lines }
    requires room { 3 ≤ cache.old.spare }

    ensures done { OnOk result (AreDone (take most (spec.write_ops params.now))
        (over (M.state media.old).image cache.old.lines) (over (M.state media.new).image cache.new.lines)) }
    ensures cut { IfErr result (λ at. AreCut (take most (spec.write_ops params.now)) at.0
        (over (M.state media.old).image cache.old.lines) (over (M.state media.new).image cache.new.lines)) }
    ensures others { (line : ℕ) → IsElsewhere line
        → cell_at cache.new.lines line ≡ cell_at cache.old.lines line }
    ensures within { IfErr result (λ at. at.0.0 < M.size media.old) }
    ensures rose { OnErr result (Rose (M.state media.old).faults (M.state media.new).faults) }
    ensures steady { IsSteady M.size M.state media.old media.new }
{
    let [magic, first, second] = Super::spell(params);
    let header = spell_log(params);
    write_line(cache, media, LineNo(0), &[0; 8], most)?;
    let most = most.saturating_sub(PUTS);
    write_header(cache, media, &header, most)?;
    let most = most.saturating_sub(HEADER_WRITES);
    write_words(cache, media, &magic, &first, &second, most)
}

/// How it ends where all that was expected was done.
fn end_of(params: &Params, halt: Option<u64>) -> MkfsEnd
    ensures { result ≡ done_end params.now halt }
{
    match halt {
        Some(most) => MkfsEnd::Halted(most),
        None => MkfsEnd::Made(*params),
    }
}

/// Reads lines 0, 1 and 2, and makes a file system where none stands in the way, up to where its maker halts.
fn make<M: Media>(
    cache: &mut HostCache,
    media: &mut M,
    params: &Params,
    force: bool,
    halt: Option<u64>,
) -> MkfsEnd
    requires within { least_lines ≤ M.size media.old }
    requires room { 6 ≤ cache.old.spare }

    ensures ends { MkfsEnds params.now force halt (M.size media.old)
        (over (M.state media.old).image cache.old.lines) (over (M.state media.new).image cache.new.lines)
        (M.state media.old).faults (M.state media.new).faults result }
    ensures others { (line : ℕ) → IsElsewhere line
        → cell_at cache.new.lines line ≡ cell_at cache.old.lines line }
    ensures steady { IsSteady M.size M.state media.old media.new }
{
    let lines = match read_super_lines(cache, media) {
        Ok(lines) => lines,
        Err(FailedAt(line)) => return MkfsEnd::Failed(line),
    };
    if let Some(id) = standing(&lines, params.device, force) {
        return MkfsEnd::HasSuper(id);
    }
    match write_super(cache, media, params, writes(halt)) {
        Ok(()) => end_of(params, halt),
        Err(FailedAt(line)) => MkfsEnd::Failed(line),
    }
}

/// Makes the file system that is asked for through the cache of its maker, which has the UUID `me`. The device is the
/// whole media. Where the maker is to halt, only the first operations are done, so many of them as are asked for, and the
/// cache stays: who calls it loses it.
///
/// `BadGeometry` and `TooSmall` come before anything else. Room for six lines is taken then, so `OutOfMemory`
/// changes no line. The clauses hold for any cache; where it holds no line, `fam_machine::a_file_system_is_made` says
/// what the operations leave in memory.
pub fn mkfs<M: Media>(
    cache: &mut HostCache,
    media: &mut M,
    request: &MkfsRequest,
    me: Uuid,
) -> Result<MkfsEnd, OutOfMemory>
    // What is refused at once comes whatever the media and the memory do, and nothing is done.
    ensures refused { (end : MkfsEnd) → refusals.refusal request.now.unit request.now.log (line_bytes * M.size media.old) ≡ Some end
        → result ≡ Ok end }
    ensures untouched { (end : MkfsEnd) → refusals.refusal request.now.unit request.now.log (line_bytes * M.size media.old) ≡ Some end
        → media.new ≡ media.old }
    ensures unchanged { (end : MkfsEnd) → refusals.refusal request.now.unit request.now.log (line_bytes * M.size media.old) ≡ Some end
        → cache.new ≡ cache.old }

    ensures ends { refusals.refusal request.now.unit request.now.log (line_bytes * M.size media.old) ≡ None → IfOk result
        (MkfsEnds (spec.asked request.now me (M.size media.old)) request.now.force request.now.halt (M.size media.old)
        (over (M.state media.old).image cache.old.lines) (over (M.state media.new).image cache.new.lines)
        (M.state media.old).faults (M.state media.new).faults) }

    // The cache has of every other line what it had, also where nothing is modelled.
    ensures others { (line : ℕ) → IsElsewhere line
        → cell_at cache.new.lines line ≡ cell_at cache.old.lines line }

    // Out of memory: nothing was done.
    ensures undone { OnErr result (media.new ≡ media.old) }
    ensures kept { OnErr result (cache.new ≡ cache.old) }

    ensures steady { IsSteady M.size M.state media.old media.new }
{
    let params = asked(request, me, media.lines());
    if let Some(end) = refusal(request.unit, request.log, params.device) {
        return Ok(end);
    }
    cache.reserve(ROOM)?;
    Ok(make(cache, media, &params, request.force, request.halt))
}
