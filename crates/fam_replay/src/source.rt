//! The log of a media, read up to its last entry.

ghost use Rattle.std.specs.Prelude.{◌≡◌, ◌+◌, ◌*◌, ◌≤◌, ◌<◌, [], ℕ, suc, IfErr, IfOk, OnErr, OnOk, length, slice_index, take, true, Ok};
ghost use Rattle.fam_base.specs.Image.{line_at};
ghost use Rattle.fam_format.specs.Layout.{geometry, least_lines, log_line};
ghost use Rattle.fam_format.specs.Log.{log_fault};
ghost use Rattle.fam_format.specs.Params.{SoundParams};
ghost use Rattle.fam_format.specs.Reading.{gate_in, reading, slot_words, super_in};
ghost use Rattle.fam_format.specs.Reading as read;
ghost use Rattle.fam_media.specs.Causes.{IsSteady, Rose};
ghost use Rattle.fam_media.specs.Outside.{IfModelled};
ghost use Rattle.fam_plan.specs.Faults.{reason_of};
ghost use Rattle.fam_rules.specs.Place.{line_bytes};
ghost use Rattle.fam_replay.specs.Sources.{FailsAt, IsAskedFor, IsCounted, IsOfHead, IsOfLog, IsOfSlot, IsOfSlots, IsOfSuper, IsReadCaused, ReadsHead, Tells, of_log, of_slot, of_super};
ghost use Rattle.fam_replay.specs.declared.fault.ReadFault.TheVariants as fault;

use crate::fault::ReadFault;
use crate::head::{line_of_slot, read_gate, read_header};
use fam_base::{Line, LineNo, Params};
use fam_entry::read_entry;
use fam_format::{
    GATE_LINE, LINE_BYTES, LINE_WORDS, LOG_LINE, LogFault, MOST_SLOT_WORDS, Reason, SuperFault,
    shape_of,
};
use fam_media::Media;
use fam_plan::{AddFault, Plan};
use fam_super::{MAGIC, read_super};
use std::alloc::Global;

/// A line of the media, or that this one failed.
fn read_line<M: Media>(media: &mut M, line: LineNo) -> Result<Line, ReadFault>
    requires within { line.0 < M.size media.old }
    ensures words { IfOk result (λ words. IfModelled (M.state media.old).image (λ image. words ≡ line_at image line.0)) }
    ensures failed { IfErr result (λ given. given ≡ fault.MediaFault line) }
    ensures rose { OnErr result (Rose (M.state media.old).faults (M.state media.new).faults) }
    ensures quiet { OnOk result (M.exact ≡ true → (M.state media.new).faults ≡ (M.state media.old).faults) }
    ensures counted { IfErr result (λ fault. M.exact ≡ true → IsCounted (M.state media.old).faults (M.state media.new).faults fault) }
    ensures line { IfErr result (FailsAt (λ at. at < M.size media.old)) }
    ensures same { (M.state media.new).image ≡ (M.state media.old).image }
    ensures steady { IsSteady M.size M.state media.old media.new }
{
    match media.read(line) {
        Ok(words) => Ok(words),
        Err(_) => Err(ReadFault::MediaFault(line)),
    }
}

/// A fault of the superblock.
fn fault_of_super(fault: SuperFault) -> ReadFault
    ensures { result ≡ of_super fault }
{
    match fault {
        SuperFault::NoSuper(word) => ReadFault::NoSuper(word),
        SuperFault::BadSuper {
            field,
            found,
            wanted,
        } => ReadFault::BadSuper {
            field,
            found,
            wanted,
        },
    }
}

/// A fault of the log's header or gate.
fn fault_of_log(fault: LogFault) -> ReadFault
    ensures { result ≡ of_log fault }
{
    match fault {
        LogFault::BadLog {
            field,
            found,
            wanted,
        } => ReadFault::BadLog {
            field,
            found,
            wanted,
        },
    }
}

/// Why the entry of slot `seq` doesn't join those before it.
fn fault_of_slot(seq: u64, fault: AddFault) -> ReadFault
    ensures { result ≡ of_slot seq (reason_of fault) }
{
    let reason = match fault {
        AddFault::Exists(kind) => Reason::Exists(kind),
        AddFault::NoParent => Reason::NoParent,
        AddFault::ParentIsFile => Reason::ParentIsFile,
        AddFault::Overlap(unit) => Reason::Overlap(unit),
        AddFault::OutOfMemory => return ReadFault::OutOfMemory,
    };
    ReadFault::BadEntry { seq, reason }
}

/// What the superblock tells. Lines 1 and 2 are read behind the magic alone.
#[tactic(auto, unfolding(fam_format::specs::Super::super_of))]
fn read_params<M: Media>(media: &mut M) -> Result<Params, ReadFault>
    requires within { least_lines ≤ M.size media.old }
    ensures told { IfOk result (λ p. IfModelled (M.state media.old).image (λ image.
        super_in (line_at image) (line_bytes * M.size media.old) ≡ Ok p)) }
    ensures sound { IfOk result (λ p. SoundParams p) }
    ensures device { IfOk result (λ p. p.device ≤ line_bytes * M.size media.old) }
    ensures fault { IfErr result (λ fault. IfModelled (M.state media.old).image (λ image.
        Tells fault (read.read_super (line_at image) (super_in (line_at image) (line_bytes * M.size media.old))))) }
    ensures asked { IfErr result (λ fault. IfModelled (M.state media.old).image (λ image. FailsAt (IsOfSuper (line_at image)) fault)) }
    ensures cause { IfErr result (IsReadCaused (M.state media.old).faults (M.state media.new).faults) }
    ensures quiet { OnOk result (M.exact ≡ true → (M.state media.new).faults ≡ (M.state media.old).faults) }
    ensures counted { IfErr result (λ fault. M.exact ≡ true → IsCounted (M.state media.old).faults (M.state media.new).faults fault) }
    ensures line { IfErr result (FailsAt (λ at. at < M.size media.old)) }
    ensures same { (M.state media.new).image ≡ (M.state media.old).image }
    ensures steady { IsSteady M.size M.state media.old media.new }
{
    let magic = read_line(media, LineNo(0))?;
    if magic[0] != MAGIC {
        return Err(ReadFault::NoSuper(magic[0]));
    }
    let first = read_line(media, LineNo(1))?;
    let second = read_line(media, LineNo(2))?;
    match read_super(&[magic, first, second], LINE_BYTES * media.lines()) {
        Ok(params) => Ok(params),
        Err(fault) => Err(fault_of_super(fault)),
    }
}

/// How many entries the gate counts, where the log's header is the one for these parameters.
fn read_count<M: Media>(media: &mut M, params: &Params) -> Result<u64, ReadFault>
    requires within { least_lines ≤ M.size media.old }
    ensures told { IfOk result (λ count. IfModelled (M.state media.old).image (λ image.
        read.read_log (line_at image) params.now (log_fault (line_at image log_line) params.now) ≡ read.read_slots (line_at image) params.now 0 count [])) }
    ensures few { IfOk result (λ count. count ≤ params.now.slots) }
    ensures gate { IfOk result (λ count. IfModelled (M.state media.old).image (λ image. count ≡ gate_in (line_at image))) }
    ensures head { OnOk result (IfModelled (M.state media.old).image (λ image. ReadsHead (line_at image) params.now)) }
    ensures asked { IfErr result (λ fault. IfModelled (M.state media.old).image (λ image. FailsAt (IsOfHead (line_at image) params.now) fault)) }
    ensures fault { IfErr result (λ fault. IfModelled (M.state media.old).image (λ image.
        Tells fault (read.read_log (line_at image) params.now (log_fault (line_at image log_line) params.now)))) }
    ensures cause { IfErr result (IsReadCaused (M.state media.old).faults (M.state media.new).faults) }
    ensures quiet { OnOk result (M.exact ≡ true → (M.state media.new).faults ≡ (M.state media.old).faults) }
    ensures counted { IfErr result (λ fault. M.exact ≡ true → IsCounted (M.state media.old).faults (M.state media.new).faults fault) }
    ensures line { IfErr result (FailsAt (λ at. at < M.size media.old)) }
    ensures same { (M.state media.new).image ≡ (M.state media.old).image }
    ensures steady { IsSteady M.size M.state media.old media.new }
{
    let header = read_line(media, LineNo(LOG_LINE))?;
    if let Err(fault) = read_header(&header, params) {
        return Err(fault_of_log(fault));
    }
    let gate = read_line(media, LineNo(GATE_LINE))?[0];
    if let Err(fault) = read_gate(gate, params) {
        return Err(fault_of_log(fault));
    }
    Ok(gate)
}

/// Puts the words of a line into those of its slot.
fn put_words(slot: &mut [u64; MOST_SLOT_WORDS], line: u64, words: &Line)
    requires { LINE_WORDS * line + LINE_WORDS ≤ MOST_SLOT_WORDS }
    ensures here { (k : ℕ) → k < LINE_WORDS → slice_index slot.new (LINE_WORDS * line + k) ≡ slice_index words.now k }
    ensures before { (k : ℕ) → k < LINE_WORDS * line → slice_index slot.new k ≡ slice_index slot.old k }
{
    'words: for w in 0..LINE_WORDS {
        slot[LINE_WORDS * line as usize + w] = words[w];
    }
}

/// The words of a slot, in front of others.
fn read_words<M: Media>(
    media: &mut M,
    params: &Params,
    slot: u64,
) -> Result<[u64; MOST_SLOT_WORDS], ReadFault>
    requires sound { SoundParams params.now }
    requires device { params.now.device ≤ line_bytes * M.size media.old }
    requires slot { slot < params.now.slots }
    ensures words { IfOk result (λ words. IfModelled (M.state media.old).image (λ image. take (geometry params.now).words words ≡ slot_words (line_at image) params.now slot)) }
    ensures asked { IfErr result (FailsAt (IsOfSlot params.now slot)) }
    ensures fault { IfErr result (λ fault. (found : read.Reading) → Tells fault found) }
    ensures cause { IfErr result (IsReadCaused (M.state media.old).faults (M.state media.new).faults) }
    ensures quiet { OnOk result (M.exact ≡ true → (M.state media.new).faults ≡ (M.state media.old).faults) }
    ensures counted { IfErr result (λ fault. M.exact ≡ true → IsCounted (M.state media.old).faults (M.state media.new).faults fault) }
    ensures line { IfErr result (FailsAt (λ at. at < M.size media.old)) }
    ensures same { (M.state media.new).image ≡ (M.state media.old).image }
    ensures steady { IsSteady M.size M.state media.old media.new }
{
    let mut words = [0; MOST_SLOT_WORDS];
    'lines: for line in 0..shape_of(params.format).lines {
        let part = read_line(media, line_of_slot(params, slot, line))?;
        put_words(&mut words, line, &part);
    }
    Ok(words)
}

/// Reads the next slot, and adds its entry to those before it.
fn read_slot<M: Media>(media: &mut M, plan: &mut Plan, seq: u64) -> Result<(), ReadFault>
    requires next { seq ≡ length plan.old.entries }
    requires device { plan.old.params.device ≤ line_bytes * M.size media.old }
    requires left { length plan.old.entries < plan.old.params.slots }
    ensures told { OnOk result (IfModelled (M.state media.old).image (λ image. (more : ℕ)
        → read.read_slots (line_at image) plan.old.params (length plan.old.entries) (suc more) plan.old.entries
        ≡ read.read_slots (line_at image) plan.old.params (length plan.new.entries) more plan.new.entries)) }
    ensures count { OnOk result (length plan.new.entries ≡ length plan.old.entries + 1) }
    ensures params { plan.new.params ≡ plan.old.params }
    ensures asked { IfErr result (FailsAt (IsOfSlot plan.old.params (length plan.old.entries))) }
    ensures fault { IfErr result (λ fault. IfModelled (M.state media.old).image (λ image. (more : ℕ) →
        Tells fault (read.read_slots (line_at image) plan.old.params (length plan.old.entries) (suc more) plan.old.entries))) }
    ensures cause { IfErr result (IsReadCaused (M.state media.old).faults (M.state media.new).faults) }
    ensures quiet { OnOk result (M.exact ≡ true → (M.state media.new).faults ≡ (M.state media.old).faults) }
    ensures counted { IfErr result (λ fault. M.exact ≡ true → IsCounted (M.state media.old).faults (M.state media.new).faults fault) }
    ensures line { IfErr result (FailsAt (λ at. at < M.size media.old)) }
    ensures same { (M.state media.new).image ≡ (M.state media.old).image }
    ensures steady { IsSteady M.size M.state media.old media.new }
{
    plan.each_entry_joins();
    let params = *plan.params();
    let words = read_words(media, &params, seq)?;
    let count = shape_of(params.format).words;
    let entry = match read_entry(&words[..count], seq, &params) {
        Ok(entry) => entry,
        Err(reason) => return Err(ReadFault::BadEntry { seq, reason }),
    };
    match plan.add(&entry) {
        Ok(()) => Ok(()),
        Err(fault) => Err(fault_of_slot(seq, fault)),
    }
}

/// Reads the first slots.
fn read_slots<M: Media>(media: &mut M, plan: &mut Plan, count: u64) -> Result<(), ReadFault>
    requires device { plan.old.params.device ≤ line_bytes * M.size media.old }
    requires none { plan.old.entries ≡ [] }
    requires few { count ≤ plan.old.params.slots }
    ensures told { OnOk result (IfModelled (M.state media.old).image (λ image.
        read.read_slots (line_at image) plan.old.params 0 count [] ≡ read.Sound plan.old.params plan.new.entries)) }
    ensures params { plan.new.params ≡ plan.old.params }
    ensures asked { IfErr result (λ fault. IfModelled (M.state media.old).image (λ image.
        FailsAt (IsOfSlots (line_at image) plan.old.params count) fault)) }
    ensures fault { IfErr result (λ fault. IfModelled (M.state media.old).image (λ image.
        Tells fault (read.read_slots (line_at image) plan.old.params 0 count []))) }
    ensures cause { IfErr result (IsReadCaused (M.state media.old).faults (M.state media.new).faults) }
    ensures quiet { OnOk result (M.exact ≡ true → (M.state media.new).faults ≡ (M.state media.old).faults) }
    ensures counted { IfErr result (λ fault. M.exact ≡ true → IsCounted (M.state media.old).faults (M.state media.new).faults fault) }
    ensures line { IfErr result (FailsAt (λ at. at < M.size media.old)) }
    ensures same { (M.state media.new).image ≡ (M.state media.old).image }
    ensures steady { IsSteady M.size M.state media.old media.new }
{
    for slot in 0..count {
        read_slot(media, plan, slot)?;
    }
    Ok(())
}

/// The entries of a log behind a superblock that was read, in a plan of its parameters: the log's header is read, its gate, and
/// the slots below it, each line once and in this order. A fault is the first of the header, of the gate or of a slot;
/// `MediaFault`, where the media failed at a line; or `OutOfMemory`.
pub fn read_behind<M: Media>(
    alloc: Global,
    media: &mut M,
    params: &Params,
) -> Result<Plan, ReadFault>
    requires within { least_lines ≤ M.size media.old }
    requires sound { SoundParams params.now }
    requires device { params.now.device ≤ line_bytes * M.size media.old }
    ensures told { IfOk result (λ plan. IfModelled (M.state media.old).image (λ image.
        read.read_log (line_at image) params.now (log_fault (line_at image log_line) params.now) ≡ read.Sound plan.params plan.entries)) }
    ensures params { IfOk result (λ plan. plan.params ≡ params.now) }
    ensures fault { IfErr result (λ fault. IfModelled (M.state media.old).image (λ image.
        Tells fault (read.read_log (line_at image) params.now (log_fault (line_at image log_line) params.now)))) }
    ensures asked { IfErr result (λ fault. IfModelled (M.state media.old).image (λ image. FailsAt (IsOfLog (line_at image) params.now) fault)) }
    ensures cause { IfErr result (IsReadCaused (M.state media.old).faults (M.state media.new).faults) }
    ensures quiet { OnOk result (M.exact ≡ true → (M.state media.new).faults ≡ (M.state media.old).faults) }
    ensures counted { IfErr result (λ fault. M.exact ≡ true → IsCounted (M.state media.old).faults (M.state media.new).faults fault) }
    ensures line { IfErr result (FailsAt (λ at. at < M.size media.old)) }
    ensures same { (M.state media.new).image ≡ (M.state media.old).image }
    ensures steady { IsSteady M.size M.state media.old media.new }
{
    let count = read_count(media, params)?;
    let mut plan = Plan::new(alloc, params)?;
    read_slots(media, &mut plan, count)?;
    Ok(plan)
}

/// The entries of a media's log, in a plan of its parameters, as a `read` finds them: line 0 is read, behind the magic lines 1 and
/// 2, the log's header and its gate, and the slots below it, each line once and in this order. A fault is the first of the
/// superblock, of the log or of a slot; `MediaFault`, where the media failed at a line; or `OutOfMemory`.
pub fn read_source<M: Media>(alloc: Global, media: &mut M) -> Result<Plan, ReadFault>
    requires within { least_lines ≤ M.size media.old }
    ensures told { IfOk result (λ plan. IfModelled (M.state media.old).image (λ image. reading image ≡ read.Sound plan.params plan.entries)) }
    ensures device { IfOk result (λ plan. plan.params.device ≤ line_bytes * M.size media.old) }
    ensures fault { IfErr result (λ fault. IfModelled (M.state media.old).image (λ image. Tells fault (reading image))) }
    ensures asked { IfErr result (λ fault. IfModelled (M.state media.old).image (λ image.
        FailsAt (IsAskedFor (line_at image) (line_bytes * M.size media.old)) fault)) }
    ensures cause { IfErr result (IsReadCaused (M.state media.old).faults (M.state media.new).faults) }
    ensures quiet { OnOk result (M.exact ≡ true → (M.state media.new).faults ≡ (M.state media.old).faults) }
    ensures counted { IfErr result (λ fault. M.exact ≡ true → IsCounted (M.state media.old).faults (M.state media.new).faults fault) }
    ensures line { IfErr result (FailsAt (λ at. at < M.size media.old)) }
    ensures same { (M.state media.new).image ≡ (M.state media.old).image }
    ensures steady { IsSteady M.size M.state media.old media.new }
{
    let params = read_params(media)?;
    read_behind(alloc, media, &params)
}
