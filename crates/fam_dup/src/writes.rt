//! What is written on TO, line by line.

ghost use Rattle.std.specs.Prelude.{◌≡◌, ◌+◌, ◌*◌, ◌≤◌, ◌<◌, ◌∷◌, [], IfErr, OnOk, length, true};
ghost use Rattle.fam_base.specs.Image.{line_at};
ghost use Rattle.fam_format.specs.Layout.{least_lines};
ghost use Rattle.fam_format.specs.Params.{SoundParams};
ghost use Rattle.fam_media.specs.Causes.{IsSteady, Rose};
ghost use Rattle.fam_media.specs.Outside.{IfModelled};
ghost use Rattle.fam_rules.specs.Place.{line_bytes};
ghost use Rattle.fam_rules.specs.Written.{slot_part, slot_puts};
ghost use Rattle.fam_dup.specs.declared.files.TheConstants.{RUN_LINES};
ghost use Rattle.fam_dup.specs.Copies.{AreCopies};
ghost use Rattle.fam_dup.specs.Ends.{IsFailure, IsStep, IsToStep, NamesLine, from_counted, to_counted};
ghost use Rattle.fam_dup.specs.Findings.{FailsTo, fault_class};
ghost use Rattle.fam_dup.specs.Lines.{PutsEnd, copy_puts, head_puts, slots_puts};

use crate::copies::entry_at;
use crate::fault::DupFault;
use crate::files::copy_files;
use crate::lines::{FailedAt, are_words, write_line};
use fam_base::{Entry, Line, LineNo, Params};
use fam_entry::{spell, spell_log};
use fam_format::{GATE_LINE, LINE_WORDS, LOG_LINE, shape_of};
use fam_media::Media;
use fam_plan::Plan;
use fam_replay::line_of_slot;
use fam_super::{MAGIC, Super};

/// Writes a line of TO.
fn write_to<N: Media>(to: &mut N, line: LineNo, words: &Line) -> Result<(), DupFault>
    requires within { line.0 < N.size to.old }
    ensures puts { PutsEnd IsToStep ((line.0, words.now) ∷ []) (N.state to.old).image (N.state to.new).image result }
    ensures failed { IfErr result (λ fault. (fault_class fault ≡ FailsTo) × Rose (N.state to.old).faults (N.state to.new).faults) }
    ensures quiet { OnOk result (N.exact ≡ true → (N.state to.new).faults ≡ (N.state to.old).faults) }
    ensures counted { IfErr result (λ fault. N.exact ≡ true → (N.state to.new).faults ≡ to_counted (fault_class fault) (N.state to.old).faults) }
    ensures line { IfErr result (λ fault. NamesLine 0 (N.size to.old) fault) }
    ensures steady { IsSteady N.size N.state to.old to.new }
{
    match write_line(to, line, words) {
        Ok(()) => Ok(()),
        Err(FailedAt(line)) => Err(DupFault::ToFault(line)),
    }
}

/// Line `j` of the words of a slot.
fn part_of(words: &[u64], j: u64) -> Line
    requires { LINE_WORDS * j + LINE_WORDS ≤ length words.now }
    ensures { result ≡ slot_part words.now j }
{
    let first = LINE_WORDS * j as usize;
    let mut line = [0; LINE_WORDS];
    line.copy_from_slice(&words[first..first + LINE_WORDS]);
    line
}

/// Writes the slot of a copy.
fn write_slot<N: Media>(to: &mut N, params: &Params, seq: u64, copy: &Entry) -> Result<(), DupFault>
    requires sound { SoundParams params.now }
    requires device { params.now.device ≤ line_bytes * N.size to.old }
    requires slot { seq < params.now.slots }
    ensures puts { PutsEnd IsToStep (slot_puts params.now seq copy.now) (N.state to.old).image (N.state to.new).image result }
    ensures failed { IfErr result (λ fault. (fault_class fault ≡ FailsTo) × Rose (N.state to.old).faults (N.state to.new).faults) }
    ensures quiet { OnOk result (N.exact ≡ true → (N.state to.new).faults ≡ (N.state to.old).faults) }
    ensures counted { IfErr result (λ fault. N.exact ≡ true → (N.state to.new).faults ≡ to_counted (fault_class fault) (N.state to.old).faults) }
    ensures line { IfErr result (λ fault. NamesLine 0 (N.size to.old) fault) }
    ensures steady { IsSteady N.size N.state to.old to.new }
{
    let slot = spell(copy, seq, params.format);
    'lines: for j in 0..shape_of(params.format).lines {
        write_to(to, line_of_slot(params, seq, j), &part_of(slot.words(), j))?;
    }
    Ok(())
}

/// Writes the slots of all copies.
fn write_slots<N: Media>(to: &mut N, copies: &Plan) -> Result<(), DupFault>
    requires device { copies.now.params.device ≤ line_bytes * N.size to.old }
    ensures puts { PutsEnd IsToStep (slots_puts copies.now.params 0 copies.now.entries) (N.state to.old).image (N.state to.new).image result }
    ensures failed { IfErr result (λ fault. (fault_class fault ≡ FailsTo) × Rose (N.state to.old).faults (N.state to.new).faults) }
    ensures quiet { OnOk result (N.exact ≡ true → (N.state to.new).faults ≡ (N.state to.old).faults) }
    ensures counted { IfErr result (λ fault. N.exact ≡ true → (N.state to.new).faults ≡ to_counted (fault_class fault) (N.state to.old).faults) }
    ensures line { IfErr result (λ fault. NamesLine 0 (N.size to.old) fault) }
    ensures steady { IsSteady N.size N.state to.old to.new }
{
    copies.each_entry_joins();
    for seq in 0..copies.count() {
        let copy = entry_at(copies, seq);
        write_slot(to, copies.params(), seq, &copy)?;
    }
    Ok(())
}

/// Writes gate, header and superblock.
fn write_head<N: Media>(to: &mut N, params: &Params, count: u64) -> Result<(), DupFault>
    requires within { least_lines ≤ N.size to.old }
    ensures puts { PutsEnd IsToStep (head_puts params.now count) (N.state to.old).image (N.state to.new).image result }
    ensures failed { IfErr result (λ fault. (fault_class fault ≡ FailsTo) × Rose (N.state to.old).faults (N.state to.new).faults) }
    ensures quiet { OnOk result (N.exact ≡ true → (N.state to.new).faults ≡ (N.state to.old).faults) }
    ensures counted { IfErr result (λ fault. N.exact ≡ true → (N.state to.new).faults ≡ to_counted (fault_class fault) (N.state to.old).faults) }
    ensures line { IfErr result (λ fault. NamesLine 0 (N.size to.old) fault) }
    ensures steady { IsSteady N.size N.state to.old to.new }
{
    let [_, first, second] = Super::spell(params);
    are_words(first);
    are_words(second);
    write_to(to, LineNo(GATE_LINE), &[count, 0, 0, 0, 0, 0, 0, 0])?;
    write_to(to, LineNo(LOG_LINE), &spell_log(params))?;
    write_to(to, LineNo(1), &first)?;
    write_to(to, LineNo(2), &second)
}

/// Writes the whole copy: line 0 is cleared first, and has the magic last. The buffer is for lines of files.
#[tactic(auto, using(crate::proofs::Naming::to_names))]
pub(crate) fn write_copy<M: Media, N: Media>(
    from: &mut M,
    to: &mut N,
    source: &Plan,
    copies: &Plan,
    buffer: &mut [Line],
) -> Result<(), DupFault>
    requires buffer { 0 < length buffer.old }
    requires few { length buffer.old ≤ RUN_LINES }
    requires from_device { source.now.params.device ≤ line_bytes * M.size from.old }
    requires to_device { copies.now.params.device ≤ line_bytes * N.size to.old }
    requires copies { AreCopies source.now.entries copies.now.entries }
    ensures puts { IfModelled (M.state from.old).image (λ image. PutsEnd (IsStep source.now.entries copies.now.entries) (copy_puts (line_at image) copies.now.params source.now.entries copies.now.entries)
        (N.state to.old).image (N.state to.new).image result) }
    ensures failed { IfErr result (λ fault. IsFailure (M.state from.old).faults (M.state from.new).faults
        (N.state to.old).faults (N.state to.new).faults (fault_class fault)) }
    ensures quiet_from { OnOk result (M.exact ≡ true → (M.state from.new).faults ≡ (M.state from.old).faults) }
    ensures quiet_to { OnOk result (N.exact ≡ true → (N.state to.new).faults ≡ (N.state to.old).faults) }
    ensures counted_from { IfErr result (λ fault. M.exact ≡ true → (M.state from.new).faults ≡ from_counted (fault_class fault) (M.state from.old).faults) }
    ensures counted_to { IfErr result (λ fault. N.exact ≡ true → (N.state to.new).faults ≡ to_counted (fault_class fault) (N.state to.old).faults) }
    ensures line { IfErr result (λ fault. NamesLine (M.size from.old) (N.size to.old) fault) }
    ensures same { (M.state from.new).image ≡ (M.state from.old).image }
    ensures steady_from { IsSteady M.size M.state from.old from.new }
    ensures steady_to { IsSteady N.size N.state to.old to.new }
{
    copies.each_entry_joins();
    let params = *copies.params();
    write_to(to, LineNo(0), &[0; 8])?;
    copy_files(from, to, source, copies, buffer)?;
    write_slots(to, copies)?;
    write_head(to, &params, copies.count())?;
    write_to(to, LineNo(0), &[MAGIC, 0, 0, 0, 0, 0, 0, 0])
}
