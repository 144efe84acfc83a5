//! Making a file system.

ghost use Rattle.std.specs.Prelude.{◌≡◌, ◌*◌, ◌<◌, ◌≤◌, ◌++◌, ◌∷◌, [], OnErr, vec_capacity, None, Some, ℕ, List, IfErr, IfOk, IfSome, IsErrOf, IsTrue, OnOk, option_map, vec_len};
ghost use Rattle.fam_format.specs.Params.{is_format};
ghost use Rattle.fam_rules.specs.Place.{line_bytes};
ghost use Rattle.fam_machine.specs.Mkfs.{early_refusal};
ghost use Rattle.fam_machine.specs.Mkfs as spec;
ghost use Rattle.fam_machine.specs.MkfsRequest.{mkfs_request};
ghost use Rattle.fam_machine.specs.Caches.{cell_at};
ghost use Rattle.fam_machine.specs.OneLine.{IsHeld};
ghost use Rattle.fam_media.specs.Causes.{IsSteady};
ghost use Rattle.fam_media.specs.States.{change};
ghost use Rattle.fam_cache.specs.Runs.{over};
ghost use Rattle.fam_mkfs.specs.Parts.{IsElsewhere};
ghost use Rattle.fam_mkfs.specs.Refusals as refusals;
ghost use Rattle.fam_world.specs.Makes.{IsLateEnd, MakerEnds, cache_behind, end_note, end_result};
ghost use Rattle.fam_journal.specs.Calls.{Makes, cause_of};
ghost use Rattle.fam_journal.specs.CallRecords.{MakeCall};
ghost use Rattle.fam_journal.specs.Notes as notes;
ghost use Rattle.fam_world.specs.Answers.{IfAnswered, IsPlaced, IsPlain, IsUntouched};
ghost use Rattle.fam_world.specs.View.{notes_view, views};

use super::World;
use crate::fault::WorldFault;
use crate::find::{dirty_host, engaged_host, number};
use crate::hosts::{Host, MOST_HOSTS};
use crate::notes::{add, make_room, refused};
use fam_base::{HostName, OutOfMemory};
use fam_format::LINE_BYTES;
use fam_journal::{HostId, Refusal};
use fam_machine::{MkfsRequest, is_uuid};
use fam_media::{MOST_LINES, Media};
use fam_mkfs::{MkfsEnd, mkfs, refusal};
use fam_notes::Note;
use uuid::Uuid;

/// What is refused of the numbers alone, on a device of so many bytes.
fn early_cause(unit: u64, log: u64, have: u64) -> Option<Refusal>
    ensures cause { result ≡ option_map cause_of (early_refusal unit log have) }
    ensures free { result ≡ None → refusals.refusal unit log have ≡ None }
    ensures plain { IfSome result IsPlain }
{
    match refusal(unit, log, have) {
        Some(MkfsEnd::BadGeometry { unit, log }) => Some(Refusal::BadGeometry { unit, log }),
        Some(MkfsEnd::TooSmall { need, have }) => Some(Refusal::TooSmall { need, have }),
        Some(_) => unreachable!(),
        None => None,
    }
}

/// The host of this name, which may make a file system, on a media of so many lines; or why not.
fn maker(
    hosts: &Vec<Host>,
    name: &HostName,
    request: &MkfsRequest,
    lines: u64,
) -> Result<usize, Refusal>
    requires few { vec_len hosts.now ≤ MOST_HOSTS }
    requires most { lines ≤ MOST_LINES }
    ensures within { IfOk result (λ at. at < vec_len hosts.now) }
    ensures plain { IfErr result IsPlain }
    ensures placed { (journal : List notes.Note)
        → IsPlaced (Makes name.now request.now) lines (record { hosts = views hosts.now.items; journal = journal }) result }
    ensures free { OnOk result (refusals.refusal request.now.unit request.now.log (line_bytes * lines) ≡ None) }
{
    let Some(at) = number(hosts, name) else {
        return Err(Refusal::NoHost);
    };
    if let Some(cause) = early_cause(request.unit, request.log, LINE_BYTES * lines) {
        return Err(cause);
    }
    if let Some(busy) = engaged_host(hosts) {
        return Err(Refusal::Busy(HostId(busy as u32)));
    }
    if let Some(dirty) = dirty_host(hosts, at) {
        return Err(Refusal::Dirty(HostId(dirty as u32)));
    }
    Ok(at)
}

/// A maker that halted loses its cache. Else it stays.
fn lose_halted(host: &mut Host, end: &MkfsEnd)
    ensures host { host.new ≡ record host.old { cache = host.new.cache } }
    ensures lines { host.new.cache.lines ≡ cache_behind end.now host.old.cache.lines }
{
    match *end {
        MkfsEnd::Halted(_) => host.cache.lose(),
        MkfsEnd::Made(_) => {}
        MkfsEnd::BadGeometry { .. } => {}
        MkfsEnd::TooSmall { .. } => {}
        MkfsEnd::HasSuper(_) => {}
        MkfsEnd::Failed(_) => {}
    }
}

/// Makes a file system through the cache of a host, of which the numbers are no hindrance. Where the host halts, its
/// cache is lost.
fn make_host<M: Media>(
    host: &mut Host,
    media: &mut M,
    request: &MkfsRequest,
) -> Result<MkfsEnd, OutOfMemory>
    requires free { refusals.refusal request.now.unit request.now.log (line_bytes * M.size media.old) ≡ None }
    ensures host { host.new ≡ record host.old { cache = host.new.cache } }
    ensures ends { IfOk result (MakerEnds (spec.asked request.now host.old.uuid (M.size media.old)) request.now.force request.now.halt
        (M.size media.old) (over (M.state media.old).image host.old.cache.lines) (M.state media.new).image host.new.cache.lines
        (M.state media.old).faults (M.state media.new).faults) }
    ensures others { (line : ℕ) → IsElsewhere line → IsHeld (cell_at host.new.cache.lines line)
        → IsHeld (cell_at host.old.cache.lines line) }
    ensures undone { OnErr result (media.new ≡ media.old) }
    ensures kept { OnErr result (host.new ≡ host.old) }
    ensures steady { IsSteady M.size M.state media.old media.new }
{
    let uuid = host.uuid;
    match mkfs(&mut host.cache, media, request, uuid) {
        Ok(end) => {
            lose_halted(host, &end);
            Ok(end)
        }
        Err(OutOfMemory) => Err(OutOfMemory),
    }
}

/// Notes how making a file system ended, for which there is room, and gives the refusal that it is, if any.
fn note_end(
    journal: &mut Vec<Note>,
    name: &HostName,
    at: usize,
    end: MkfsEnd,
) -> Result<(), WorldFault>
    requires few { at < MOST_HOSTS }
    requires late { IsLateEnd end }
    requires room { vec_len journal.old < vec_capacity journal.old }
    ensures noted { notes_view journal.new.items ≡ notes_view journal.old.items ++ end_note at name.now end ∷ [] }
    ensures given { result ≡ end_result end }
{
    match end {
        MkfsEnd::Made(params) => {
            add(
                journal,
                Note::Made {
                    host: HostId(at as u32),
                    params,
                },
            );
            Ok(())
        }
        MkfsEnd::Halted(k) => {
            add(
                journal,
                Note::Cut {
                    host: HostId(at as u32),
                    k,
                },
            );
            Ok(())
        }
        MkfsEnd::HasSuper(id) => Err(refused(journal, name, Refusal::HasSuper(id))),
        MkfsEnd::Failed(line) => Err(refused(journal, name, Refusal::MediaFault(line))),
        MkfsEnd::BadGeometry { .. } => unreachable!(),
        MkfsEnd::TooSmall { .. } => unreachable!(),
    }
}

impl World {
    /// A host makes a file system with the UUID `fs`, units of so many bytes and a log of so many bytes, in this format, on
    /// the whole media. The first of these refuses it: `NoHost`; `BadGeometry` and `TooSmall`, by the numbers; `Busy`, the first
    /// host that has a task or keeps something of the log; `Dirty`, the first other host with a line that memory may
    /// lack; `HasSuper`, where a superblock reads in lines 0, 1 and 2 and `force` is false. `MediaFault` comes where the
    /// media failed, and the operations before it were done. All room is taken first.
    pub fn mkfs<M: Media>(
        &mut self,
        media: &mut M,
        name: &HostName,
        fs: Uuid,
        unit: u64,
        log: u64,
        format: u64,
        force: bool,
    ) -> Result<(), WorldFault>
        requires { IsTrue (is_format format) }
        ensures answered { IfAnswered result (λ answered. MakeCall (Makes name.now (mkfs_request fs unit log format force None)) (M.size media.old)
            answered (change M.state media.old media.new) self.old self.new) }
        ensures untouched { IsUntouched (Makes name.now (mkfs_request fs unit log format force None)) (M.size media.old) self.old media.old media.new }
        ensures undone { IsErrOf result WorldFault.OutOfMemory → media.new ≡ media.old }
        ensures err { IsErrOf result WorldFault.OutOfMemory → self.new ≡ self.old }
        ensures size { M.size media.new ≡ M.size media.old }
    {
        let request = MkfsRequest {
            fs,
            unit,
            log,
            format,
            force,
            halt: None,
        };
        self.make(media, name, &request)
    }

    /// The same, but that the host halts after `k` of the 81 operations, `k` from 1 to 80; a greater `k` counts as 80. It
    /// is refused as `mkfs`, in the same order: all 27 operations that read are done whatever `k` is, and `HasSuper` comes
    /// behind them. Then the operations up to the `k`-th are done, and the host's cache is lost, with all that memory lacks.
    /// Where it is refused nothing is lost of it.
    pub fn mkfs_cut<M: Media>(
        &mut self,
        media: &mut M,
        name: &HostName,
        fs: Uuid,
        unit: u64,
        log: u64,
        format: u64,
        force: bool,
        k: u64,
    ) -> Result<(), WorldFault>
        requires { IsTrue (is_format format) }
        ensures answered { IfAnswered result (λ answered. MakeCall (Makes name.now (mkfs_request fs unit log format force (Some k))) (M.size media.old)
            answered (change M.state media.old media.new) self.old self.new) }
        ensures untouched { IsUntouched (Makes name.now (mkfs_request fs unit log format force (Some k))) (M.size media.old) self.old media.old media.new }
        ensures undone { IsErrOf result WorldFault.OutOfMemory → media.new ≡ media.old }
        ensures err { IsErrOf result WorldFault.OutOfMemory → self.new ≡ self.old }
        ensures size { M.size media.new ≡ M.size media.old }
    {
        let request = MkfsRequest {
            fs,
            unit,
            log,
            format,
            force,
            halt: Some(k),
        };
        self.make(media, name, &request)
    }

    /// Makes the file system that is asked for, up to where its maker halts.
    fn make<M: Media>(
        &mut self,
        media: &mut M,
        name: &HostName,
        request: &MkfsRequest,
    ) -> Result<(), WorldFault>
        requires { IsTrue (is_format request.now.format) }
        ensures answered { IfAnswered result (λ answered. MakeCall (Makes name.now request.now) (M.size media.old)
            answered (change M.state media.old media.new) self.old self.new) }
        ensures untouched { IsUntouched (Makes name.now request.now) (M.size media.old) self.old media.old media.new }
        ensures undone { IsErrOf result WorldFault.OutOfMemory → media.new ≡ media.old }
        ensures err { IsErrOf result WorldFault.OutOfMemory → self.new ≡ self.old }
        ensures size { M.size media.new ≡ M.size media.old }
    {
        is_uuid(request.fs);
        if make_room(&mut self.journal).is_err() {
            return Err(WorldFault::OutOfMemory);
        }
        let at = match maker(&self.hosts, name, request, media.lines()) {
            Ok(at) => at,
            Err(cause) => return Err(refused(&mut self.journal, name, cause)),
        };
        match make_host(&mut self.hosts[at], media, request) {
            Ok(end) => note_end(&mut self.journal, name, at, end),
            Err(_) => Err(WorldFault::OutOfMemory),
        }
    }
}
