//! Writing the shadow of a tree: a pass of looks, and one of puts.

ghost use Rattle.std.specs.Prelude.{◌≡◌, ◌≤◌, ◌∷◌, [], IfErr, IfOk, OnErr, OnOk, None, Some, false, true};
ghost use Rattle.std.specs.Option.{option_map};
ghost use Rattle.std.specs.FinMap as map;
ghost use Rattle.fam_base.specs.Paths.{is_path};
ghost use Rattle.fam_media.specs.Outside.{IfModelled};
ghost use Rattle.fam_media.specs.States.{change};
ghost use Rattle.fam_shadow.specs.Calls.{CallsMade, LooksStop, PutsStop, WereMade};
ghost use Rattle.fam_shadow.specs.Nodes.{IsCall, CountsFaults, IsOneMore, with_node};
ghost use Rattle.fam_shadow.specs.Shadows as spec;
ghost use Rattle.fam_shadow.specs.Shadows.{NodesBecome, FaultCaused, ShadowEnds, is_clash, node_of};
ghost use Rattle.fam_shadow.specs.Passes as pass;
ghost use Rattle.fam_shadow.specs.Passes.{EntriesPartlyPut, AreDistinct, CallStops, EntryFault, IsCutAt, PassFault, first_met, with_entries};

use crate::fault::ShadowFault;
use crate::names::{description, name_of};
use crate::shade::{Look, Shade, ShadeStop};
use fam_base::{Entry, Kind, NameText};
use fam_tree::Tree;
use std::alloc::Global;

/// Whether what was seen at the name of an entry of this kind is the other kind.
fn is_other(kind: Kind, look: Look) -> bool
    ensures { result ≡ pass.is_other_kind kind look }
{
    match kind {
        Kind::Directory => look == Look::File,
        Kind::File => look == Look::Directory,
    }
}

/// Looks at an entry's name, and gives it where the other kind stands there.
fn clash_at<D: Shade>(
    alloc: Global,
    entry: &Entry,
    shade: &mut D,
) -> Result<Option<NameText>, ShadowFault>
    ensures met { IfOk result (λ met. IfModelled (D.state shade.old).nodes (λ held. met ≡ first_met (entry.now ∷ []) held)) }
    ensures path { OnOk result (is_path entry.now.path ≡ true) }
    ensures same { (D.state shade.new).nodes ≡ (D.state shade.old).nodes }
    ensures fault { IfErr result (EntryFault entry.now (D.state shade.old).faults (D.state shade.new).faults) }
    ensures later { (D.state shade.old).faults ≤ (D.state shade.new).faults }
    ensures steady { OnOk result ((D.state shade.new).faults ≡ (D.state shade.old).faults) }
    ensures call { OnOk result (IsOneMore (D.state shade.old).calls (D.state shade.new).calls) }
    ensures stop { IfErr result (CallStops (D.state shade.old) (D.state shade.new)) }
{
    let name = name_of(alloc, entry)?;
    let Ok(look) = shade.look(name.text()) else {
        return Err(ShadowFault::ShadeFault(name));
    };
    if is_other(entry.kind, look) {
        return Ok(Some(name));
    }
    Ok(None)
}

/// Looks at the names of all entries, and gives the first one at which the other kind stands.
fn first_clash<D: Shade>(
    alloc: Global,
    tree: &Tree,
    shade: &mut D,
) -> Result<Option<NameText>, ShadowFault>
    ensures met { IfOk result (λ met. IfModelled (D.state shade.old).nodes (λ held. met ≡ first_met (map.values tree.now) held)) }
    ensures distinct { OnOk result (AreDistinct (map.values tree.now)) }
    ensures same { (D.state shade.new).nodes ≡ (D.state shade.old).nodes }
    ensures fault { IfErr result (PassFault (map.values tree.now) (D.state shade.old).faults (D.state shade.new).faults) }
    ensures later { (D.state shade.old).faults ≤ (D.state shade.new).faults }
    ensures calls { OnOk result (WereMade (map.values tree.now) (D.state shade.old) (D.state shade.new)) }
    ensures stop { IfErr result (LooksStop (map.values tree.now) (D.state shade.old) (D.state shade.new)) }
{
    let mut first = None;
    for entry in tree.iter() {
        let met = clash_at(alloc, &entry, shade)?;
        first = first.or(met);
    }
    Ok(first)
}

/// Makes an entry's name a directory or a description.
fn put_node<D: Shade>(
    alloc: Global,
    entry: &Entry,
    name: &NameText,
    shade: &mut D,
) -> Result<(), ShadeStop>
    requires name { name.now ≡ spec.name_of entry.now }
    requires clear { IfModelled (D.state shade.old).nodes (λ held. is_clash (Some (node_of entry.now)) (map.get held name.now) ≡ false) }
    ensures put { OnOk result ((D.state shade.new).nodes ≡ option_map (with_node name.now (node_of entry.now)) (D.state shade.old).nodes) }
    ensures cut { OnErr result (IsCutAt (node_of entry.now) name.now (D.state shade.old).nodes (D.state shade.new).nodes) }
    ensures cause { CountsFaults (D.state shade.old).faults (D.state shade.new).faults result }
    ensures call { IsCall (D.state shade.old).calls (D.state shade.new).calls result }
{
    match entry.kind {
        Kind::Directory => shade.make_dir(name.text()),
        Kind::File => {
            let Ok(text) = description(alloc, entry) else {
                return Err(ShadeStop::OutOfMemory);
            };
            shade.put(name.text(), text.as_slice())
        }
    }
}

/// Puts an entry, at whose name no other kind stands.
fn put_entry<D: Shade>(alloc: Global, entry: &Entry, shade: &mut D) -> Result<(), ShadowFault>
    requires clear { IfModelled (D.state shade.old).nodes (λ held. is_clash (Some (node_of entry.now)) (map.get held (spec.name_of entry.now)) ≡ false) }
    ensures put { OnOk result ((D.state shade.new).nodes ≡ option_map (with_node (spec.name_of entry.now) (node_of entry.now)) (D.state shade.old).nodes) }
    ensures cut { OnErr result (IsCutAt (node_of entry.now) (spec.name_of entry.now) (D.state shade.old).nodes (D.state shade.new).nodes) }
    ensures fault { IfErr result (EntryFault entry.now (D.state shade.old).faults (D.state shade.new).faults) }
    ensures later { (D.state shade.old).faults ≤ (D.state shade.new).faults }
    ensures steady { OnOk result ((D.state shade.new).faults ≡ (D.state shade.old).faults) }
    ensures call { OnOk result (IsOneMore (D.state shade.old).calls (D.state shade.new).calls) }
    ensures stop { IfErr result (CallStops (D.state shade.old) (D.state shade.new)) }
{
    let name = name_of(alloc, entry)?;
    match put_node(alloc, entry, &name, shade) {
        Ok(()) => Ok(()),
        Err(ShadeStop::Failed) => Err(ShadowFault::ShadeFault(name)),
        Err(ShadeStop::OutOfMemory) => Err(ShadowFault::OutOfMemory),
    }
}

/// Puts all entries of a tree, at whose names no other kind stands.
fn put_all<D: Shade>(alloc: Global, tree: &Tree, shade: &mut D) -> Result<(), ShadowFault>
    requires distinct { AreDistinct (map.values tree.now) }
    requires clear { IfModelled (D.state shade.old).nodes (λ held. first_met (map.values tree.now) held ≡ None) }
    ensures put { OnOk result ((D.state shade.new).nodes ≡ option_map (with_entries (map.values tree.now)) (D.state shade.old).nodes) }
    ensures cut { OnErr result (EntriesPartlyPut (map.values tree.now) (D.state shade.old).nodes (D.state shade.new).nodes) }
    ensures fault { IfErr result (PassFault (map.values tree.now) (D.state shade.old).faults (D.state shade.new).faults) }
    ensures later { (D.state shade.old).faults ≤ (D.state shade.new).faults }
    ensures calls { OnOk result (WereMade (map.values tree.now) (D.state shade.old) (D.state shade.new)) }
    ensures stop { IfErr result (PutsStop (map.values tree.now) (D.state shade.old) (D.state shade.new)) }
{
    for entry in tree.iter() {
        put_entry(alloc, &entry, shade)?;
    }
    Ok(())
}

/// Writes the shadow of a tree: under the printed form of each path a directory, or a file's description. All names are
/// looked at, in byte order of the paths, before the first one is made, and then they are made in that order.
///
/// `Clash` names the first name at which a file stands where a directory is to be, or a directory where a file is to
/// be; nothing is changed then. `ShadeFault` names the name at which the shade failed, and that call was the last one.
/// No call failed in a run with another end. Behind a fault, and where no memory was left, each name of the shadow holds
/// what it held, its node, or a prefix of its bytes: the names before it were made, and none behind it. A later run ends
/// as this one would have. No other name is touched.
pub fn shadow<D: Shade>(alloc: Global, tree: &Tree, shade: &mut D) -> Result<(), ShadowFault>
    ensures ends { NodesBecome (D.state shade.old).nodes (D.state shade.new).nodes (ShadowEnds tree.now result) }
    ensures cause { IfErr result (FaultCaused tree.now (D.state shade.old).faults (D.state shade.new).faults) }
    ensures calls { CallsMade tree.now (change D.state shade.old shade.new) result }
    ensures later { (D.state shade.old).faults ≤ (D.state shade.new).faults }
{
    if let Some(name) = first_clash(alloc, tree, shade)? {
        return Err(ShadowFault::Clash(name));
    }
    put_all(alloc, tree, shade)
}
