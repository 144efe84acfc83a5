//! A shade in memory, of which chosen calls fail.

ghost use Rattle.std.specs.Prelude.{◌≡◌, ◌≤◌, ◌∷◌, Some, IfOk, IsErrOf, false, true, OnErr, OnOk, is_err, is_some, map as list_map};
ghost use Rattle.std.specs.Bool.{OnTrue};
ghost use Rattle.std.specs.Option.{option_map};
ghost use Rattle.std.specs.String.{string_bytes};
ghost use Rattle.std.specs.FinMap as map;
ghost use Rattle.fam_media.specs.Causes.{HasCause, Rose};
ghost use Rattle.fam_media.specs.Files.{name_cmp};
ghost use Rattle.fam_media.specs.Outside.{IfModelled};
ghost use Rattle.fam_shadow.specs.declared.node.Node.TheVariants as node;
ghost use Rattle.fam_shadow.specs.MemoryShade as spec;
ghost use Rattle.fam_shadow.specs.MemoryShade.{after_call, after_make_dir, after_put, node_bytes, empty_shade};
ghost use Rattle.fam_shadow.specs.Nodes as nodes;
ghost use Rattle.fam_shadow.specs.Nodes.{IsCall, CountsFaults, IsOneMore, IsTornPut, look_at, with_node};

use crate::node::Node;
use crate::shade::{Look, Shade, ShadeStop};
use fam_base::{ByteText, OutOfMemory};
use fam_media::{Failed, find_planned};
use std::alloc::Global;
use std::marker::Model;

/// Directories and files in memory, with calls that are to fail. All calls of the trait are counted together, from 0.
#[derive(Drop)]
pub struct MemShade {
    alloc: Global,

    /// What was made last stands first: where a name stands twice, the first one counts.
    nodes: Vec<(String, Node)>,
    calls: u64,
    plan: Vec<(u64, u64)>,
    faults: u64,
}

impl Model for MemShade {
    ghost use Rattle.std.specs.Prelude.{map as list_map};
    ghost use Rattle.std.specs.Coded.{codes, coded_list, coded_ℕ};
    ghost use Rattle.std.specs.String.{string_bytes};
    ghost use Rattle.std.specs.FinMap as map;
    ghost use Rattle.fam_media.specs.Files.{name_cmp};
    ghost use Rattle.fam_shadow.specs.contracts.node.Node as node_type;
    ghost use Rattle.fam_shadow.specs.MemoryShade.{MemShadeState};

    ghost Value = { MemShadeState };

    ghost coded = { Prim.hlevel (codes, map.code {R = name_cmp} (coded_list coded_ℕ) node_type.the_row.coded) };

    ghost view = { λ s. record {
      nodes = map.from_entries (list_map (λ n. (string_bytes n.0, n.1)) s.nodes.items);
      calls = s.calls;
      plan = s.plan.items;
      faults = s.faults;
    } };
}

/// The first node of that name.
fn find_node<'a>(nodes: &'a [(String, Node)], name: &str) -> Option<&'a Node>
    ensures { option_map (λ node. node.now) result ≡ map.find name_cmp name.now (list_map (λ n. (string_bytes n.0, n.1)) nodes.now) }
{
    for n in nodes {
        if name == n.0.as_str() {
            return Some(&n.1);
        }
    }
    None
}

/// A copy of a name.
fn owned_name(alloc: Global, name: &str) -> Result<String, OutOfMemory>
    ensures { IfOk result (λ owned. string_bytes owned ≡ name.now) }
{
    match String::from_str(alloc, name) {
        Ok(owned) => Ok(owned),
        Err(_) => Err(OutOfMemory),
    }
}

/// A copy of a file's bytes.
fn owned_bytes(alloc: Global, bytes: &[u8]) -> Result<ByteText, OutOfMemory>
    ensures { IfOk result (λ owned. owned ≡ bytes.now) }
{
    match Vec::from_slice(alloc, bytes) {
        Ok(owned) => Ok(ByteText::new(owned)),
        Err(_) => Err(OutOfMemory),
    }
}

/// What is seen of a node.
fn look_of(node: Option<&Node>) -> Look
    ensures { result ≡ nodes.look_of (option_map (λ n. n.now) node.entry) }
{
    match node {
        None => Look::Nothing,
        Some(Node::Directory) => Look::Directory,
        Some(Node::File(_)) => Look::File,
    }
}

impl MemShade {
    /// A shade in which nothing stands, and of which no call is to fail.
    pub fn new(alloc: Global) -> MemShade
        ensures value { result ≡ empty_shade }
    {
        MemShade {
            alloc,
            nodes: Vec::new(alloc),
            calls: 0,
            plan: Vec::new(alloc),
            faults: 0,
        }
    }

    /// The name is a file of these bytes from now on.
    pub fn add(&mut self, name: &str, bytes: &[u8]) -> Result<(), OutOfMemory>
        ensures added { OnOk result
            (self.new ≡ record self.old { nodes = with_node name.now (node.File bytes.now) self.old.nodes }) }
        ensures err { OnErr result (self.new ≡ self.old) }
    {
        let bytes = owned_bytes(self.alloc, bytes)?;
        self.set(name, Node::File(bytes))
    }

    /// The call with that number will fail, and a put keep at most so many bytes. Where it keeps none the old bytes stay.
    pub fn fail(&mut self, call: u64, kept: u64) -> Result<(), OutOfMemory>
        ensures planned { OnOk result (self.new ≡ record self.old { plan = (call, kept) ∷ self.old.plan }) }
        ensures err { OnErr result (self.new ≡ self.old) }
    {
        match self.plan.insert(0, (call, kept)) {
            Ok(()) => Ok(()),
            Err(_) => Err(OutOfMemory),
        }
    }

    /// The bytes of a name, and `None` exactly where no file has it.
    pub fn at(&self, name: &str) -> Option<&[u8]>
        ensures { option_map (λ bytes. bytes.now) result ≡ node_bytes (map.get self.now.nodes name.now) }
    {
        match self.node(name) {
            Some(Node::File(bytes)) => Some(bytes.bytes()),
            Some(Node::Directory) => None,
            None => None,
        }
    }

    /// What stands at a name.
    fn node(&self, name: &str) -> Option<&Node>
        ensures { option_map (λ node. node.now) result ≡ map.get self.now.nodes name.now }
    {
        find_node(&self.nodes, name)
    }

    /// Puts a node at a name.
    fn set(&mut self, name: &str, node: Node) -> Result<(), OutOfMemory>
        ensures set { OnOk result (self.new ≡ record self.old { nodes = with_node name.now node self.old.nodes }) }
        ensures err { OnErr result (self.new ≡ self.old) }
    {
        let name = owned_name(self.alloc, name)?;
        match self.nodes.insert(0, (name, node)) {
            Ok(()) => Ok(()),
            Err(_) => Err(OutOfMemory),
        }
    }

    /// Tells how many bytes the next call keeps where it is to fail.
    fn next_kept(&self) -> Option<u64>
        ensures { result ≡ spec.next_kept self.now }
    {
        find_planned(&self.plan, self.calls)
    }

    /// Counts a call, and as a fault where it failed.
    fn count(&mut self, failed: bool)
        requires { failed ≡ is_some (spec.next_kept self.old) }
        ensures after { self.new ≡ after_call self.old }
        ensures later { self.old.faults ≤ self.new.faults }
        ensures rose { OnTrue failed (Rose self.old.faults self.new.faults) }
    {
        self.calls = self.calls.saturating_add(1);
        if failed {
            self.faults = self.faults.saturating_add(1);
        }
    }
}

impl Shade for MemShade {
    ghost state = { λ s. record { nodes = Some s.nodes; faults = s.faults; calls = Some s.calls } };

    fn look(&mut self, name: &str) -> Result<Look, Failed>
        ensures value { IfOk result (λ look. IfModelled (Some self.old.nodes) (λ nodes. look ≡ look_at nodes name.now)) }
        ensures same { Some self.new.nodes ≡ Some self.old.nodes }
        ensures cause { HasCause self.old.faults self.new.faults result }
        ensures done { OnOk result (self.new.faults ≡ self.old.faults) }
        ensures call { IsOneMore (Some self.old.calls) (Some self.new.calls) }

        // It fails exactly where that was planned.
        ensures fails { is_err result ≡ is_some (spec.next_kept self.old) }
        ensures after { self.new ≡ after_call self.old }
    {
        let failed = self.next_kept().is_some();
        self.count(failed);
        if failed {
            return Err(Failed);
        }
        Ok(look_of(self.node(name)))
    }

    fn make_dir(&mut self, name: &str) -> Result<(), ShadeStop>
        requires { IfModelled (Some self.old.nodes) (λ nodes. look_at nodes name.now ≡ Look.File → ⊥) }

        ensures made { OnOk result (Some self.new.nodes ≡ option_map (with_node name.now node.Directory) (Some self.old.nodes)) }
        ensures err { OnErr result (Some self.new.nodes ≡ Some self.old.nodes) }
        ensures cause { CountsFaults self.old.faults self.new.faults result }
        ensures call { IsCall (Some self.old.calls) (Some self.new.calls) result }

        // It fails exactly where that was planned, and finds memory or changes nothing.
        ensures fails { IsErrOf result ShadeStop.Failed → is_some (spec.next_kept self.old) ≡ true }
        ensures done { OnOk result (is_some (spec.next_kept self.old) ≡ false) }
        ensures after { (IsErrOf result ShadeStop.OutOfMemory → ⊥) → self.new ≡ after_make_dir name.now self.old }
        ensures whole { IsErrOf result ShadeStop.OutOfMemory → self.new ≡ self.old }
    {
        if self.next_kept().is_some() {
            self.count(true);
            return Err(ShadeStop::Failed);
        }
        if self.set(name, Node::Directory).is_err() {
            return Err(ShadeStop::OutOfMemory);
        }
        self.count(false);
        Ok(())
    }

    fn put(&mut self, name: &str, bytes: &[u8]) -> Result<(), ShadeStop>
        requires { IfModelled (Some self.old.nodes) (λ nodes. look_at nodes name.now ≡ Look.Directory → ⊥) }

        ensures put { OnOk result (Some self.new.nodes ≡ option_map (with_node name.now (node.File bytes.now)) (Some self.old.nodes)) }
        ensures torn { IsErrOf result ShadeStop.Failed → IsTornPut (Some self.old.nodes) (Some self.new.nodes) name.now bytes.now }
        ensures memory { IsErrOf result ShadeStop.OutOfMemory → Some self.new.nodes ≡ Some self.old.nodes }
        ensures cause { CountsFaults self.old.faults self.new.faults result }
        ensures call { IsCall (Some self.old.calls) (Some self.new.calls) result }

        // It fails exactly where that was planned, and finds memory or changes nothing.
        ensures fails { IsErrOf result ShadeStop.Failed → is_some (spec.next_kept self.old) ≡ true }
        ensures done { OnOk result (is_some (spec.next_kept self.old) ≡ false) }
        ensures after { (IsErrOf result ShadeStop.OutOfMemory → ⊥) → self.new ≡ after_put name.now bytes.now self.old }
        ensures whole { IsErrOf result ShadeStop.OutOfMemory → self.new ≡ self.old }
    {
        let kept = self.next_kept();
        let put = match kept {
            None => bytes,
            Some(kept) => &bytes[..bytes.len().min(kept as usize)],
        };
        if !(kept.is_some() && put.is_empty()) && self.add(name, put).is_err() {
            return Err(ShadeStop::OutOfMemory);
        }
        self.count(kept.is_some());
        match kept {
            None => Ok(()),
            Some(_) => Err(ShadeStop::Failed),
        }
    }
}
