//! A shade: a folder to write into, by names.

ghost use Rattle.std.specs.Prelude.{◌≡◌, IfOk, IsErrOf, OnErr, OnOk};
ghost use Rattle.std.specs.Option.{option_map};
ghost use Rattle.fam_media.specs.Causes.{HasCause};
ghost use Rattle.fam_media.specs.Outside.{IfModelled};
ghost use Rattle.fam_shadow.specs.declared.node.Node.TheVariants as node;
ghost use Rattle.fam_shadow.specs.Nodes.{IsCall, CountsFaults, IsOneMore, IsTornPut, ShadeState, look_at, with_node};

use fam_media::Failed;

/// What stands at a name.
#[derive(Clone, Copy, PartialEq, Eq)]
pub enum Look {
    Nothing,
    Directory,
    File,
}

/// Why a name wasn't made.
#[derive(Clone, Copy)]
pub enum ShadeStop {
    /// The folder could not be written.
    Failed,
    /// No memory was left. Nothing was changed.
    OutOfMemory,
}

/// Directories and files by name, of which no call changes any but its own name.
pub trait Shade {
    /// What stands at each name, where it is told, how often a call failed, and how many calls were made, where it is told.
    ghost state: { Self → ShadeState };

    /// Tells what stands at a name, and changes nothing.
    fn look(&mut self, name: &str) -> Result<Look, Failed>
        ensures value { IfOk result (λ look. IfModelled (state self.old).nodes (λ nodes. look ≡ look_at nodes name.now)) }
        ensures same { (state self.new).nodes ≡ (state self.old).nodes }
        ensures cause { HasCause (state self.old).faults (state self.new).faults result }
        ensures done { OnOk result ((state self.new).faults ≡ (state self.old).faults) }
        ensures call { IsOneMore (state self.old).calls (state self.new).calls };

    /// Makes the name a directory, also where it is one. Where it can't, nothing is changed.
    fn make_dir(&mut self, name: &str) -> Result<(), ShadeStop>
        requires { IfModelled (state self.old).nodes (λ nodes. look_at nodes name.now ≡ Look.File → ⊥) }

        ensures made { OnOk result ((state self.new).nodes ≡ option_map (with_node name.now node.Directory) (state self.old).nodes) }
        ensures err { OnErr result ((state self.new).nodes ≡ (state self.old).nodes) }
        ensures cause { CountsFaults (state self.old).faults (state self.new).faults result }
        ensures call { IsCall (state self.old).calls (state self.new).calls result };

    /// Makes the name a file of these bytes, in place of those that it has. Where that fails the name is as before, or
    /// holds a prefix of the bytes.
    fn put(&mut self, name: &str, bytes: &[u8]) -> Result<(), ShadeStop>
        requires { IfModelled (state self.old).nodes (λ nodes. look_at nodes name.now ≡ Look.Directory → ⊥) }

        ensures put { OnOk result ((state self.new).nodes ≡ option_map (with_node name.now (node.File bytes.now)) (state self.old).nodes) }
        ensures torn { IsErrOf result ShadeStop.Failed → IsTornPut (state self.old).nodes (state self.new).nodes name.now bytes.now }
        ensures memory { IsErrOf result ShadeStop.OutOfMemory → (state self.new).nodes ≡ (state self.old).nodes }
        ensures cause { CountsFaults (state self.old).faults (state self.new).faults result }
        ensures call { IsCall (state self.old).calls (state self.new).calls result };
}
