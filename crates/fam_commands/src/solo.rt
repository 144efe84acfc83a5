//! A law of a command that runs alone.

ghost use Rattle.std.specs.Prelude.{◌≡◌, ℕ, List, Option, length};
ghost use Rattle.fam_base.specs.declared.cmd.Cmd.{Cmd};
ghost use Rattle.fam_base.specs.Image.{Image};
ghost use Rattle.fam_machine.specs.Caches.{Cache};
ghost use Rattle.fam_machine.specs.Operations.{Machine, machine, operated_all};
ghost use Rattle.fam_commands.specs.Kept.{Kept};
ghost use Rattle.fam_commands.specs.Solo.{SoloRun};
ghost use Rattle.fam_commands.specs.SoloOps.{ops_up_to};
ghost use Rattle.fam_commands.specs.Task.{Task};

/// What a command that runs alone has come to is what the list of its operations leaves: of the image and the cache
/// that it began with (`leaves`). They are as many as it made (`count`).
pub fn a_solo_command_is_a_run_of_operations()
    ensures leaves { (kept : Option Kept) (cmd : Cmd) (me : List ℕ) (image : Image) (cache : Cache) (t : Task) (words : List ℕ) (made : ℕ)
        (m : Machine) (ran : SoloRun kept cmd me image cache t words made m) →
        m ≡ operated_all (ops_up_to kept cmd me image cache t words made m ran) (machine image cache) }
    ensures count { (kept : Option Kept) (cmd : Cmd) (me : List ℕ) (image : Image) (cache : Cache) (t : Task) (words : List ℕ) (made : ℕ)
        (m : Machine) (ran : SoloRun kept cmd me image cache t words made m) →
        length (ops_up_to kept cmd me image cache t words made m ran) ≡ made }
{}
