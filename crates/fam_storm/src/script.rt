//! A storm's whole script.

ghost use Rattle.std.specs.Prelude.{◌≡◌, ◌<◌, ◌≤◌, IfOk};
ghost use Rattle.fam_storm.specs.Storm.{storm};

use crate::lines::put_front;
use crate::rounds::put_round;
use fam_base::OutOfMemory;
use rand_core::SeedableRng;
use rand_xoshiro::Xoshiro256PlusPlus;
use std::alloc::Global;

/// The script of a storm: hosts, a file system, and `size` rounds, of one to four lines each, which the seed fixes.
pub fn storm(alloc: Global, seed: u64, size: u64) -> Result<Vec<u8>, OutOfMemory>
    requires { size ≤ 100000 }
    ensures { IfOk result (λ script. script.items ≡ storm seed size) }
{
    let mut script = Vec::new(alloc);
    put_front(&mut script)?;
    let mut generator = Xoshiro256PlusPlus::seed_from_u64(seed);
    for i in 0..size {
        put_round(alloc, i, &mut generator, &mut script)?;
    }
    Ok(script)
}
