//! Random numbers.

ghost use Rattle.std.specs.Prelude.{◌≡◌, ◌<◌};
ghost use Rattle.fam_storm.specs.Draws.{after, drawn};

use rand_core::utils::NextWord;
use rand_xoshiro::Xoshiro256PlusPlus;

/// The next number below a bound.
pub(crate) fn draw(generator: &mut Xoshiro256PlusPlus, bound: u64) -> u64
    requires { 0 < bound }
    ensures number { result ≡ drawn bound generator.old }
    ensures state { generator.new ≡ after generator.old }
    ensures below { result < bound }
{
    generator.next_word() % bound
}
