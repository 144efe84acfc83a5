//! The laws of room and strips.

ghost use Rattle.std.specs.Prelude.{ℕ, Bool, Option, List, ◌≡◌, ◌/◌, ◌<◌};
ghost use Rattle.fam_rules.specs.Room.{IsRoom, room, IsStrips, strips, bucket};

/// `room` is the least start, and nothing else is.
pub fn room_law()
    ensures least { (used : ℕ → Bool) (from end k : ℕ) →
        IsRoom used from end k (room used from end k) }
    ensures only { (used : ℕ → Bool) (from end k : ℕ) (found : Option ℕ) →
        IsRoom used from end k found → found ≡ room used from end k }
{}

/// `strips` are the least starts in the first buckets that have room, and nothing else is. There are none
/// exactly where too few buckets have room.
pub fn strips_law()
    ensures first { (used : ℕ → Bool) (units k n buckets seq : ℕ) →
        IsStrips used (units / buckets) k n buckets seq (strips used units k n buckets seq) }
    ensures only { (used : ℕ → Bool) (units k n buckets seq : ℕ) (found : Option (List ℕ)) →
        IsStrips used (units / buckets) k n buckets seq found → found ≡ strips used units k n buckets seq }
{}

/// The turns try each bucket once.
pub fn buckets_once()
    ensures once { (buckets seq s t : ℕ) → s < buckets → t < buckets →
        bucket buckets seq s ≡ bucket buckets seq t → s ≡ t }
    ensures each { (buckets seq x : ℕ) → x < buckets →
        (t : ℕ) × (t < buckets) × (bucket buckets seq t ≡ x) }
{}
