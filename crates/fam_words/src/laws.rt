//! The law of the words, with an empty body.

ghost use Rattle.std.specs.Prelude.{IfSome, ℕ, List};
ghost use Rattle.fam_words.specs.Calls.{HasUuids, call_of};

/// The UUIDs that words give, of a host and of a new file system, are UUIDs: sixteen bytes, each below 256; and the format
/// that they give is one that there is.
pub fn uuids_of_words_are_uuids()
    ensures { (words : List (List ℕ)) → IfSome (call_of words) (λ call. HasUuids call.invocation) }
{}
