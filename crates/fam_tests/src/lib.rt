//! What no clause says and no case can: calls of the public surface that the program itself doesn't make, each with ample
//! memory, and definitions that are computed plainly beside the bodies that the program has.
#![tactic(auto)]

#[cfg(test)]
mod tests;
