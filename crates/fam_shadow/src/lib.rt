//! The shadow of a tree: a folder in which a directory stands for each directory of the tree, and a description for
//! each file, under the printed forms of their paths.
//!
//! `specs/Nodes.antt` says what a folder holds and what calls on it do, and `specs/Shadows.antt` what the shadow of a
//! tree is, which answer comes when, and what is left behind a fault.
#![tactic(auto)]

mod fault;
mod laws;
mod memory_shade;
mod names;
mod node;
mod passes;
mod shade;

pub use fault::ShadowFault;
pub use laws::a_later_run_ends_alike;
pub use memory_shade::MemShade;
pub use node::Node;
pub use passes::shadow;
pub use shade::{Look, Shade, ShadeStop};
