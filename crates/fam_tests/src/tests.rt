//! Each test stands for calls that no command comes to.

mod files;
mod large;
mod random;
mod surface;
