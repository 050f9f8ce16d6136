//! The current directory as the disk that `gs` works on.
#![tactic(auto)]

mod calls;
mod folder;

pub use folder::Folder;

#[cfg(test)]
mod tests;
