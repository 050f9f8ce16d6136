//! The command `gsin`: the words of the command line, over the current directory and built-in
//! operations on files.
#![tactic(auto)]

mod inside;
#[cfg(test)]
mod tests;

use crate::inside::gs_inside;
use gs_filters::InsideLink;
use gs_folder::Folder;
use gs_site::Site;
use gs_types::StdSink;
use std::env;
use std::process::ExitCode;

fn words_of(rt: &HostRuntime) -> Option<Vec<String>> {
    let mut words = Vec::new(rt.alloc());
    let mut args = match env::args(rt) {
        Ok(args) => args,
        Err(_) => return None,
    };
    args.next()?;
    for word in args {
        if words.push(word).is_err() {
            return None;
        }
    }
    Some(words)
}

fn main(rt: HostRuntime) -> ExitCode {
    let alloc = rt.alloc();
    let Some(words) = words_of(&rt) else {
        return ExitCode::from(1);
    };
    let mut site = Site::new(Folder::here(&rt, alloc), InsideLink::new(alloc));
    let mut out = StdSink::new(rt.stdout());
    let mut err = StdSink::new(rt.stderr());
    ExitCode::from(gs_inside(alloc, &words, &mut site, &mut out, &mut err))
}
