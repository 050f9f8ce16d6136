//! The command `gs`: the words of the command line, over the current directory and child programs.
#![tactic(auto)]

use gs_folder::Folder;
use gs_proc::ProcLink;
use gs_run::gs;
use gs_site::Site;
use gs_types::StdSink;
use std::env;
use std::process::ExitCode;

fn words_of(rt: &HostRuntime) -> Option<Vec<String>> {
    let mut words = Vec::new(rt.alloc());
    let mut args = match env::args(rt) {
        Ok(args) => args,
        Err(_) => return None,
    };
    args.next()?;
    for word in args {
        if words.push(word).is_err() {
            return None;
        }
    }
    Some(words)
}

fn main(rt: HostRuntime) -> ExitCode {
    let alloc = rt.alloc();
    let Some(words) = words_of(&rt) else {
        return ExitCode::from(1);
    };
    let mut site = Site::new(Folder::here(&rt, alloc), ProcLink::new(&rt, alloc));
    let mut out = StdSink::new(rt.stdout());
    let mut err = StdSink::new(rt.stderr());
    ExitCode::from(gs(alloc, &words, &mut site, &mut out, &mut err))
}
