// What the tests share: runs over a disk and a link in memory.
use gs_disk::{DiskName, MemDisk, is_disk_name};
use gs_run::gs;
use gs_site::{KitLaw, MemLink, Past, Site, Turn};
use gs_types::MemSink;
use std::alloc::Global;
use std::process::Abort;
use std::test::Fail;

pub const IDL: &[u8] = b"interface KIT {\n    void join(in File a, in File b, out File c);\n};\n";

pub const PROGRAM: &[u8] =
    b"main() {\n    GS_On();\n    join(\"A\", \"B\", \"C\");\n    GS_Off(0);\n}\n";

pub const LIST: &[u8] = b"w1 1 ./kit *\n";

pub const KIT: &[u8] =
    b"interface KIT {\n    void join(in File a, in File b, out File c);\n    void grow(inout File f, in string s);\n    void count(in File f, out int n);\n};\n";

pub const RUN: [&str; 4] = ["run", "k.idl", "p.c", "w.txt"];

/// What a run left: its status, its line, its output, its disk, and its link's history.
#[derive(Drop)]
pub struct Outcome {
    pub status: u8,
    pub err: MemSink,
    pub out: MemSink,
    pub disk: MemDisk,
    pub link: MemLink<KitLaw>,
}

pub fn name(rt: &impl Abort, bytes: &[u8]) -> DiskName {
    assert!(*rt; is_disk_name(bytes));
    DiskName::of(bytes)
}

pub fn words_of(alloc: Global, texts: &[&str]) -> Result<Vec<String>, Fail> {
    let mut words = Vec::new(alloc);
    for text in texts {
        words.push(String::from_str(alloc, *text)?)?;
    }
    Ok(words)
}

pub fn disk_of(rt: &impl Abort, alloc: Global, files: &[(&[u8], &[u8])]) -> Result<MemDisk, Fail> {
    let mut disk = MemDisk::new(alloc);
    for (file, bytes) in files {
        assert!(*rt; disk.add(name(rt, *file), *bytes).is_ok());
    }
    Ok(disk)
}

/// Runs these words over this disk, with the kit's law, a script of turns, and outputs that fail at
/// the listed calls.
pub fn run_with(
    alloc: Global,
    texts: &[&str],
    disk: MemDisk,
    script: Vec<Turn>,
    out_failing: Vec<u64>,
    err_failing: Vec<u64>,
) -> Result<Outcome, Fail> {
    let words = words_of(alloc, texts)?;
    let mut site = Site::new(disk, MemLink::new(alloc, KitLaw, script));
    let mut out = MemSink::new(alloc, 1000, out_failing)?;
    let mut err = MemSink::new(alloc, 1000, err_failing)?;
    let status = gs(alloc, &words, &mut site, &mut out, &mut err);
    let (disk, link) = site.take_apart();
    Ok(Outcome {
        status,
        err,
        out,
        disk,
        link,
    })
}

/// The same where `err` alone fails.
pub fn run(
    alloc: Global,
    texts: &[&str],
    disk: MemDisk,
    script: Vec<Turn>,
    failing: Vec<u64>,
) -> Result<Outcome, Fail> {
    run_with(alloc, texts, disk, script, Vec::new(alloc), failing)
}

/// The same where no output fails, by a script in bytes: `.` the first job ends well, `!` it fails,
/// `1` the one behind it ends well.
pub fn run_by(
    alloc: Global,
    texts: &[&str],
    disk: MemDisk,
    script: &[u8],
) -> Result<Outcome, Fail> {
    let mut turns = Vec::new(alloc);
    for byte in script {
        turns.push(Turn {
            pick: u32::from(*byte == b'1'),
            well: *byte != b'!',
        })?;
    }
    run(alloc, texts, disk, turns, Vec::new(alloc))
}

/// A disk with the kit, this program and worker list, `A` as `a`, `B` as `b`, and `F` empty.
pub fn kit_disk<'a>(
    rt: &impl Abort,
    alloc: Global,
    program: &'a [u8],
    list: &'a [u8],
) -> Result<MemDisk, Fail> {
    let files: [(&[u8], &[u8]); 6] = [
        (b"k.idl", KIT),
        (b"p.c", program),
        (b"w.txt", list),
        (b"A", b"a"),
        (b"B", b"b"),
        (b"F", b""),
    ];
    disk_of(rt, alloc, &files)
}

/// What the disk's store holds, as `report` tells it.
pub fn reported(rt: &impl Abort, alloc: Global, disk: MemDisk) -> Result<Outcome, Fail> {
    let made = run_by(alloc, &["report"], disk, b"")?;
    assert_eq!(*rt; made.status, 0);
    Ok(made)
}

/// Runs `run k.idl p.c w.txt` over these files.
pub fn run_files(
    rt: &impl Abort,
    alloc: Global,
    files: &[(&[u8], &[u8])],
) -> Result<Outcome, Fail> {
    let disk = disk_of(rt, alloc, files)?;
    run(
        alloc,
        &["run", "k.idl", "p.c", "w.txt"],
        disk,
        Vec::new(alloc),
        Vec::new(alloc),
    )
}

/// A history in words: `+1@0` task 1 starts on worker 0, `?1@0` its start is refused, `-1` it
/// finishes, `!1` it fails, `#` all in flight are abandoned; a blank behind each.
pub fn told(alloc: Global, past: &[Past]) -> Result<String, Fail> {
    let mut words = String::new(alloc);
    for event in past {
        match event {
            Past::Started { n, worker } => write!(words, "+{n}@{worker} ")?,
            Past::Refused { n, worker } => write!(words, "?{n}@{worker} ")?,
            Past::Finished { n } => write!(words, "-{n} ")?,
            Past::Failed { n } => write!(words, "!{n} ")?,
            Past::Abandoned => words.push_str("# ")?,
        }
    }
    Ok(words)
}

/// A file of the disk is present and reads like this.
pub fn reads(rt: &impl Abort, disk: &MemDisk, file: &[u8], bytes: &[u8]) -> bool {
    let file = name(rt, file);
    match disk.get(&file) {
        Some(found) => found == bytes,
        None => false,
    }
}
