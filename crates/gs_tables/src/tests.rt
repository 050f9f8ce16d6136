// Small runs by hand, and runs of ten thousand tasks.
use crate::{Called, DoneNote, Gated, Scalar, StartArg, Tables};
use gs_idl::{Idl, read};
use gs_looks::Seen;
use gs_talk::CallArg;
use gs_types::{Action, FinalNote, Name, NoMemory, Note, OutNote, Sequence, Text, Version};
use std::alloc::Global;
use std::test::Fail;

const IDL: &[u8] = b"interface K {
    void join(in File a, inout File b, out File c);
    void grow(inout File a, in string s);
    void count(in File a, out int n);
};";

const JOIN: u8 = 0;

const GROW: u8 = 1;

const COUNT: u8 = 2;

const TASKS: u32 = 10_000;

// What came of a call.
#[derive(Clone, Copy, PartialEq, Eq)]
enum Came {
    Went,
    Absent,
    TooLong,
    Waits,
    Looks,
    Misfits,
}

fn outcome(called: &Called) -> Came {
    match called {
        Called::Went => Came::Went,
        Called::Absent => Came::Absent,
        Called::TooLong => Came::TooLong,
        Called::Waits { .. } => Came::Waits,
        Called::Looks { .. } => Came::Looks,
        Called::Misfits { .. } => Came::Misfits,
    }
}

fn name_of(name: &[u8]) -> Result<Name, NoMemory> {
    match Name::read(name) {
        Ok(name) => Ok(name),
        Err(_) => Err(NoMemory),
    }
}

fn text_of(alloc: Global, text: &[u8]) -> Result<Text, NoMemory> {
    match Text::read(alloc, text) {
        Ok(text) => Ok(text),
        Err(_) => Err(NoMemory),
    }
}

// A task gave this at one place.
fn gave(alloc: Global, place: u8, v: Note) -> Result<Sequence<OutNote>, NoMemory> {
    let mut outs = Sequence::new(alloc);
    outs.push(OutNote { place, v })?;
    Ok(outs)
}

// Tables of a run over the interface above.
#[derive(Drop)]
struct Trial {
    alloc: Global,
    idl: Idl,
    tables: Tables,
}

impl Trial {
    fn new(alloc: Global, notes: Vec<DoneNote>, window: u32) -> Result<Trial, NoMemory> {
        match read(alloc, IDL) {
            Err(_) => Err(NoMemory),
            Ok(idl) => Ok(Trial {
                alloc,
                idl,
                tables: Tables::new(alloc, notes, window)?,
            }),
        }
    }

    // Of task 1 the entry with index 4 says that it was `grow`, and gave this at one place.
    fn noted(alloc: Global, place: u8, v: Note) -> Result<Trial, NoMemory> {
        let mut notes = Vec::new(alloc);
        notes.push(DoneNote {
            index: 4,
            n: 1,
            op: GROW,
            outs: gave(alloc, place, v)?,
        })?;
        Trial::new(alloc, notes, 0)
    }

    fn looked(&mut self, name: &[u8], seen: Seen) -> Result<(), NoMemory> {
        self.tables.forget();
        self.tables.look(name_of(name)?, seen)
    }

    fn call(&mut self, op: u8, args: Sequence<CallArg>) -> Result<Came, NoMemory> {
        let called = self.tables.call(&self.idl, op, args)?;
        Ok(outcome(&called))
    }

    // `join(a, b, c)`
    fn join(&mut self, a: &[u8], b: &[u8], c: &[u8]) -> Result<Came, NoMemory> {
        let mut args = Sequence::new(self.alloc);
        args.push(CallArg::File { name: name_of(a)? })?;
        args.push(CallArg::File { name: name_of(b)? })?;
        args.push(CallArg::File { name: name_of(c)? })?;
        self.call(JOIN, args)
    }

    // `grow(a, "x")`
    fn grow(&mut self, a: &[u8]) -> Result<Came, NoMemory> {
        let mut args = Sequence::new(self.alloc);
        args.push(CallArg::File { name: name_of(a)? })?;
        args.push(CallArg::Str {
            s: text_of(self.alloc, b"x")?,
        })?;
        self.call(GROW, args)
    }

    // `count(a, n)`
    fn count(&mut self, a: &[u8]) -> Result<Came, NoMemory> {
        let mut args = Sequence::new(self.alloc);
        args.push(CallArg::File { name: name_of(a)? })?;
        args.push(CallArg::OutInt)?;
        self.call(COUNT, args)
    }

    fn finished(&mut self, n: u32, place: u8, v: Note) -> Result<(), NoMemory> {
        self.tables.finished(n, gave(self.alloc, place, v)?);
        Ok(())
    }

    // A task's operation, and of the file that it gets first the length and whether it may change.
    fn start(&self, n: u32) -> Result<Option<(u8, u64, bool)>, NoMemory> {
        match self.tables.start(&self.idl, n)? {
            None => Ok(None),
            Some((op, args)) => Ok(first_of(op, args.items())),
        }
    }

    // The version of a file that is opened, with its length: the number of its task or content.
    fn opening(&self, name: &[u8]) -> Result<Option<(u32, Option<u64>)>, NoMemory> {
        match self.tables.opening(&name_of(name)?) {
            None => Ok(None),
            Some((version, len)) => Ok(Some((number_of(&version), len))),
        }
    }

    fn value(&mut self, n: u32, place: u8) -> Result<Option<i64>, NoMemory> {
        match self.tables.value(n, place)? {
            Some(Scalar::Int { v }) => Ok(Some(v)),
            _ => Ok(None),
        }
    }
}

fn first_of(op: u8, args: &[StartArg]) -> Option<(u8, u64, bool)> {
    match args.first() {
        Some(StartArg::From { kept, both, .. }) => Some((op, *kept, *both)),
        _ => None,
    }
}

fn number_of(version: &Version) -> u32 {
    match version {
        Version::Original { .. } => 0,
        Version::Out { n, .. } => *n,
        Version::Main { k } => *k,
    }
}

// `join("A", "A", "B"); count("A", n);`: the second call reads what the first task leaves.
fn look_once(run: &mut Trial) -> Result<[Came; 3], NoMemory> {
    let first = run.join(b"A", b"A", b"B")?;
    run.looked(b"A", Seen::Len { len: 3 })?;
    let again = run.join(b"A", b"A", b"B")?;
    run.tables.forget();
    Ok([first, again, run.count(b"A")?])
}

// `count("D", n);`, where `D` is absent, or too long.
fn look_in_vain(run: &mut Trial) -> Result<[Came; 2], NoMemory> {
    run.looked(b"D", Seen::Absent)?;
    let absent = run.count(b"D")?;
    run.looked(b"D", Seen::TooLong)?;
    Ok([absent, run.count(b"D")?])
}

fn look(alloc: Global) -> Result<([Came; 3], [Came; 2], usize), NoMemory> {
    let mut run = Trial::new(alloc, Vec::new(alloc), 9)?;
    let came = look_once(&mut run)?;
    let stood = look_in_vain(&mut run)?;
    Ok((came, stood, run.tables.count()))
}

#[test]
fn a_file_of_the_user_is_looked_at_before_its_call(rt: HostRuntime) -> Result<(), Fail> {
    let (came, stood, count) = look(rt.alloc())?;
    assert!(rt; came == [Came::Looks, Came::Went, Came::Went]);
    assert!(rt; stood == [Came::Absent, Came::TooLong]);
    assert!(rt; count == 2);
    Ok(())
}

// `count("A", n);` three times, and again as the second task has finished.
fn fill_window(run: &mut Trial) -> Result<[Came; 4], NoMemory> {
    run.looked(b"A", Seen::Len { len: 3 })?;
    let first = run.count(b"A")?;
    let second = run.count(b"A")?;
    let third = run.count(b"A")?;
    run.finished(2, 2, Note::Int { v: 3 })?;
    Ok([first, second, third, run.count(b"A")?])
}

fn wait(alloc: Global) -> Result<([Came; 4], u32), NoMemory> {
    let mut run = Trial::new(alloc, Vec::new(alloc), 2)?;
    let came = fill_window(&mut run)?;
    Ok((came, run.tables.unfinished()))
}

// Two calls may be unfinished. The third waits until one of them has finished.
#[test]
fn a_call_waits_where_the_window_is_full(rt: HostRuntime) -> Result<(), Fail> {
    let (came, unfinished) = wait(rt.alloc())?;
    assert!(rt; came == [Came::Went, Came::Went, Came::Waits, Came::Went]);
    assert!(rt; unfinished == 2);
    Ok(())
}

// `grow("F", "x"); count("F", n);`
fn grow_and_count(run: &mut Trial) -> Result<bool, NoMemory> {
    run.looked(b"F", Seen::Len { len: 3 })?;
    let went = [run.grow(b"F")?, run.count(b"F")?];
    Ok(went == [Came::Went, Came::Went] && run.start(1)? == Some((GROW, 3, true)))
}

fn only_first_is_ready(tables: &Tables) -> bool {
    tables.is_ready(1) && !tables.is_ready(2) && tables.follower(1, 0) == Some(2)
}

fn is_second_counted(run: &mut Trial) -> Result<bool, NoMemory> {
    run.finished(1, 1, Note::File { len: 7 })?;
    let listed = run.tables.listed(2);
    let is_ready = run.tables.is_ready(2) && listed.op == COUNT && listed.bytes == 7;
    Ok(is_ready && run.start(2)? == Some((COUNT, 7, false)))
}

fn start_both(alloc: Global) -> Result<[bool; 3], NoMemory> {
    let mut run = Trial::new(alloc, Vec::new(alloc), 9)?;
    let is_grown = grow_and_count(&mut run)?;
    let is_alone = only_first_is_ready(&run.tables);
    Ok([is_grown, is_alone, is_second_counted(&mut run)?])
}

#[test]
fn a_task_starts_with_what_its_producer_gave(rt: HostRuntime) -> Result<(), Fail> {
    let started = start_both(rt.alloc())?;
    assert!(rt; started == [true; 3]);
    Ok(())
}

// The user's `A`; `B`, which the program closes; and `C`, which `join("A", "B", "C");` leaves.
fn open_each(run: &mut Trial) -> Result<[Option<(u32, Option<u64>)>; 3], NoMemory> {
    run.tables.opened(&name_of(b"A")?)?;
    run.tables.closed(&name_of(b"B")?, 9)?;
    run.looked(b"A", Seen::Len { len: 3 })?;
    let original = run.opening(b"A")?;
    let closed = run.opening(b"B")?;
    run.join(b"A", b"B", b"C")?;
    Ok([original, closed, run.opening(b"C")?])
}

// `count("C", n);` after it, and a use of `n`.
fn use_each(run: &mut Trial) -> Result<[Option<i64>; 2], NoMemory> {
    run.finished(1, 3, Note::File { len: 12 })?;
    run.count(b"C")?;
    let before = run.value(2, 2)?;
    run.finished(2, 2, Note::Int { v: -5 })?;
    Ok([before, run.value(2, 2)?])
}

// Whether it is over before and behind them.
fn open_and_use(
    alloc: Global,
) -> Result<([Option<(u32, Option<u64>)>; 3], [Option<i64>; 2], [bool; 2]), NoMemory> {
    let mut run = Trial::new(alloc, Vec::new(alloc), 9)?;
    let opened = open_each(&mut run)?;
    let before = run.tables.barrier()?;
    let used = use_each(&mut run)?;
    Ok((opened, used, [before, run.tables.barrier()?]))
}

#[test]
fn a_file_and_a_value_are_there_once_their_task_has_finished(rt: HostRuntime) -> Result<(), Fail> {
    let (opened, used, over) = open_and_use(rt.alloc())?;
    assert!(rt; opened == [Some((0, None)), Some((1, Some(9))), None]);
    assert!(rt; used == [None, Some(-5)]);
    assert!(rt; over == [false, true]);
    Ok(())
}

// `grow("F", "x");`, with no room in the window.
fn grow_noted(run: &mut Trial) -> Result<(Came, Option<(u32, Option<u64>)>), NoMemory> {
    run.looked(b"F", Seen::Len { len: 3 })?;
    let came = run.grow(b"F")?;
    Ok((came, run.opening(b"F")?))
}

fn call_noted(alloc: Global, v: Note) -> Result<(Came, Option<(u32, Option<u64>)>, u32), NoMemory> {
    let mut run = Trial::noted(alloc, 1, v)?;
    let (came, opened) = grow_noted(&mut run)?;
    Ok((came, opened, run.tables.unfinished()))
}

// An earlier call recorded that it left 9 bytes.
#[test]
fn a_noted_task_is_done_when_it_is_called(rt: HostRuntime) -> Result<(), Fail> {
    let noted = call_noted(rt.alloc(), Note::File { len: 9 })?;
    assert!(rt; noted == (Came::Went, Some((1, Some(9))), 0));
    Ok(())
}

// What was recorded is that it gave a number.
#[test]
fn a_note_of_another_form_misfits(rt: HostRuntime) -> Result<(), Fail> {
    let noted = call_noted(rt.alloc(), Note::Int { v: 9 })?;
    assert!(rt; noted == (Came::Misfits, Some((0, None)), 0));
    Ok(())
}

// The program reads `A`, calls `grow("F", "x");` twice, which leave 7 bytes and 9, and writes 5 bytes
// to `A`.
fn write_twice(alloc: Global) -> Result<Gated, NoMemory> {
    let mut run = Trial::new(alloc, Vec::new(alloc), 9)?;
    run.tables.opened(&name_of(b"A")?)?;
    run.looked(b"F", Seen::Len { len: 3 })?;
    run.grow(b"F")?;
    run.grow(b"F")?;
    run.tables.closed(&name_of(b"A")?, 5)?;
    run.finished(1, 1, Note::File { len: 7 })?;
    run.finished(2, 1, Note::File { len: 9 })?;
    run.tables.gate()
}

// The number of its name, that of its task or content, and its length.
fn numbers_of(last: &FinalNote) -> (u32, u32, u64) {
    (last.name, number_of(&last.version), last.len)
}

// A list of two names.
fn are_names(names: &[Name], first: &[u8], second: &[u8]) -> bool {
    names.len() == 2 && names[0].bytes() == first && names[1].bytes() == second
}

// A list of two finals.
fn are_finals(finals: &[FinalNote], first: (u32, u32, u64), second: (u32, u32, u64)) -> bool {
    finals.len() == 2 && numbers_of(&finals[0]) == first && numbers_of(&finals[1]) == second
}

// So many actions, the last of them the end.
fn ends_behind(actions: &[Action], count: usize) -> bool {
    count > 0 && actions.len() == count && matches!(&actions[count - 1], Action::End)
}

// The names, the finals and the actions of two writes, as they should be.
fn tell_two_writes(alloc: Global) -> Result<(bool, bool, bool), NoMemory> {
    let gated = write_twice(alloc)?;
    Ok((
        are_names(gated.names.items(), b"A", b"F"),
        are_finals(gated.finals.items(), (1, 2, 9), (0, 1, 5)),
        ends_behind(gated.actions.items(), 5),
    ))
}

// `F` was written first, and `A` has the first number.
#[test]
fn a_gate_has_the_last_version_of_each_written_file(rt: HostRuntime) -> Result<(), Fail> {
    let told = tell_two_writes(rt.alloc())?;
    assert!(rt; told == (true, true, true));
    Ok(())
}

// Calls `grow("F", "x");` so often. How many calls went.
fn grow_one(run: &mut Trial, count: u32) -> Result<u32, NoMemory> {
    run.looked(b"F", Seen::Len { len: 3 })?;
    for i in 0..count {
        if run.grow(b"F")? != Came::Went {
            return Ok(i);
        }
        run.tables.forget();
    }
    Ok(count)
}

// Calls `grow` of so many files of the user's. How many calls went.
fn grow_each(run: &mut Trial, count: u32) -> Result<u32, NoMemory> {
    for i in 0..count {
        let file = format!(in run.alloc; "F{i}")?;
        run.looked(file.as_bytes(), Seen::Len { len: 3 })?;
        if run.grow(file.as_bytes())? != Came::Went {
            return Ok(i);
        }
    }
    Ok(count)
}

// Starts and finishes so many tasks by rising number, each of which is ready. How many went so.
fn finish_each(run: &mut Trial, count: u32) -> Result<u32, NoMemory> {
    for i in 0..count {
        let n = i + 1;
        let bytes = run.tables.listed(n).bytes;
        if !run.tables.is_ready(n) || run.start(n)? != Some((GROW, bytes, true)) {
            return Ok(i);
        }
        run.finished(n, 1, Note::File { len: n as u64 + 3 })?;
    }
    Ok(count)
}

fn run_in_a_row(alloc: Global) -> Result<[u32; 3], NoMemory> {
    let mut run = Trial::new(alloc, Vec::new(alloc), TASKS)?;
    let called = grow_one(&mut run, TASKS)?;
    let finished = finish_each(&mut run, TASKS)?;
    Ok([called, finished, run.tables.unfinished()])
}

#[test]
fn ten_thousand_tasks_in_a_row(rt: HostRuntime) -> Result<(), Fail> {
    let counts = run_in_a_row(rt.alloc())?;
    assert!(rt; counts == [TASKS, TASKS, 0]);
    Ok(())
}

fn run_side_by_side(alloc: Global) -> Result<[u32; 3], NoMemory> {
    let mut run = Trial::new(alloc, Vec::new(alloc), TASKS)?;
    let called = grow_each(&mut run, TASKS)?;
    let finished = finish_each(&mut run, TASKS)?;
    Ok([called, finished, run.tables.unfinished()])
}

#[test]
fn ten_thousand_tasks_side_by_side(rt: HostRuntime) -> Result<(), Fail> {
    let counts = run_side_by_side(rt.alloc())?;
    assert!(rt; counts == [TASKS, TASKS, 0]);
    Ok(())
}
