// What the tests share: a program is carried out, and a plain world answers it.
ghost use Rattle.std.specs.Prelude.{◌≡◌, IfOk};
ghost use Rattle.gs_main.specs.Shown.{talking};
ghost use Rattle.gs_main.specs.Talking.{Fits, IsFree, a_content, a_value, an_end};
ghost use Rattle.gs_rows_main.specs.Replies.{IsReply};

use gs_check::check;
use gs_main::Main;
use gs_parse::parse;
use gs_talk::{Answer, CallArg, Question};
use gs_types::{Blob, FILE_LIMIT, FaultKind, Name, NoMemory, Text, Value};
use std::alloc::Global;

const IDL: &[u8] = b"interface K {
    void join(in File a, in File b, out File c);
    void grow(inout File f, in string s);
    void count(in File f, out int n);
    void word(out string s, in int v);
    void two(out File a, out File b);
    void mix(inout File a, out File b);
    void put(out File a, in int v);
};
";

/// A program's beginning, one line.
pub const HEAD: &[u8] =
    b"main() { int i; int n; int m; int r; char *s; char *t; FILE *f, *g, *h, *j, *k, *l, *o, *p, *q; GS_On();\n";

const TAIL: &[u8] = b"\nGS_Off(0); }\n";

/// A program that ended: its last question, how many came before, and what it is then.
#[derive(Drop)]
pub struct Outcome {
    pub asked: u32,
    pub last: Question,
    pub main: Main,
}

/// The content of a file: a name that begins with `A` is absent, with `L` too long; else by the
/// first letter, and empty for all others.
fn content(alloc: Global, name: &[u8]) -> Result<Answer, NoMemory>
    ensures { IfOk result (Fits a_content) }
{
    let mut bytes = Vec::new(alloc);
    match name.first() {
        Some(b'A') => return Ok(Answer::Absent),
        Some(b'L') => return Ok(Answer::TooLong),
        Some(b'T') => bytes.extend_from_slice(b"ab\n\ncd")?,
        Some(b'W') => bytes.resize(1_025, b'x')?,
        Some(b'V') => bytes.resize(1_025, 7)?,
        Some(b'S') => bytes.resize(1_024, b'x')?,
        Some(b'B') => bytes.extend_from_slice(b"a\x07b\n")?,
        Some(b'D') => bytes.extend_from_slice(b"a\tb\r\n\x7f")?,
        Some(b'Z') => bytes.resize(FILE_LIMIT, b'z')?,
        _ => {}
    }
    if bytes.len() > FILE_LIMIT {
        return Ok(Answer::TooLong);
    }
    Ok(Answer::Bytes {
        bytes: Blob::of(bytes),
    })
}

/// The first file of a call, from the left, that is absent or too long; else the task goes.
fn call(args: &[CallArg]) -> Answer
    ensures { Fits an_end result }
{
    for arg in args {
        if let CallArg::File { name } = arg {
            match name.bytes().first() {
                Some(b'A') => return Answer::Absent,
                Some(b'L') => return Answer::TooLong,
                _ => {}
            }
        }
    }
    Answer::Went
}

/// A task leaves its number at place 2, and the string `w` at place 1.
fn left(alloc: Global, n: u32, place: u8) -> Result<Value, NoMemory>
    ensures { IfOk result (λ v. Fits a_value (Answer.Val v)) }
{
    if place == 2 {
        return Ok(Value::Int { v: n as i64 });
    }
    match Text::read(alloc, b"w") {
        Ok(s) => Ok(Value::Str { s }),
        Err(_) => Err(NoMemory),
    }
}

/// The answer of the plain world; none to a last question.
fn reply(alloc: Global, question: &Question) -> Result<Option<Answer>, NoMemory>
    ensures { IfOk result (IsReply question.now) }
{
    match question {
        Question::Call {
            op: _,
            line: _,
            args,
        } => Ok(Some(call(args.items()))),
        Question::Use { n, place } => match left(alloc, *n, *place) {
            Ok(v) => Ok(Some(Answer::Val { v })),
            Err(e) => Err(e),
        },
        Question::OpenFile {
            name,
            mode: _,
            line: _,
        } => match content(alloc, name.bytes()) {
            Ok(answer) => Ok(Some(answer)),
            Err(e) => Err(e),
        },
        Question::CloseFile { name: _, bytes: _ } => Ok(Some(Answer::Went)),
        Question::Barrier => Ok(Some(Answer::Went)),
        Question::End => Ok(None),
        Question::Fault { line: _, kind: _ } => Ok(None),
        Question::FuelOut => Ok(None),
    }
}

/// Carries a program out to its last question.
fn play(alloc: Global, main: &mut Main) -> Result<(u32, Question), NoMemory>
    requires { IsFree (talking main.old).next }
{
    for asked in 0..60_000u32 {
        let question = match main.ask() {
            Ok(question) => question,
            Err(e) => return Err(e),
        };
        match reply(alloc, &question) {
            Ok(None) => return Ok((asked, question)),
            Ok(Some(answer)) => main.answer(answer),
            Err(e) => return Err(e),
        }
    }
    Err(NoMemory)
}

fn name(bytes: &[u8]) -> Result<Name, NoMemory> {
    match Name::read(bytes) {
        Ok(name) => Ok(name),
        Err(_) => Err(NoMemory),
    }
}

/// A text as a program at its beginning. The texts of the tests are right.
fn begun(alloc: Global, text: &[u8], fuel: u64) -> Result<Main, NoMemory>
    ensures { IfOk result (λ m. IsFree (talking m).next) }
{
    let Ok(idl) = gs_idl::read(alloc, IDL) else {
        return Err(NoMemory);
    };
    let Ok(tree) = parse(alloc, text) else {
        return Err(NoMemory);
    };
    let Ok(checked) = check(alloc, tree, idl) else {
        return Err(NoMemory);
    };
    Main::new(alloc, checked, name(b"k.idl")?, name(b"p.c")?, fuel)
}

/// Carries out a text.
pub fn carried(alloc: Global, text: &[u8], fuel: u64) -> Result<Outcome, NoMemory> {
    let mut main = begun(alloc, text, fuel)?;
    let (asked, last) = play(alloc, &mut main)?;
    Ok(Outcome { asked, last, main })
}

/// Carries out these statements, which begin on line 2 of the program.
pub fn ended(alloc: Global, statements: &[u8], fuel: u64) -> Result<Outcome, NoMemory> {
    let mut text = HEAD.to_vec(alloc)?;
    text.extend_from_slice(statements)?;
    text.extend_from_slice(TAIL)?;
    carried(alloc, &text, fuel)
}

/// It ended in this fault on this line.
pub fn is_fault(last: &Question, at: u32, of: FaultKind) -> bool {
    match last {
        Question::Fault { line, kind } => *line == at && *kind == of,
        _ => false,
    }
}

pub fn is_end(last: &Question) -> bool {
    matches!(last, Question::End)
}

pub fn is_fuel_out(last: &Question) -> bool {
    matches!(last, Question::FuelOut)
}
