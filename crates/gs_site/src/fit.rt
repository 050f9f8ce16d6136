// Whether outputs fit the places of a job.
ghost use Rattle.std.specs.Prelude.{◌≡◌, ◌↔◌, IsTrue};
ghost use Rattle.gs_types.specs.Job.{Fit};
ghost use Rattle.gs_site.specs.Fits.{gives, Suits};

use gs_types::{Arg, FILE_LIMIT, STRING_LIMIT, Value};

// Whether a place gives an output.
fn gives(arg: &Arg) -> bool
    ensures { result ≡ gives arg.now }
{
    !matches!(arg, Arg::Given { .. })
}

// Whether a value is of the place's kind and within its limit.
fn suits(arg: &Arg, value: &Value) -> bool
    ensures { IsTrue result ↔ Suits arg.now value.now }
{
    match (arg, value) {
        (Arg::Both { .. } | Arg::OutFile, Value::File { bytes }) => {
            bytes.bytes().len() <= FILE_LIMIT
        }
        (Arg::OutInt, Value::Int { .. }) => true,
        (Arg::OutStr, Value::Str { s }) => s.bytes().len() <= STRING_LIMIT,
        _ => false,
    }
}

/// Whether there is one output for each place that gives one, in order, each of the place's kind
/// and within its limit.
pub(crate) fn fits(args: &[Arg], outs: &[Value]) -> bool
    ensures { IsTrue result ↔ Fit args.now outs.now }
{
    let mut rest = outs;
    for arg in args {
        if gives(arg) {
            match rest {
                [first, others @ ..] if suits(arg, first) => rest = others,
                _ => return false,
            }
        }
    }
    rest.is_empty()
}
