// Rising lists of numbers.
ghost use Rattle.std.specs.Prelude.{◌≡◌, ◌≤◌, ◌<◌, length, slice_get, insert, vec_capacity};
ghost use Rattle.gs_graph.specs.Numbers.{put_in, without, IsRising};

// Where the number belongs: behind those that are no greater.
pub(crate) fn place_of(xs: &[usize], n: usize) -> usize
    requires { IsRising xs.now }
    ensures within { result ≤ length xs.now }
    ensures place { insert xs.now result n ≡ put_in n xs.now }
{
    match xs.binary_search(&n) {
        Ok(place) => place + 1,
        Err(place) => place,
    }
}

pub(crate) fn take_out(xs: &mut Vec<usize>, n: usize)
    requires { IsRising xs.old.items }
    ensures items { xs.new.items ≡ without n xs.old.items }
    ensures capacity { vec_capacity xs.new ≡ vec_capacity xs.old }
{
    if let Ok(place) = xs.binary_search(&n) {
        let _ = xs.remove(place);
    }
}

pub(crate) fn put(xs: &mut Vec<usize>, n: usize)
    requires rising { IsRising xs.old.items }
    requires room { length xs.old.items < vec_capacity xs.old }
    ensures items { xs.new.items ≡ put_in n xs.old.items }
    ensures capacity { vec_capacity xs.old ≤ vec_capacity xs.new }
{
    let place = place_of(xs, n);
    match xs.insert(place, n) {
        Ok(()) => {}
        Err(_) => unreachable!(),
    }
}

pub(crate) fn item_at(xs: &[usize], i: usize) -> Option<usize>
    ensures { result ≡ slice_get xs.now i }
{
    xs.get(i).copied()
}
