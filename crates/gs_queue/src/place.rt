// Where a task stands in a list by rising number.
ghost use Rattle.std.specs.Prelude.{◌≡◌, ◌≤◌, ◌<◌, length, insert, vec_capacity};
ghost use Rattle.gs_broker.specs.declared.choice.Ready.{Ready};
ghost use Rattle.gs_queue.specs.Numbered.{put_in, without};

use gs_broker::Ready;

// Where a task of this number belongs.
fn place_of(ready: &[Ready], n: u32) -> usize
    ensures within { result ≤ length ready.now }
    ensures place { (r : Ready) → r.n ≡ n → insert ready.now result r ≡ put_in r ready.now }
{
    for (i, r) in ready.iter().enumerate() {
        if n < r.n {
            return i;
        }
    }
    ready.len()
}

// Puts the task where its number belongs.
pub(crate) fn put(ready: &mut Vec<Ready>, r: Ready)
    requires { length ready.old.items < vec_capacity ready.old }
    ensures items { ready.new.items ≡ put_in r ready.old.items }
    ensures capacity { vec_capacity ready.old ≤ vec_capacity ready.new }
{
    let place = place_of(ready, r.n);
    match ready.insert(place, r) {
        Ok(()) => {}
        Err(_) => unreachable!(),
    }
}

// Takes the task out of the list, which keeps its room.
pub(crate) fn take_out(ready: &mut Vec<Ready>, n: u32)
    ensures items { ready.new.items ≡ without n ready.old.items }
    ensures capacity { vec_capacity ready.new ≡ vec_capacity ready.old }
{
    ready.retain(|r| r.n != n);
}
