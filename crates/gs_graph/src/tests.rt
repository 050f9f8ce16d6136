// Chains, fans and actions.
ghost use Rattle.std.specs.Prelude.{◌≡◌, ◌+◌, ◌<◌, IfOk};
ghost use Rattle.gs_graph.specs.Graph.{count_in};

use crate::Graph;
use gs_types::{Action, NoMemory};
use std::alloc::Global;
use std::test::Fail;

// A chain of tasks, each with the one before as its producer.
fn chain(alloc: Global, count: u32) -> Result<Graph, NoMemory>
    requires { (0 < count) × (count < 2000000) }
    ensures { IfOk result (λ g. count_in g ≡ count) }
{
    let mut graph = Graph::new(alloc);
    graph.add(1, &[])?;
    for n in 2..count + 1 {
        graph.add(n, &[n - 1])?;
    }
    Ok(graph)
}

#[test]
fn a_million_in_a_row(rt: HostRuntime) {
    let Ok(mut graph) = chain(rt.alloc(), 1_000_000) else {
        return;
    };
    for n in 1..1_000_001u32 {
        assert!(rt; graph.ready_at(0) == Some(n));
        assert!(rt; graph.ready_at(1).is_none());
        graph.finish(n);
    }
    assert!(rt; graph.ready_at(0).is_none());
}

// A task with all earlier ones as its producers, each of which has none.
fn fan(alloc: Global, count: u32) -> Result<Graph, NoMemory>
    requires { (0 < count) × (count < 2000000) }
    ensures { IfOk result (λ g. count_in g ≡ count + 1) }
{
    let mut graph = Graph::new(alloc);
    let mut producers = Vec::new(alloc);
    for n in 1..count + 1 {
        graph.add(n, &[])?;
        producers.push(n)?;
    }
    graph.add(count + 1, producers.as_slice())?;
    Ok(graph)
}

#[test]
fn a_fan_is_ready_after_its_last_producer(rt: HostRuntime) {
    let Ok(mut graph) = fan(rt.alloc(), 9_999) else {
        return;
    };
    for n in 1..10_000u32 {
        assert!(rt; graph.ready_at(0) == Some(n));
        assert!(rt; graph.ready_at(9_999 - n) == Some(9_999));
        assert!(rt; graph.ready_at(10_000 - n).is_none());
        graph.finish(n);
    }
    assert!(rt; graph.ready_at(0) == Some(10_000));
}

// A producer that is named twice counts once more, until it has finished.
#[test]
fn a_task_waits_for_a_producer_that_is_named_twice(rt: HostRuntime) -> Result<(), Fail> {
    let mut graph = Graph::new(rt.alloc());
    graph.add(1, &[])?;
    graph.add(2, &[1, 1])?;
    graph.note(Action::Read { name: 7 })?;
    graph.note(Action::Barrier)?;
    assert!(rt; graph.count() == 2);
    assert!(rt; graph.follower(1, 0) == Some(2));
    assert!(rt; graph.follower(1, 1) == Some(2));
    assert!(rt; graph.follower(1, 2).is_none());
    assert!(rt; graph.is_ready(1) && !graph.is_ready(2) && !graph.is_done(1));
    graph.finish(1);
    assert!(rt; graph.is_done(1) && !graph.is_ready(1) && graph.is_ready(2));
    graph.finish(2);
    assert!(rt; graph.ready_at(0).is_none());
    assert!(rt; !graph.is_ready(0) && !graph.is_done(3) && graph.follower(0, 0).is_none());
    assert!(rt; matches!(graph.actions(), [Action::Read { name: 7 }, Action::Barrier]));
    Ok(())
}

// `join("A", "B", "C"); grow("A", "x");`: the second call replaces what the first reads, and need
// not wait for it.
#[test]
fn a_writer_waits_for_no_reader(rt: HostRuntime) -> Result<(), Fail> {
    let mut graph = Graph::new(rt.alloc());
    graph.add(1, &[])?;
    graph.add(2, &[])?;
    assert!(rt; graph.ready_at(0) == Some(1));
    assert!(rt; graph.ready_at(1) == Some(2));
    assert!(rt; graph.ready_at(2).is_none());
    graph.finish(1);
    assert!(rt; graph.ready_at(0) == Some(2));
    assert!(rt; graph.ready_at(1).is_none());
    graph.finish(2);
    assert!(rt; graph.ready_at(0).is_none());
    Ok(())
}

// `join("A", "B", "C"); join("B", "A", "C");`: neither call reads what the other writes, and the
// second may finish first.
#[test]
fn tasks_that_read_no_output_are_ready_at_once(rt: HostRuntime) -> Result<(), Fail> {
    let mut graph = Graph::new(rt.alloc());
    graph.add(1, &[])?;
    graph.add(2, &[])?;
    assert!(rt; graph.ready_at(0) == Some(1));
    assert!(rt; graph.ready_at(1) == Some(2));
    assert!(rt; graph.ready_at(2).is_none());
    graph.finish(2);
    assert!(rt; graph.ready_at(0) == Some(1));
    assert!(rt; graph.ready_at(1).is_none());
    graph.finish(1);
    assert!(rt; graph.ready_at(0).is_none());
    Ok(())
}

// `grow("F", "1"); grow("F", "2"); count("F", n);`: each call reads what the one before writes.
#[test]
fn a_task_waits_for_the_last_writer_of_its_file(rt: HostRuntime) -> Result<(), Fail> {
    let mut graph = Graph::new(rt.alloc());
    graph.add(1, &[])?;
    graph.add(2, &[1])?;
    graph.add(3, &[2])?;
    assert!(rt; graph.ready_at(0) == Some(1));
    assert!(rt; graph.ready_at(1).is_none());
    graph.finish(1);
    assert!(rt; graph.ready_at(0) == Some(2));
    assert!(rt; graph.ready_at(1).is_none());
    graph.finish(2);
    assert!(rt; graph.ready_at(0) == Some(3));
    graph.finish(3);
    assert!(rt; graph.ready_at(0).is_none());
    Ok(())
}
