// Graphs as the targets of each node's edges.
use go_graph::{
    Components, Fault, are_at_nodes, components_of, first_unsilenced, is_graph, on_themselves,
    reaching,
};
use std::alloc::{AllocError, Global};
use std::test::Fail;

// 0 and 1 reach each other, as do 3, 4 and 5; 2 stands on itself; 6 stands on all these, and 7 on nothing.
const ROWS: &[&[usize]] = &[&[1], &[0, 2], &[2], &[4], &[5], &[3, 1], &[0, 3], &[]];

fn graph(alloc: Global, rows: &[&[usize]]) -> Result<Vec<Vec<usize>>, AllocError> {
    let mut graph = Vec::new(alloc);
    for row in rows {
        graph.push(Vec::from_slice(alloc, row)?)?;
    }
    Ok(graph)
}

fn component(components: &Components, node: usize) -> Result<usize, Fail> {
    Ok(*components.of.get(node).ok_or("no such node")?)
}

#[test]
fn finds_components(rt: HostRuntime) -> Result<(), Fail> {
    let graph = graph(rt.alloc(), ROWS)?;
    let rows = graph.as_slice();
    if !is_graph(rows) {
        return Err(Fail::from("no graph"));
    }
    let components = components_of(rt.alloc(), rows)?;
    let zero = component(&components, 0)?;
    let two = component(&components, 2)?;
    let three = component(&components, 3)?;
    let six = component(&components, 6)?;
    assert_eq!(rt; components.order.len(), 8);
    assert_eq!(rt; component(&components, 1)?, zero);
    assert_eq!(rt; component(&components, 4)?, three);
    assert_eq!(rt; component(&components, 5)?, three);
    assert!(rt; two < zero && zero < three && three < six);
    Ok(())
}

// Which nodes stand on themselves, marks, and which nodes reach one.
const ON: &[bool] = &[true, true, true, true, true, true, false, false];

const MARKS: &[bool] = &[false, false, false, true, false, false, false, false];

const REACHING: &[bool] = &[false, false, false, true, true, true, true, false];

#[test]
fn marks_nodes(rt: HostRuntime) -> Result<(), Fail> {
    let graph = graph(rt.alloc(), ROWS)?;
    let rows = graph.as_slice();
    if !is_graph(rows) {
        return Err(Fail::from("no graph"));
    }
    if MARKS.len() != rows.len() {
        return Err(Fail::from("no marks"));
    }
    let components = components_of(rt.alloc(), rows)?;
    let on = on_themselves(rt.alloc(), rows, &components)?;
    assert_eq!(rt; on.as_slice(), ON);
    let flags = reaching(rt.alloc(), rows, &components, MARKS)?;
    for (node, wanted) in REACHING.iter().enumerate() {
        let flag = flags.get(component(&components, node)?).ok_or("no flag")?;
        assert_eq!(rt; *flag, *wanted, "{node}");
    }
    Ok(())
}

fn fault(node: usize, on_cycle: bool) -> Fault {
    Fault { node, on_cycle }
}

// The first of faults that no other silences.
fn first(alloc: Global, faults: &[Fault]) -> Result<Option<usize>, Fail> {
    let graph = graph(alloc, ROWS)?;
    let rows = graph.as_slice();
    if !is_graph(rows) {
        return Err(Fail::from("no graph"));
    }
    if !are_at_nodes(faults, rows.len()) {
        return Err(Fail::from("no nodes"));
    }
    let components = components_of(alloc, rows)?;
    let on = on_themselves(alloc, rows, &components)?;
    Ok(first_unsilenced(alloc, rows, &components, on.as_slice(), faults)?)
}

#[test]
fn hears_the_first_fault(rt: HostRuntime) -> Result<(), Fail> {
    let alloc = rt.alloc();
    assert_eq!(rt; first(alloc, &[])?, None);
    // that of 6 is silenced by that of 3, and that of 7 by none
    assert_eq!(rt;
        first(alloc, &[fault(6, false), fault(7, false), fault(3, false)])?,
        Some(1)
    );
    // nodes of one component silence each other only where one alone is on a cycle
    assert_eq!(rt; first(alloc, &[fault(3, false), fault(4, false)])?, Some(0));
    assert_eq!(rt; first(alloc, &[fault(3, false), fault(4, true)])?, Some(1));
    assert_eq!(rt; first(alloc, &[fault(3, true), fault(4, true)])?, Some(0));
    assert_eq!(rt;
        first(alloc, &[fault(3, true), fault(4, true), fault(0, false)])?,
        Some(2)
    );
    Ok(())
}
