//! The first import on a cycle, in graphs as a program may have them.

use import_graph::{Edge, first_on_cycle};
use std::test::Fail;

/// Imports, and the index of the first on a cycle: none where there is no cycle, and then a cycle of four, met first by
/// an import that leads out of it.
const GRAPHS: &[(&[Edge], Option<usize>)] = &[
    (
        &[
            Edge { from: 0, to: 1 },
            Edge { from: 0, to: 2 },
            Edge { from: 1, to: 3 },
            Edge { from: 2, to: 3 },
        ],
        None,
    ),
    (
        &[
            Edge { from: 7, to: 9 },
            Edge { from: 7, to: 3 },
            Edge { from: 3, to: 5 },
            Edge { from: 5, to: 8 },
            Edge { from: 8, to: 7 },
        ],
        Some(1),
    ),
];

#[test]
fn first_import_on_a_cycle(rt: HostRuntime) -> Result<(), Fail> {
    for (graph, first) in GRAPHS {
        assert_eq!(rt; first_on_cycle(rt.alloc(), graph)?, *first);
    }
    Ok(())
}
