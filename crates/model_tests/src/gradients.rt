//! Conjugate gradients in fixed point, over 100 nodes and 400 links.
use std::alloc::{AllocError, Global};
use std::process::Abort;
use std::test::Fail;
use test_calls::{Call, output_of};
use worked_texts::GRADIENTS;

/// The table of the nodes: loads of 0 to 9, and no displacements.
fn nodes(alloc: Global) -> Result<String, AllocError> {
    let mut table = String::from_str(alloc, "b.0,b.1,b.2,x.0,x.1,x.2\n")?;
    for node in 0..100_u32 {
        let loads = [7 * node % 10, (7 * node + 3) % 10, (7 * node + 6) % 10];
        let row = format!(in alloc; "{},{},{},0,0,0\n", loads[0], loads[1], loads[2])?;
        table.push_str(row.as_str())?;
    }
    Ok(table)
}

/// The table of the links: four from each node, with stiffnesses of 1 to 9.
fn links(alloc: Global) -> Result<String, AllocError> {
    let mut table = String::from_str(alloc, "p0,p1,k\n")?;
    for link in 0..400_u32 {
        let (from, to) = (link % 100, (3 * link + 1) % 100);
        let row = format!(in alloc; "{from},{to},{}\n", link % 9 + 1)?;
        table.push_str(row.as_str())?;
    }
    Ok(table)
}

/// Lines of the output by their numbers, from 0 on: the first node, two others, the last, and a link.
static LINES: [(usize, &str); 6] = [
    (0, "set nodes"),
    (2, "0.0000,3.0000,6.0000,3.8119,2.0668,5.0669"),
    (3, "7.0000,0.0000,3.0000,4.1222,1.9279,4.9282"),
    (51, "3.0000,6.0000,9.0000,4.0010,7.0010,5.0278"),
    (101, "3.0000,6.0000,9.0000,3.9311,6.9313,5.1952"),
    (104, "0,1,1.0000"),
];

/// A sum over the bytes of the output, in which what stands before a byte counts 31 times.
const SUM: u64 = 10_662_605_833_680_777_975;

/// What the program prints over two tables.
fn printed(
    rt: &(impl Abort + AllocGlobal),
    program: &str,
    nodes: &str,
    links: &str,
) -> Result<Vec<u8>, Fail> {
    let files = [
        ("a.sim", program.as_bytes()),
        ("nodes.csv", nodes.as_bytes()),
        ("links.csv", links.as_bytes()),
    ];
    output_of(
        rt,
        Call::of(&["run", "a.sim", "nodes.csv", "links.csv"], &files),
    )
}

/// The output is the one of two other programs: that of `python3 bench/gradients.py 100 400`, which solves the same in whole
/// numbers over sparse rows, and that of the interpreter in conformance/reference.py.
#[test]
fn gradients_over_100_nodes(rt: HostRuntime) -> Result<(), Fail> {
    let nodes = nodes(rt.alloc())?;
    let links = links(rt.alloc())?;
    let out = printed(&rt, GRADIENTS, nodes.as_str(), links.as_str())?;
    let Ok(text) = str::from_utf8(&out) else {
        panic!(rt; "an output that is no text");
    };
    for (number, line) in &LINES {
        assert_eq!(rt; text.lines().nth(*number), Some(*line), "line {number}");
    }
    let mut sum = 0_u64;
    for byte in &out {
        sum = sum.wrapping_mul(31).wrapping_add(u64::from(*byte));
    }
    assert_eq!(rt; sum, SUM);
    Ok(())
}
