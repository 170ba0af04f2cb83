//! Worked values, and that the table is to be had.
use crate::main_hosts;
use std::test::Fail;

const MINUS_THREE: u64 = 18_446_744_073_709_551_613;

/// A name, two words, and the answer.
static ANSWERS: [(&str, u64, u64, u64); 11] = [
    ("clamp0", 5, 0, 5),
    ("clamp0", MINUS_THREE, 0, 0),
    ("least", 2, MINUS_THREE, MINUS_THREE),
    ("least", MINUS_THREE, 2, MINUS_THREE),
    ("least", 3, 2, 2),
    ("most", 2, MINUS_THREE, 2),
    ("most", MINUS_THREE, 2, 2),
    ("mix", 0, 0, 1_442_695_040_888_963_407),
    ("mix", 1, 0, 7_806_831_264_735_756_412),
    ("square", MINUS_THREE, 0, 9),
    ("square", 4_294_967_296, 0, 0),
];

#[test]
fn functions_are_found_by_name_and_called(rt: HostRuntime) -> Result<(), Fail> {
    let hosts = main_hosts(rt.alloc())?;
    for (name, a, b, answer) in ANSWERS {
        match hosts.find(name) {
            Some(number) => assert_eq!(rt; hosts.call(number, a, b), answer, "{name} of {a}, {b}"),
            None => panic!(rt; "no {name}"),
        }
    }
    for name in ["", "leas", "least ", "Least", "clamp", "gcd"] {
        assert_eq!(rt; hosts.find(name), None, "{name}");
    }
    Ok(())
}

#[test]
fn names_stand_in_order_with_their_arguments(rt: HostRuntime) -> Result<(), Fail> {
    let hosts = main_hosts(rt.alloc())?;
    let names = hosts.names(rt.alloc())?;
    let expected = [
        ("clamp0", 1),
        ("least", 2),
        ("most", 2),
        ("mix", 1),
        ("square", 1),
    ];
    assert_eq!(rt; names.len(), expected.len());
    for (number, (name, arity)) in expected.into_iter().enumerate() {
        let found = names
            .get(number)
            .map(|host| (host.name.as_str(), host.arity));
        assert_eq!(rt; found, Some((name, arity)));
    }
    Ok(())
}
