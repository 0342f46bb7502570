//! Opening, entering, striking and reading.

use cost::Plain;
use sheet::{Fault, open};
use std::test::Fail;

/// The number of a refusal at place 0 in layer 3, which all calls on a sheet give; 0 where the call
/// was accepted.
pub(crate) fn number<T: Drop>(answer: Result<T, Fault>) -> u8 {
    match answer {
        Ok(_) => 0,
        Err(fault) => {
            if fault.place == 0 && fault.layer.number() == 3 {
                fault.cause.number()
            } else {
                255
            }
        }
    }
}

#[test]
fn opening_refuses_sizes_and_lengths(rt: HostRuntime) -> Result<(), Fail> {
    let mut costs = [Plain(7); 9];
    let mut standing = [5u8; 9];
    let no_sizes = [0u16, 65, 1000, u16::MAX].map(|n| (n, 1));
    let other_sizes = [1u16, 2, 4, 64].map(|n| (n, 2));
    for (n, refusal) in no_sizes.iter().chain(other_sizes.iter()) {
        assert_eq!(rt; number(open(*n, &mut costs, &mut standing)), *refusal);
    }
    assert_eq!(rt; number(open(3, &mut costs, &mut standing[0..8])), 2);
    assert_eq!(rt; costs, [Plain(7); 9]);
    assert_eq!(rt; standing, [5; 9]);
    assert_eq!(rt; number(open(3, &mut costs, &mut standing)), 0);
    assert_eq!(rt; costs, [Plain(0); 9]);
    assert_eq!(rt; standing, [0; 9]);
    Ok(())
}

#[test]
fn entering_stores_at_the_pair(rt: HostRuntime) -> Result<(), Fail> {
    let mut costs = [Plain(0); 4];
    let mut standing = [0u8; 4];
    let Ok(sheet) = open(2, &mut costs, &mut standing) else {
        return Err(Fail::new("not opened"));
    };
    assert_eq!(rt;
        number(sheet.enter(&mut costs, &mut standing, 1, 0, Plain(1_000_000_000))),
        0
    );
    assert_eq!(rt;
        number(sheet.enter(&mut costs, &mut standing, 0, 1, Plain(-1_000_000_000))),
        0
    );
    assert_eq!(rt;
        costs,
        [
            Plain(0),
            Plain(-1_000_000_000),
            Plain(1_000_000_000),
            Plain(0),
        ]
    );
    assert_eq!(rt; standing, [0, 1, 1, 0]);
    assert_eq!(rt;
        number(sheet.enter(&mut costs, &mut standing, 1, 0, Plain(-3))),
        0
    );
    assert_eq!(rt;
        number(sheet.enter(&mut costs, &mut standing, 0, 1, Plain(-3))),
        0
    );
    assert_eq!(rt;
        costs,
        [Plain(0), Plain(-3), Plain(1_000_000_000), Plain(0)]
    );
    assert_eq!(rt; standing, [0, 1, 1, 0]);
    Ok(())
}

#[test]
fn entering_refuses_in_order(rt: HostRuntime) -> Result<(), Fail> {
    let mut costs = [Plain(0); 4];
    let mut standing = [0u8; 4];
    let Ok(sheet) = open(2, &mut costs, &mut standing) else {
        return Err(Fail::new("not opened"));
    };
    let huge = Plain(1_000_000_001);
    assert_eq!(rt;
        number(sheet.enter(&mut costs[0..3], &mut standing, 2, 2, huge)),
        2
    );
    assert_eq!(rt;
        number(sheet.enter(&mut costs, &mut standing[1..4], 2, 2, huge)),
        2
    );
    assert_eq!(rt;
        number(sheet.enter(&mut costs, &mut standing, 2, 1, huge)),
        3
    );
    assert_eq!(rt;
        number(sheet.enter(&mut costs, &mut standing, 1, u16::MAX, huge)),
        3
    );
    assert_eq!(rt;
        number(sheet.enter(&mut costs, &mut standing, 1, 1, huge)),
        4
    );
    assert_eq!(rt;
        number(sheet.enter(&mut costs, &mut standing, 1, 1, Plain(i64::MIN))),
        4
    );
    standing[3] = 2;
    assert_eq!(rt;
        number(sheet.enter(&mut costs, &mut standing, 1, 1, huge)),
        4
    );
    assert_eq!(rt;
        number(sheet.enter(&mut costs, &mut standing, 1, 1, Plain(1))),
        7
    );
    assert_eq!(rt; costs, [Plain(0); 4]);
    assert_eq!(rt; standing, [0, 0, 0, 2]);
    Ok(())
}

#[test]
fn striking_and_reading(rt: HostRuntime) -> Result<(), Fail> {
    let mut costs = [Plain(0); 4];
    let mut standing = [0u8; 4];
    let Ok(sheet) = open(2, &mut costs, &mut standing) else {
        return Err(Fail::new("not opened"));
    };
    assert_eq!(rt;
        number(sheet.enter(&mut costs, &mut standing, 0, 1, Plain(8))),
        0
    );
    assert_eq!(rt; number(sheet.read(&costs, &standing, 0, 1)), 0);
    match sheet.read(&costs, &standing, 0, 1) {
        Ok(cost) => assert_eq!(rt; cost, Plain(8)),
        Err(_) => return Err(Fail::new("not read")),
    }
    assert_eq!(rt; number(sheet.read(&costs[0..2], &standing, 9, 9)), 2);
    assert_eq!(rt; number(sheet.read(&costs, &standing, 0, 2)), 3);
    assert_eq!(rt; number(sheet.read(&costs, &standing, 1, 1)), 5);
    standing[3] = 2;
    assert_eq!(rt; number(sheet.read(&costs, &standing, 1, 1)), 7);
    assert_eq!(rt; number(sheet.strike(&mut costs, &mut standing, 1, 1)), 7);
    assert_eq!(rt; number(sheet.strike(&mut costs, &mut standing, 1, 0)), 5);
    assert_eq!(rt; standing, [0, 1, 0, 2]);
    assert_eq!(rt; number(sheet.strike(&mut costs, &mut standing, 0, 1)), 0);
    assert_eq!(rt; costs, [Plain(0); 4]);
    assert_eq!(rt; standing, [0, 0, 0, 2]);
    assert_eq!(rt; number(sheet.strike(&mut costs, &mut standing, 0, 1)), 5);
    Ok(())
}
