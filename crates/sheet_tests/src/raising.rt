//! A tempting way to the next pairing, and the pairing that it loses.

use cost::Plain;
use sheet::{SettledSheet, Step, open};
use std::test::Fail;

const STANDING: [u8; 9] = [1; 9];

// A settled sheet of three blocks a plane on which each pair stands, with its tables.
#[derive(Drop)]
struct Case {
    sheet: SettledSheet,
    partners: [u16; 3],
    left: [Plain; 3],
    right: [Plain; 3],
}

fn settled(costs: &[Plain; 9]) -> Result<Case, Fail> {
    let (mut blank, mut absent) = ([Plain(0); 9], [0u8; 9]);
    let Ok(sheet) = open(3, &mut blank, &mut absent) else {
        return Err(Fail::new("not opened"));
    };
    let (mut partners, mut left, mut right) = ([0u16; 3], [Plain(0); 3], [Plain(0); 3]);
    let Ok(sheet) = sheet.settle(costs, &STANDING, &mut partners, &mut left, &mut right) else {
        return Err(Fail::new("not settled"));
    };
    Ok(Case {
        sheet,
        partners,
        left,
        right,
    })
}

/// Each pair costs 7, so every pairing costs 21. The first one, 0 1 2, uses (0, 0). Who raises that
/// cost and settles again comes to 1 0 2, at 21 too, and has lost 0 2 1, which uses (0, 0) as well
/// and is the next one.
#[test]
fn raising_a_used_pair_loses_a_pairing(rt: HostRuntime) -> Result<(), Fail> {
    let mut costs = [Plain(7); 9];
    let first = settled(&costs)?;
    assert_eq!(rt; first.partners, [0, 1, 2]);
    let (partners, left, right) = (first.partners, first.left, first.right);
    let mut list = [0u16; 3];
    let Ok(walk) = first
        .sheet
        .start(&costs, &STANDING, &partners, &left, &right, &mut list)
    else {
        return Err(Fail::new("not started"));
    };
    let step = walk.next(&costs, &STANDING, &partners, &left, &right, &mut list);
    assert_eq!(rt; (step, list), (Ok(Step::Next), [0, 2, 1]));
    costs[0] = Plain(8);
    let raised = settled(&costs)?;
    assert_eq!(rt; raised.partners, [1, 0, 2]);
    let total = raised.sheet.total(
        &costs,
        &STANDING,
        &raised.partners,
        &raised.left,
        &raised.right,
    );
    assert_eq!(rt; total, Ok(Plain(21)));
    Ok(())
}
