//! Settling, quoting, marking and walking, with their refusals.

use cost::{Plain, TwoStep};
use sheet::{Cause, OpenSheet, SettledSheet, Step, open};
use std::test::Fail;

/// Both left blocks stand with right block 0 alone.
#[test]
fn settling_tells_the_crowd(rt: HostRuntime) -> Result<(), Fail> {
    let (mut costs, mut standing) = ([Plain(0); 4], [1, 0, 1, 0]);
    let mut blank = [0u8; 4];
    let Ok(sheet) = open(2, &mut costs, &mut blank) else {
        return Err(Fail::new("not opened"));
    };
    let (mut partners, mut left, mut right) = ([9u16; 2], [Plain(8); 2], [Plain(7); 2]);
    let Err(refusal) = sheet.settle(&costs, &standing, &mut partners, &mut left, &mut right) else {
        return Err(Fail::new("settled"));
    };
    assert_eq!(rt; refusal.fault, Cause::NoPerfectPairing.at(0));
    match refusal.shortfall {
        Some(why) => assert_eq!(rt; (why.crowd, why.short), (3, 1)),
        None => return Err(Fail::new("no crowd set")),
    }
    assert_eq!(rt;
        (partners, left, right),
        ([9; 2], [Plain(8); 2], [Plain(7); 2])
    );
    standing[1] = 2;
    let again: OpenSheet = refusal.state;
    let Err(refusal) = again.settle(&costs, &standing, &mut partners, &mut left, &mut right) else {
        return Err(Fail::new("settled"));
    };
    assert_eq!(rt; refusal.fault, Cause::Inconsistent.at(0));
    assert_eq!(rt; refusal.shortfall.is_none(), true);
    Ok(())
}

type Cost = TwoStep<Plain, Plain>;

fn cost(first: i64, second: i64) -> Cost {
    TwoStep(Plain(first), Plain(second))
}

// A settled sheet of two blocks a plane with its tables. Program time comes first, then wear: the
// diagonal costs 4 then 6, and the other pairing 4 then 0.
#[derive(Drop)]
struct Case {
    sheet: SettledSheet,
    costs: [Cost; 4],
    partners: [u16; 2],
    left: [Cost; 2],
    right: [Cost; 2],
}

const STANDING: [u8; 4] = [1; 4];

fn settled() -> Result<Case, Fail> {
    let (mut blank, mut standing) = ([cost(0, 0); 4], [0u8; 4]);
    let Ok(sheet) = open(2, &mut blank, &mut standing) else {
        return Err(Fail::new("not opened"));
    };
    let costs = [cost(1, 5), cost(2, 0), cost(2, 0), cost(3, 1)];
    let (mut partners, mut left, mut right) = ([0u16; 2], [cost(0, 0); 2], [cost(0, 0); 2]);
    let Ok(sheet) = sheet.settle(&costs, &STANDING, &mut partners, &mut left, &mut right) else {
        return Err(Fail::new("not settled"));
    };
    Ok(Case {
        sheet,
        costs,
        partners,
        left,
        right,
    })
}

#[test]
fn two_steps_are_quoted(rt: HostRuntime) -> Result<(), Fail> {
    let Case {
        sheet,
        costs,
        partners,
        left,
        right,
    } = settled()?;
    assert_eq!(rt; partners, [1, 0]);
    let quote = sheet.quote(&costs, &STANDING, &partners, &left, &right, 1, 1);
    assert_eq!(rt; quote, Ok((cost(3, 1), cost(0, 6))));
    let total = sheet.total(&costs, &STANDING, &partners, &left, &right);
    assert_eq!(rt; total, Ok(cost(4, 0)));
    let far = sheet.quote(&costs, &STANDING, &partners, &left, &right, 0, 2);
    assert_eq!(rt; far, Err(Cause::Block.at(0)));
    Ok(())
}

#[test]
fn two_steps_are_marked(rt: HostRuntime) -> Result<(), Fail> {
    let Case {
        sheet,
        costs,
        partners,
        left,
        right,
    } = settled()?;
    let mut marks = [7u8; 4];
    let short = sheet.marks(&costs, &STANDING, &partners, &left, &right, &mut marks[..3]);
    assert_eq!(rt; short, Err(Cause::TableLength.at(0)));
    let marked = sheet.marks(&costs, &STANDING, &partners, &left, &right, &mut marks);
    assert_eq!(rt; (marked, marks), (Ok(()), [0, 1, 1, 0]));
    Ok(())
}

#[test]
fn two_steps_are_walked(rt: HostRuntime) -> Result<(), Fail> {
    let Case {
        sheet,
        costs,
        partners,
        left,
        right,
    } = settled()?;
    let mut list = [5u16; 2];
    let Ok(walk) = sheet.start(&costs, &STANDING, &partners, &left, &right, &mut list) else {
        return Err(Fail::new("not started"));
    };
    assert_eq!(rt; list, [1, 0]);
    let end = walk.next(&costs, &STANDING, &partners, &left, &right, &mut list);
    assert_eq!(rt; (end, list), (Ok(Step::End), [1, 0]));
    list = [0, 1];
    let lost = walk.next(&costs, &STANDING, &partners, &left, &right, &mut list);
    assert_eq!(rt; (lost, list), (Err(Cause::Inconsistent.at(0)), [0, 1]));
    Ok(())
}
