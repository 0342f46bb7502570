//! Readings of a pair: the greater of two stands, of two equal ones the earlier, and a strike
//! forgets them.

ghost use Rattle.std.specs.Prelude.{[]};
ghost use Rattle.std.proofs.Common.{rules};

use crate::calls::number;
use cost::{Cost, Free, Plain, TwoStep};
use sheet::open;
use std::cmp::Ordering;
use std::test::Fail;

const MOST: i64 = 1_000_000_000;

const END: i64 = 1_000_000_000_000_000;

/// A tag that is no part of what a cost means, so that values of the same columns can be told
/// apart.
#[derive(Clone, Copy, PartialEq, Eq, Debug)]
struct Tag(u8);

impl Cost for Tag {
    ghost columns = { 0 };

    ghost meaning = { λ _. [] };

    ghost zero = { record { 0 = 0 } };

    ghost laws = { Prim.search rules };

    fn zero() -> Tag {
        Tag(0)
    }

    fn add(self, _other: Tag) -> Tag {
        self
    }

    fn take_away(self, _other: Tag) -> Tag {
        self
    }

    fn compare(self, _other: Tag) -> Ordering {
        Ordering::Equal
    }

    fn within(self, _limit: u64) -> bool {
        true
    }
}

/// What is read of the only pair of a sheet of one block a plane after two readings.
fn after_both<K: Cost>(costs: &mut [K], standing: &mut [u8], first: K, second: K) -> Option<K> {
    let sheet = open(1, costs, standing).ok()?;
    sheet.enter(costs, standing, 0, 0, first).ok()?;
    sheet.enter(costs, standing, 0, 0, second).ok()?;
    sheet.read(costs, standing, 0, 0).ok()
}

#[test]
fn the_greater_of_two_plain_readings_stands(rt: HostRuntime) {
    let cases = [
        (4, 7, 7),
        (7, 4, 7),
        (7, 7, 7),
        (0, -1, 0),
        (-9, -7, -7),
        (-7, -9, -7),
        (MOST, -MOST, MOST),
        (-MOST, MOST, MOST),
    ];
    for (first, second, stands) in cases {
        let (mut costs, mut standing) = ([Plain(9)], [9u8]);
        let read = after_both(&mut costs, &mut standing, Plain(first), Plain(second));
        assert_eq!(rt; read, Some(Plain(stands)));
        assert_eq!(rt; standing, [1]);
    }
}

#[test]
fn two_steps_are_compared_as_a_whole(rt: HostRuntime) {
    let cases = [
        ((1, 5), (1, 7), (1, 7)),
        ((1, 7), (1, 5), (1, 7)),
        ((2, 0), (1, 9), (2, 0)),
        ((1, 9), (2, 0), (2, 0)),
    ];
    for (first, second, stands) in cases {
        let cost = |(time, wear)| TwoStep(Plain(time), Plain(wear));
        let (mut costs, mut standing) = ([cost((9, 9))], [9u8]);
        let read = after_both(&mut costs, &mut standing, cost(first), cost(second));
        assert_eq!(rt; read, Some(cost(stands)));
        assert_eq!(rt; standing, [1]);
    }
}

#[test]
fn the_earlier_of_two_equal_readings_stays(rt: HostRuntime) {
    let cases = [
        ((7, 1), (7, 2), (7, 1)),
        ((7, 2), (7, 1), (7, 2)),
        ((7, 1), (8, 2), (8, 2)),
        ((8, 1), (7, 2), (8, 1)),
    ];
    for (first, second, stands) in cases {
        let cost = |(time, tag)| TwoStep(Plain(time), Tag(tag));
        let (mut costs, mut standing) = ([cost((9, 9))], [9u8]);
        let read = after_both(&mut costs, &mut standing, cost(first), cost(second));
        assert_eq!(rt; read, Some(cost(stands)));
        assert_eq!(rt; standing, [1]);
    }
}

#[test]
fn free_stays_standing(rt: HostRuntime) {
    let (mut costs, mut standing) = ([Free], [9u8]);
    assert_eq!(rt;
        after_both(&mut costs, &mut standing, Free, Free),
        Some(Free)
    );
    assert_eq!(rt; standing, [1]);
}

#[test]
fn a_strike_forgets_the_readings(rt: HostRuntime) -> Result<(), Fail> {
    let (mut costs, mut standing) = ([Plain(9)], [9u8]);
    let Ok(sheet) = open(1, &mut costs, &mut standing) else {
        return Err(Fail::new("not opened"));
    };
    assert!(rt;
        sheet
            .enter(&mut costs, &mut standing, 0, 0, Plain(7))
            .is_ok()
    );
    assert!(rt; sheet.strike(&mut costs, &mut standing, 0, 0).is_ok());
    assert!(rt;
        sheet
            .enter(&mut costs, &mut standing, 0, 0, Plain(4))
            .is_ok()
    );
    assert_eq!(rt; costs, [Plain(4)]);
    assert_eq!(rt; standing, [1]);
    Ok(())
}

/// The number of the refusal of a reading of the only pair where something else wrote this byte and
/// this cost, or 0; and the byte and the cost then.
fn over(byte: u8, written: i64, reading: i64) -> Option<(u8, u8, i64)> {
    let (mut costs, mut standing) = ([Plain(0)], [0u8]);
    let sheet = open(1, &mut costs, &mut standing).ok()?;
    costs[0] = Plain(written);
    standing[0] = byte;
    let answer = number(sheet.enter(&mut costs, &mut standing, 0, 0, Plain(reading)));
    Some((answer, standing[0], costs[0].0))
}

#[test]
fn a_byte_above_1_is_refused_behind_the_cost(rt: HostRuntime) {
    for byte in [2, 200, 255] {
        assert_eq!(rt; over(byte, 5, 4), Some((7, byte, 5)));
        assert_eq!(rt; over(byte, 5, 6), Some((7, byte, 5)));
        assert_eq!(rt; over(byte, i64::MAX, MOST), Some((7, byte, i64::MAX)));
        assert_eq!(rt; over(byte, 5, MOST + 1), Some((4, byte, 5)));
        assert_eq!(rt; over(byte, 5, i64::MIN), Some((4, byte, 5)));
    }
}

#[test]
fn only_a_byte_of_1_lets_the_cost_count(rt: HostRuntime) {
    assert_eq!(rt; over(0, 5, 4), Some((0, 1, 4)));
    assert_eq!(rt; over(0, i64::MAX, -3), Some((0, 1, -3)));
    assert_eq!(rt; over(1, 5, 4), Some((0, 1, 5)));
    assert_eq!(rt; over(1, 5, MOST + 1), Some((4, 1, 5)));
    assert_eq!(rt; over(1, i64::MAX, MOST + 1), Some((4, 1, i64::MAX)));
}

#[test]
fn costs_beyond_the_limit_count_as_what_they_mean(rt: HostRuntime) {
    for above in [MOST + 1, END, i64::MAX] {
        assert_eq!(rt; over(1, above, MOST), Some((0, 1, above)));
        assert_eq!(rt; over(1, above, -MOST), Some((0, 1, above)));
    }
    for below in [-MOST - 1, -END, i64::MIN] {
        assert_eq!(rt; over(1, below, MOST), Some((0, 1, MOST)));
        assert_eq!(rt; over(1, below, -MOST), Some((0, 1, -MOST)));
    }
}

#[test]
fn a_block_is_refused_before_any_byte(rt: HostRuntime) -> Result<(), Fail> {
    let (mut costs, mut standing) = ([Plain(9); 4], [9u8; 4]);
    let Ok(sheet) = open(2, &mut costs, &mut standing) else {
        return Err(Fail::new("not opened"));
    };
    standing = [0, 2, 2, 0];
    assert_eq!(rt;
        number(sheet.enter(&mut costs, &mut standing, 0, 2, Plain(1))),
        3
    );
    assert_eq!(rt;
        number(sheet.enter(&mut costs, &mut standing, 2, 0, Plain(1))),
        3
    );
    assert_eq!(rt;
        number(sheet.enter(&mut costs, &mut standing, 0, 0, Plain(1))),
        0
    );
    assert_eq!(rt; standing, [1, 2, 2, 0]);
    assert_eq!(rt; costs, [Plain(1), Plain(0), Plain(0), Plain(0)]);
    Ok(())
}

#[test]
fn a_cost_above_the_limit_stays_until_it_is_struck(rt: HostRuntime) -> Result<(), Fail> {
    let (mut costs, mut standing, mut partners) = ([Plain(9)], [9u8], [9u16]);
    let (mut left, mut right) = ([Plain(9)], [Plain(9)]);
    let Ok(sheet) = open(1, &mut costs, &mut standing) else {
        return Err(Fail::new("not opened"));
    };
    costs[0] = Plain(MOST + 1);
    standing[0] = 1;
    assert!(rt;
        sheet
            .enter(&mut costs, &mut standing, 0, 0, Plain(5))
            .is_ok()
    );
    let Err(refusal) = sheet.settle(&costs, &standing, &mut partners, &mut left, &mut right) else {
        return Err(Fail::new("settled at a cost that is too large"));
    };
    assert_eq!(rt; refusal.fault.cause.number(), 7);
    let sheet = refusal.state;
    assert!(rt; sheet.strike(&mut costs, &mut standing, 0, 0).is_ok());
    assert!(rt;
        sheet
            .enter(&mut costs, &mut standing, 0, 0, Plain(5))
            .is_ok()
    );
    assert!(rt;
        sheet
            .settle(&costs, &standing, &mut partners, &mut left, &mut right)
            .is_ok()
    );
    assert_eq!(rt; left, [Plain(5)]);
    Ok(())
}
