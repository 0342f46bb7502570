//! Settling and walking below the calls of a sheet: all optimum pairings in turn, and the pairs
//! that occur in them, in three cost kinds.

use assign::{Outcome, settle};
use cost::{Cost, Free, Plain, TwoStep};
use matching::Step;
use std::test::Fail;
use walk::{marks, next, start};

// Three blocks a plane: which pairs stand, and what they cost.
const STANDING: [u8; 9] = [1, 1, 0, 1, 1, 1, 0, 1, 1];

const COSTS: [i64; 9] = [4, 2, 0, 3, 1, 5, 0, 6, 2];

/// The pairings that a walk hands out over three blocks a plane, up to three, and the marks.
fn walked<K: Cost>(costs: &[K; 9]) -> Option<([[u16; 3]; 3], usize, [u8; 9])> {
    let mut partners = [9u16; 3];
    let mut left = [K::zero(), K::zero(), K::zero()];
    let mut right = [K::zero(), K::zero(), K::zero()];
    let settled = settle(3, costs, &STANDING, &mut partners, &mut left, &mut right);
    if !matches!(settled, Ok(Outcome::Optimal)) {
        return None;
    }
    let mut walk = [9u16; 3];
    let mut found = [[9u16; 3]; 3];
    let mut count = 0;
    start(3, costs, &STANDING, &partners, &left, &right, &mut walk).ok()?;
    for pairing in found.iter_mut() {
        *pairing = walk;
        count = usize::saturating_add(count, 1);
        match next(3, costs, &STANDING, &partners, &left, &right, &mut walk) {
            Ok(Step::Next) => {}
            Ok(Step::End) => break,
            Err(_) => return None,
        }
    }
    let mut table = [7u8; 9];
    marks(3, costs, &STANDING, &partners, &left, &right, &mut table).ok()?;
    Some((found, count, table))
}

#[test]
fn plain_costs_have_two_optimum_pairings(rt: HostRuntime) -> Result<(), Fail> {
    let (found, count, table) = walked(&COSTS.map(Plain)).ok_or("refused")?;
    assert_eq!(rt; count, 2);
    assert_eq!(rt; found[0], [0, 1, 2]);
    assert_eq!(rt; found[1], [1, 0, 2]);
    assert_eq!(rt; table, [1, 1, 0, 1, 1, 0, 0, 0, 1]);
    Ok(())
}

#[test]
fn free_costs_leave_all_perfect_pairings(rt: HostRuntime) -> Result<(), Fail> {
    let (found, count, table) = walked(&[Free; 9]).ok_or("refused")?;
    assert_eq!(rt; count, 3);
    assert_eq!(rt; found, [[0, 1, 2], [0, 2, 1], [1, 0, 2]]);
    assert_eq!(rt; table, [1, 1, 0, 1, 1, 1, 0, 1, 1]);
    Ok(())
}

#[test]
fn a_second_column_decides_between_equal_totals(rt: HostRuntime) -> Result<(), Fail> {
    let costs = COSTS.map(|cost| TwoStep(Plain(cost), Plain(if cost == 4 { 1 } else { 0 })));
    let (found, count, table) = walked(&costs).ok_or("refused")?;
    assert_eq!(rt; count, 1);
    assert_eq!(rt; found[0], [1, 0, 2]);
    assert_eq!(rt; table, [0, 1, 0, 1, 0, 0, 0, 0, 1]);
    Ok(())
}
