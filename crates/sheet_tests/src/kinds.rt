//! Examples of the five answers and of the two comparisons with a near value, at the ends of the
//! rail and beyond them.

use cost::{Cost, Free, Plain, TwoStep};
use std::cmp::Ordering;

const END: i64 = 1_000_000_000_000_000;

#[test]
fn sums_stop_at_the_ends(rt: HostRuntime) {
    let cases = [
        (4, 3, 7),
        (END, 0, END),
        (END, 1, END),
        (END - 1, 1, END),
        (-END, -1, -END),
        (1 - END, -1, -END),
        (END, -END, 0),
        (i64::MAX, 0, END),
        (i64::MAX, -1, END - 1),
        (i64::MAX, i64::MAX, END),
        (i64::MAX, i64::MIN, 0),
        (i64::MIN, 0, -END),
        (i64::MIN, i64::MIN, -END),
    ];
    for (a, b, sum) in cases {
        assert_eq!(rt; Plain(a).add(Plain(b)), Plain(sum));
        assert_eq!(rt; Plain(b).add(Plain(a)), Plain(sum));
    }
}

#[test]
fn differences_stop_at_the_ends(rt: HostRuntime) {
    let cases = [
        (4, 3, 1),
        (3, 4, -1),
        (END, -1, END),
        (-END, 1, -END),
        (0, i64::MIN, END),
        (0, i64::MAX, -END),
        (i64::MAX, i64::MIN, END),
        (i64::MIN, i64::MAX, -END),
        (i64::MAX, END, 0),
    ];
    for (a, b, difference) in cases {
        assert_eq!(rt; Plain(a).take_away(Plain(b)), Plain(difference));
    }
}

#[test]
fn order_goes_by_meaning(rt: HostRuntime) {
    let cases = [
        (1, 2, Ordering::Less),
        (2, 2, Ordering::Equal),
        (-1, -2, Ordering::Greater),
        (i64::MAX, END, Ordering::Equal),
        (i64::MIN, -END, Ordering::Equal),
        (i64::MIN, 1 - END, Ordering::Less),
        (END - 1, i64::MAX, Ordering::Less),
    ];
    for (a, b, order) in cases {
        assert!(rt; Plain(a).compare(Plain(b)) == order);
    }
}

#[test]
fn any_value_is_compared_with_a_near_one(rt: HostRuntime) {
    let half = Plain(END / 2);
    assert!(rt; Plain(i64::MIN).is_less_near(half));
    assert!(rt; Plain(END / 2 - 1).is_less_near(half));
    assert!(rt; !half.is_less_near(half));
    assert!(rt; !Plain(i64::MAX).is_less_near(half));
    assert!(rt; half.is_equal_near(half));
    assert!(rt; !Plain(i64::MAX).is_equal_near(half));
    assert!(rt; !Plain(-END).is_equal_near(half));
    assert!(rt; !Free.is_less_near(Free));
    assert!(rt; Free.is_equal_near(Free));
}

#[test]
fn two_steps_are_compared_with_near_ones(rt: HostRuntime) {
    let near = TwoStep(Plain(1), Plain(4));
    assert!(rt; TwoStep(Plain(1), Plain(i64::MIN)).is_less_near(near));
    assert!(rt; TwoStep(Plain(0), Plain(i64::MAX)).is_less_near(near));
    assert!(rt; !TwoStep(Plain(i64::MAX), Plain(3)).is_less_near(near));
    assert!(rt; !near.is_less_near(near));
    assert!(rt; near.is_equal_near(near));
    assert!(rt; !TwoStep(Plain(1), Plain(i64::MAX)).is_equal_near(near));
    assert!(rt; !TwoStep(Plain(i64::MAX), Plain(4)).is_equal_near(near));
}

#[test]
fn limits_include_their_ends(rt: HostRuntime) {
    assert!(rt; Plain(0).within(0));
    assert!(rt; !Plain(-1).within(0));
    assert!(rt; Plain(-1_000_000_000).within(1_000_000_000));
    assert!(rt; !Plain(1_000_000_001).within(1_000_000_000));
    assert!(rt; Plain(i64::MIN).within(1_000_000_000_000_000));
    assert!(rt; !Plain(i64::MAX).within(999_999_999_999_999));
    assert!(rt; Plain(i64::MIN).within(u64::MAX));
    assert!(rt; Free.within(0));
}

#[test]
fn the_first_column_that_differs_decides(rt: HostRuntime) {
    let a = TwoStep(Plain(1), TwoStep(Free, Plain(4)));
    let b = TwoStep(Plain(1), TwoStep(Free, Plain(5)));
    let c = TwoStep(Plain(2), TwoStep(Free, Plain(0)));
    assert!(rt; a.compare(b) == Ordering::Less);
    assert!(rt; c.compare(b) == Ordering::Greater);
    assert!(rt; a.compare(a) == Ordering::Equal);
    assert!(rt; Free.compare(Free) == Ordering::Equal);
    assert!(rt; a.within(4));
    assert!(rt; !b.within(4));
    let sum = a.add(c);
    assert_eq!(rt; sum.0, Plain(3));
    assert_eq!(rt; sum.1.1, Plain(4));
    let zero: TwoStep<Plain, TwoStep<Free, Plain>> = <TwoStep<_, _> as Cost>::zero();
    assert!(rt; b.take_away(b).compare(zero) == Ordering::Equal);
}
