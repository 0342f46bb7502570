//! Runs of calls: every answer of a whole list, and why a run is refused.

use cost::Plain;
use session::{Act, Call, Lengths, SheetTables, Stopped, run};
use sheet::Cause;
use std::test::Fail;

fn call(act: Act<Plain>) -> Call<Plain> {
    Call {
        act,
        handed: Lengths::right(2),
    }
}

/// Calls in every state, one of them handed too little, and some that the state does not know. Both
/// blocks of each plane pair with both of the other: 3 and 4, 1 and 2.
fn calls_of_all_states() -> [Call<Plain>; 19] {
    let enter = |left, right, cost| {
        call(Act::Enter {
            left,
            right,
            cost: Plain(cost),
        })
    };
    let mut short = call(Act::Settle);
    short.handed.left = 1;
    [
        call(Act::Settle),
        enter(0, 0, 3),
        enter(0, 1, 1),
        enter(1, 0, 4),
        enter(1, 1, 2),
        enter(2, 0, 1),
        short,
        call(Act::Marks),
        call(Act::Settle),
        call(Act::Quote { left: 1, right: 0 }),
        call(Act::Marks),
        call(Act::Start),
        call(Act::Next),
        call(Act::Next),
        call(Act::Close),
        call(Act::Reopen),
        call(Act::Strike { left: 0, right: 0 }),
        call(Act::Settle),
        call(Act::Total),
    ]
}

// What comes of each.
const EXPECTED: [&str; 19] = [
    "Unmatched(Fault { cause: NoPerfectPairing, place: 0, layer: Sheet }, \
     Shortfall { crowd: 3, short: 2 })",
    "Done",
    "Done",
    "Done",
    "Done",
    "Refused(Fault { cause: Block, place: 0, layer: Sheet })",
    "Refused(Fault { cause: TableLength, place: 0, layer: Sheet })",
    "NotMade",
    "Settled { partners: [0, 1], left: [Plain(3), Plain(4)], right: [Plain(0), Plain(-2)] }",
    "Quoted { cost: Plain(4), slack: Plain(0) }",
    "Marked([1, 1, 1, 1])",
    "Pairing([0, 1])",
    "Pairing([1, 0])",
    "End",
    "Done",
    "Done",
    "Done",
    "Settled { partners: [1, 0], left: [Plain(3), Plain(4)], right: [Plain(0), Plain(-2)] }",
    "Amount(Plain(5))",
];

#[test]
fn a_run_gives_every_answer(rt: HostRuntime) -> Result<(), Fail> {
    let heap = rt.alloc();
    let mut tables = SheetTables::new(heap, 2)?;
    let Ok(answers) = run(heap, 2, &mut tables, &calls_of_all_states()) else {
        return Err(Fail::new("stopped"));
    };
    assert_eq!(rt; answers.len(), EXPECTED.len());
    for (answer, text) in answers.iter().zip(EXPECTED) {
        assert_eq!(rt; format!(in heap; "{answer:?}")?.as_str(), text);
    }
    Ok(())
}

#[test]
fn a_run_is_refused_whole(rt: HostRuntime) -> Result<(), Fail> {
    let heap = rt.alloc();
    let mut tables = SheetTables::<Plain>::new(heap, 2)?;
    let mut long = call(Act::Settle);
    long.handed.partners = 3;
    match run(heap, 2, &mut tables, &[call(Act::Total), long]) {
        Err(Stopped::NotLent) => {}
        _ => return Err(Fail::new("handed more than was lent")),
    }
    match run(heap, 65, &mut tables, &[long]) {
        Err(Stopped::NotLent) => {}
        _ => return Err(Fail::new("handed more than was lent, before 65 blocks a plane")),
    }
    match run(heap, 65, &mut tables, &[]) {
        Err(Stopped::Sheet(fault)) => assert_eq!(rt; fault, Cause::Size.at(0)),
        _ => return Err(Fail::new("65 blocks a plane")),
    }
    match run(heap, 1, &mut tables, &[]) {
        Err(Stopped::Sheet(fault)) => assert_eq!(rt; fault, Cause::TableLength.at(0)),
        _ => return Err(Fail::new("tables of two blocks a plane for one")),
    }
    Ok(())
}
