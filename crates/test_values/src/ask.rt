//! Tests of targets: breaks, answers, lists and texts worked by hand.

ghost use Rattle.std.specs.Prelude.{◌≡◌, length};
ghost use Rattle.pm_base.specs.Limits.{AreSteps};

use crate::same::same;
use crate::shared::may_be_shared;
use pm_ask::{
    Answer, Break, Curve, CurveFault, MOST_TARGETS, TargetsFault, ask_text, read_targets,
};
use pm_basis::Basis;
use pm_bid::{ArrayBid, uncounted};
use std::alloc::Global;
use std::process::Abort;

/// A load of 100 watts beside a generator that delivers 150 watts from step 4 on.
const LOAD_AND_GENERATOR: [i32; 10] = [100, 100, 100, 100, -50, -50, -50, -50, -50, -50];

/// The total of these demands.
fn total_of<R: Abort>(rt: &R, alloc: Global, demands: &[i32]) -> ArrayBid
    requires { AreSteps (length demands.now) }
    ensures { length result ≡ length demands.now }
{
    let mut counter = uncounted();
    let mut total = ArrayBid::zero(alloc, demands.len(), &mut counter).expect(rt, "memory");
    for (step, demand) in demands.iter().enumerate() {
        total.set(step, i64::from(*demand), &mut counter);
    }
    total
}

/// The curve of the total of these demands.
fn curve_of<R: Abort>(rt: &R, alloc: Global, demands: &[i32]) -> Curve
    requires { AreSteps (length demands.now) }
    ensures { length result ≡ length demands.now }
{
    Curve::new(alloc, &total_of(rt, alloc, demands)).expect(rt, "a curve")
}

/// The curve of the total of these demands has these breaks.
fn breaks_are<R: Abort>(rt: &R, alloc: Global, demands: &[i32], breaks: &[Break])
    requires { AreSteps (length demands.now) }
{
    same(rt, demands, curve_of(rt, alloc, demands).breaks(), breaks);
}

/// Targets, and the step and the total of the answer to each.
const ANSWERS: &[(i16, u32, i64)] = &[(0, 4, -50), (100, 0, 0), (-60, 9, 10), (99, 4, -149)];

fn answer_is<R: Abort>(rt: &R, curve: &Curve, row: (i16, u32, i64)) {
    let (target, step, total) = row;
    let answer = curve.answer(i64::from(target), &mut uncounted());
    same(rt, target, answer, Answer { step, total });
}

fn answers_are<R: Abort>(rt: &R, curve: &Curve) {
    for row in ANSWERS {
        answer_is(rt, curve, *row);
    }
}

#[test]
fn each_target_has_its_step(rt: HostRuntime) {
    answers_are(&rt, &curve_of(&rt, rt.alloc(), &LOAD_AND_GENERATOR));
}

/// Targets from 100 on have step 0, those from -50 to 99 step 4, and those below step 9.
const THREE_BREAKS: &[Break] = &[
    Break {
        step: 0,
        from: Some(100),
        to: None,
    },
    Break {
        step: 4,
        from: Some(-50),
        to: Some(99),
    },
    Break {
        step: 9,
        from: None,
        to: Some(-51),
    },
];

/// Targets from 5 on have step 0, and those below step 1.
const TWO_BREAKS: &[Break] = &[
    Break {
        step: 0,
        from: Some(5),
        to: None,
    },
    Break {
        step: 1,
        from: None,
        to: Some(4),
    },
];

#[test]
fn steps_with_targets_have_breaks(rt: HostRuntime) {
    breaks_are(&rt, rt.alloc(), &LOAD_AND_GENERATOR, THREE_BREAKS);
    breaks_are(&rt, rt.alloc(), &[5, 5], TWO_BREAKS);
    breaks_are(&rt, rt.alloc(), &[5, 4], TWO_BREAKS);
}

/// The fault of the total of these demands, if it has no curve.
fn fault_of<R: Abort>(rt: &R, alloc: Global, demands: &[i32]) -> Option<CurveFault>
    requires { AreSteps (length demands.now) }
{
    Curve::new(alloc, &total_of(rt, alloc, demands)).err()
}

#[test]
fn a_total_that_rises_has_no_curve(rt: HostRuntime) {
    let at_once = fault_of(&rt, rt.alloc(), &[5, 6]);
    same(&rt, "at once", at_once, Some(CurveFault::Rising { at: 1 }));
    let later = fault_of(&rt, rt.alloc(), &[5, 5, 4, 6, 7]);
    same(&rt, "later", later, Some(CurveFault::Rising { at: 3 }));
}

/// The list has these targets.
fn targets_are<R: Abort>(rt: &R, alloc: Global, list: &str, due: &[i64]) {
    let targets = read_targets(alloc, list.as_bytes()).expect(rt, "targets");
    same(rt, list, targets.as_slice(), due);
}

const FIVE_TARGETS: &[i64] = &[0, 100, -60, 1_000_000_000, -1_000_000_000];

#[test]
fn lists_of_targets_are_read(rt: HostRuntime) {
    let list = "0\n100\n-60\n1000000000\n-1000000000\n";
    targets_are(&rt, rt.alloc(), list, FIVE_TARGETS);
    targets_are(&rt, rt.alloc(), "", &[]);
}

/// Lists of targets, and the first line of each that is no target.
const BAD_LISTS: &[(&str, u32)] = &[
    ("5\n05\n", 2),
    ("-0\n", 1),
    ("5\n6", 2),
    ("\n", 1),
    ("1\n\n", 2),
    ("-\n", 1),
    ("+5\n", 1),
    ("--5\n", 1),
    ("5 \n", 1),
    ("1\n2\n3\r\n", 3),
    ("1000000000\n1000000001\n", 2),
    ("-1000000001\n", 1),
    ("99999999999999999999\n", 1),
    ("-01\n", 1),
];

#[test]
fn the_first_bad_line_is_told(rt: HostRuntime) {
    for row in BAD_LISTS {
        let bad = TargetsFault::Bad { line: row.1 };
        let have = read_targets(rt.alloc(), row.0.as_bytes()).err();
        same(&rt, row.0, have, Some(bad));
    }
}

/// So many lines of one target.
fn lines_of<R: Abort>(rt: &R, alloc: Global, count: usize) -> Vec<u8> {
    let mut text = Vec::new(alloc);
    for _line in 0..count {
        text.extend_from_slice(b"7\n").expect(rt, "memory");
    }
    text
}

/// How many targets are read from so many lines, or the fault.
fn count_of<R: Abort>(rt: &R, alloc: Global, count: usize) -> Result<usize, TargetsFault> {
    match read_targets(alloc, &lines_of(rt, alloc, count)) {
        Ok(targets) => Ok(targets.len()),
        Err(fault) => Err(fault),
    }
}

#[test]
fn a_list_has_an_end(rt: HostRuntime) {
    let most = count_of(&rt, rt.alloc(), MOST_TARGETS);
    same(&rt, "most", most, Ok(MOST_TARGETS));
    let one_more = count_of(&rt, rt.alloc(), MOST_TARGETS + 1);
    let bad = TargetsFault::Bad { line: 100_001 };
    same(&rt, "one more", one_more, Err(bad));
}

const TEXT: &str = "\
curve step 0 price 0 from 100 to high
curve step 4 price 4 from -50 to 99
curve step 9 price 9 from low to -51
target 0 price 4 step 4 total -50
target 100 price 0 step 0 total 0
target -60 price 9 step 9 total 10
";

/// The text of three targets over the prices 0 to 9.
fn text_of_three<R: Abort>(rt: &R, alloc: Global) -> Vec<u8> {
    let basis = Basis::new(0, 9, 10).expect(rt, "a basis");
    let curve = curve_of(rt, alloc, &LOAD_AND_GENERATOR);
    ask_text(alloc, &basis, &curve, &[0, 100, -60]).expect(rt, "a text")
}

#[test]
fn curves_and_answers_are_told(rt: HostRuntime) {
    let text = text_of_three(&rt, rt.alloc());
    same(&rt, "text", text.as_slice(), TEXT.as_bytes());
}

/// Curves, what they tell, and faults may be sent to threads and shared by them: it is proved here.
#[test]
fn curves_may_be_shared() {
    may_be_shared::<(Curve, Answer, CurveFault, &[Break])>();
}
