// Worked examples, what came beside what should: word faults, register faults, plans, weights and turned plans.
#![tactic(auto)]

use chain::{lay_number, weigh};
use refusal::Refusal;
use std::io;
use steps::Register::{P, Q, T};
use steps::{RegisterSet, Step, StepFault, WalkFault, judge, turn};

// What is printed for an answer: the result, or the number of the refusal.
fn shown(answer: Result<u64, u32>) -> u64 {
    answer.unwrap_or_else(u64::from)
}

// Ends a line that names an example; a refusal is compared by the number that the logger shows.
fn compare<R: Refusal>(
    rt: &impl Print,
    came: Result<u64, R>,
    should: Result<u64, u32>,
) -> io::Result<()> {
    let came = came.map_err(|refusal| refusal.number());
    let mark = if came == should { "" } else { " DIFFERS" };
    let (came, should) = (shown(came), shown(should));
    println!(rt; ": came {came}, should be {should}{mark}")
}

// Each word's fault; 0 is printed for a word that is a step.
fn compare_words(rt: &impl Print) -> io::Result<()> {
    let cases = [
        (0x8000_0000, Err(11)),
        (0x0000_0000, Err(11)),
        (0x8F00_0001, Err(11)),
        (0x5A00_0001, Err(12)),
        (0x1F00_0000, Err(12)),
        (0x4700_0000, Err(12)),
        (0x5C00_0000, Err(12)),
        (0x1100_0001, Err(12)),
        (0x1000_0000, Err(13)),
        (0x2500_0000, Err(13)),
        (0x3A00_0000, Err(13)),
        (0x3400_0000, Err(13)),
        (0x4100_0000, Err(13)),
        (0x5400_0000, Err(13)),
        (0x6000_0000, Err(13)),
        (0x7500_0000, Err(13)),
        (0x3100_0000, Ok(0)),
        (0x5A00_0000, Ok(0)),
    ];
    for (word, should) in cases {
        print!(rt; "word {word:08X}")?;
        compare(rt, Step::try_from(word).map(|_| 0), should)?;
    }
    Ok(())
}

// The number of the set that a word's step leaves.
fn set_after(start: RegisterSet, word: u32) -> Result<u64, StepFault> {
    judge(start, &[word])
        .map(|judgement| u64::from(u32::from(judgement.full)))
        .map_err(|at| at.fault)
}

fn compare_sets(rt: &impl Print) -> io::Result<()> {
    let [t, p, q] = [T, P, Q].map(RegisterSet::only);
    let cases = [
        (0x5500_0000, t, Err(21)),
        (0x1800_0000, t, Err(21)),
        (0x1100_0000, t.with(P), Err(22)),
        (0x1100_0000, t, Ok(3)),
        (0x2100_0000, t, Ok(2)),
        (0x7600_0000, p.with(Q), Ok(2)),
        (0x5A00_0000, q, Ok(4)),
        (0x5A00_0000, p, Err(21)),
        (0x6400_0000, t.with(P), Ok(3)),
    ];
    for (word, start, should) in cases {
        let bits = u32::from(start);
        print!(rt; "step {word:08X} from set {bits}")?;
        compare(rt, set_after(start, word), should)?;
    }
    Ok(())
}

// Each number laid into a memory: how many steps.
fn compare_plans(rt: &impl Print) -> io::Result<()> {
    let cases = [
        (13, 6, Err(32)),
        (13, 7, Ok(7)),
        (13, 9, Ok(7)),
        (0, 9, Err(52)),
        (1, 0, Err(32)),
        (1, 1, Ok(1)),
        (2, 2, Ok(2)),
        (22, 9, Ok(9)),
    ];
    for (number, capacity, should) in cases {
        let mut memory = [0u32; 9];
        let laid = lay_number(number, &mut memory[..capacity.min(9)]);
        print!(rt; "number {number} in {capacity} words")?;
        compare(rt, laid.map(|count| count as u64), should)?;
    }
    Ok(())
}

fn weight_of_squarings(count: usize) -> Result<u64, WalkFault> {
    let words = [0x5500_0000u32; 64];
    weigh(RegisterSet::only(P), &words[..count.min(64)], P, P)
}

// The multiplications of one step, turned round.
fn turned_multiplications(start: RegisterSet, word: u32) -> Result<u64, StepFault> {
    turn(start, &mut [word])
        .map(|turned| turned.counts.multiplications as u64)
        .map_err(|at| at.fault)
}

fn main(rt: HostRuntime) -> io::Result<()> {
    let t = RegisterSet::only(T);
    compare_words(&rt)?;
    compare_sets(&rt)?;
    compare_plans(&rt)?;
    print!(rt; "63 squarings of P weigh")?;
    compare(&rt, weight_of_squarings(63), Ok(1 << 63))?;
    print!(rt; "64 squarings of P weigh")?;
    compare(&rt, weight_of_squarings(64), Err(73))?;
    print!(rt; "copy T to P turned multiplies")?;
    compare(&rt, turned_multiplications(t, 0x1100_0000), Ok(1))?;
    print!(rt; "gather T into P turned multiplies")?;
    compare(&rt, turned_multiplications(t.with(P), 0x7400_0000), Ok(0))
}
