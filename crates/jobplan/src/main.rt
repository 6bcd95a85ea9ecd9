// Job numbers from start to finish: each division, the pairs, the plan step by step, its weight, and the same turned round.
#![tactic(auto)]

use chain::{lay_number, weigh};
use recoding::{Pair, divide, divide_once};
use refusal::Refusal;
use std::{env, io};
use steps::{Counts, Register, RegisterSet, Step, judge, turn};

// A number of 64 bits has no more.
const MOST_STEPS: usize = 4 * 63 + 1;

// Every division, down to 1.
fn show_divisions(rt: &impl Print, number: u64) -> io::Result<()> {
    let mut rest = number;
    while let Some((pair, next)) = divide_once(rest) {
        let remainder = rest % 30;
        let base = pair.base();
        let digit = pair.digit();
        println!(rt;
            "{rest} leaves {remainder} modulo 30: base {base}, digit {digit}, ({rest} - {digit}) / {base} = {next}"
        )?;
        rest = next;
    }
    Ok(())
}

fn show_pairs(rt: &impl Print, pairs: &[Pair]) -> io::Result<()> {
    print!(rt; "pairs as found:")?;
    for pair in pairs {
        print!(rt; " {pair}")?;
    }
    println!(rt; "")
}

fn show_steps(rt: &impl Print, words: &[u32]) -> io::Result<()> {
    for word in words {
        match Step::try_from(*word) {
            Ok(step) => println!(rt; "  {word:08X}  {step}")?,
            Err(_) => println!(rt; "  {word:08X}")?,
        }
    }
    Ok(())
}

// A plan from one register to another: its steps, its counts, and the weight that walking it finds.
fn show_plan(rt: &impl Print, words: &[u32], from: Register, to: Register) -> io::Result<()> {
    let start = RegisterSet::only(from);
    let count = words.len();
    println!(rt; "from {from} to {to}, steps {count}:")?;
    show_steps(rt, words)?;
    match judge(start, words) {
        Ok(judgement) => {
            let Counts {
                squarings,
                multiplications,
            } = judgement.counts;
            println!(rt; "squarings {squarings}, multiplications {multiplications}")?;
        }
        Err(at) => show_refusal(rt, at.fault)?,
    }
    match weigh(start, words, to, from) {
        Ok(weight) => println!(rt; "weight {weight}"),
        Err(fault) => show_refusal(rt, fault),
    }
}

fn show_refusal(rt: &impl Print, refusal: impl Refusal) -> io::Result<()> {
    let number = refusal.number();
    println!(rt; "refused with {number}")
}

// The plan of a number, and then the same words turned round.
fn show_both_ways(rt: &impl Print, plan: &mut [u32]) -> io::Result<()> {
    print!(rt; "plan ")?;
    show_plan(rt, plan, Register::T, Register::P)?;
    print!(rt; "turned ")?;
    match turn(RegisterSet::only(Register::T), plan) {
        Ok(_) => show_plan(rt, plan, Register::P, Register::T),
        Err(at) => show_refusal(rt, at.fault),
    }
}

fn show_job(rt: &impl Print, number: u64) -> io::Result<()> {
    let division = match divide(number) {
        Ok(division) => division,
        Err(fault) => {
            let refusal = fault.number();
            return println!(rt; "{number}: refused with {refusal}: {fault}");
        }
    };
    println!(rt; "job number {number}")?;
    show_divisions(rt, number)?;
    show_pairs(rt, division.pairs())?;
    let mut memory = [0u32; MOST_STEPS];
    match lay_number(number, &mut memory) {
        Ok(count) => show_both_ways(rt, &mut memory[..count]),
        Err(fault) => show_refusal(rt, fault),
    }
}

fn main(rt: HostRuntime) -> io::Result<()> {
    let mut arguments = env::args(&rt)?.skip(1).peekable();
    if arguments.peek().is_none() {
        return println!(rt; "usage: jobplan NUMBER.. (decimal, or hexadecimal after 0x)");
    }
    for argument in arguments {
        match numeral::parse(argument.as_str()) {
            Ok(number) => show_job(&rt, number)?,
            Err(fault) => println!(rt; "{argument}: {fault}")?,
        }
    }
    Ok(())
}
