// What the programs share that compare our answers with the original's (oracle/FORMAT.md): the cases on standard input are
// read one by one, each answer is compared and counted, and the counts are printed. A program works the answers out:
//     for _ in 0..u64::MAX {
//         let Some(case) = cases::read(..)? else { break };
//         .. cases::count(case, ..)?;
//     }
// No contract can say what is read or printed. Promised is what this loop rests on, which numbers are taken from an input and
// which bytes are put one by one (specs/Bytes); of the others that they are safe, and that they end. An `Err` is a read or a write
// that failed; what was lent keeps its length then too. (A proved loop has to end, and nothing says that the standard input does:
// so the loop counts up to a number that no run comes to.)
#![tactic(auto)]

mod names; // the kinds' names
pub mod put; // an answer's bytes
pub mod take; // an input's numbers

ghost use Rattle.std.specs.Prelude.{◌≡◌, ◌≤◌, ◌<◌, IfOk, IfSome, length, replicate, slice_index};
ghost use Rattle.cases.specs.Counting.{one_more, counted_as};

use names::NAMES;
use std::io;
use std::io::Read;

// The kinds of cases, by their numbers in oracle/FORMAT.md, and kind 0 for those that are malformed.
const KINDS: usize = 28;

// How many cases there were of each kind, and how many of them differ; as kind 0 those that are malformed.
#[derive(Drop)]
pub struct Counts {
    pub all: [u64; KINDS],
    pub differ: [u64; KINDS],
}

impl Counts {
    pub fn new() -> Counts
        ensures all_none { result.all ≡ replicate 28 0 }
        ensures differ_none { result.differ ≡ replicate 28 0 }
    {
        Counts {
            all: [0; KINDS],
            differ: [0; KINDS],
        }
    }
}

// A case at the start of a buffer: its input, and from there to `end` its answer.
#[derive(Clone, Copy)]
pub struct Case {
    pub kind: u8,
    pub input: usize,
    pub end: usize,
}

// The next case, read into buf, or none where no case follows. A case that is cut, or too long for buf, is malformed: it is
// counted, and none follows. An error of the input is the answer; buf then holds what was read, and no case is counted.
pub fn read(input: &mut impl Read, buf: &mut [u8], counts: &mut Counts) -> io::Result<Option<Case>>
    ensures input_in_bounds { IfOk result (λ next. IfSome next (λ case. case.input ≤ length buf.new)) }
    ensures buf_length { length buf.new ≡ length buf.old }
    ensures differ_same { counts.new.differ ≡ counts.old.differ }
{
    let mut head = [0u8; 5];
    let got = read_full(input, &mut head)?;
    if got == 0 {
        return Ok(None);
    }
    let start = usize::from(take::number16(&head, 1));
    let end = start + usize::from(take::number16(&head, 3));
    if got == head.len() && end <= buf.len() && fill(input, &mut buf[..end])? {
        return Ok(Some(Case {
            kind: take::byte(&head, 0),
            input: start,
            end,
        }));
    }
    add_one(&mut counts.all, 0);
    Ok(None)
}

// Reads until buf is full or the input ends, and answers how many bytes that put at the start of buf; `read_exact` does not say
// how many.
fn read_full(from: &mut impl Read, buf: &mut [u8]) -> io::Result<usize> {
    let mut done: usize = 0;
    while done < buf.len() {
        let n = from.read(&mut buf[done..])?;
        if n == 0 {
            break;
        }
        done += n;
    }
    Ok(done)
}

// Whether there are as many bytes more as buf takes, which are read into it.
fn fill(from: &mut impl Read, buf: &mut [u8]) -> io::Result<bool> {
    Ok(read_full(from, buf)? == buf.len())
}

// Compares a case's answer in buf with ours, the first n bytes of out (0 where the case is malformed), and counts the case by
// its kind, a malformed one as kind 0. An error of printing is the answer; the case is counted.
pub fn count(
    rt: &impl Print,
    case: Case,
    n: usize,
    buf: &[u8],
    out: &[u8],
    counts: &mut Counts,
) -> io::Result<()>
    ensures { counts.new.all ≡ one_more counts.old.all (counted_as case.kind n) }
{
    let kind = usize::from(case.kind);
    if n == 0 || KINDS <= kind {
        add_one(&mut counts.all, 0);
        return Ok(());
    }
    add_one(&mut counts.all, kind);
    if differs(case, n, buf, out) {
        add_one(&mut counts.differ, kind);
        print_difference(rt, kind, counts)?;
    }
    Ok(())
}

fn differs(case: Case, n: usize, buf: &[u8], out: &[u8]) -> bool {
    match (out.get(..n), buf.get(case.input..case.end)) {
        (Some(ours), Some(theirs)) => ours != theirs,
        _ => true,
    }
}

// Only of the first ten.
fn print_difference(rt: &impl Print, kind: usize, counts: &Counts) -> io::Result<()>
    requires { kind < 28 }
{
    if sum(&counts.differ) <= 10 {
        let name = NAMES[kind];
        println!(rt; "{name}: differs in case {}", sum(&counts.all))?;
    }
    Ok(())
}

// The count at a place, if there is one; it wraps, as 2^64 cases would.
pub fn add_one(counts: &mut [u64], at: usize)
    ensures { counts.new ≡ one_more counts.old at }
{
    if at < counts.len() {
        counts[at] = counts[at].wrapping_add(1);
    }
}

pub fn get(counts: &[u64], at: usize) -> u64
    ensures { result ≡ slice_index counts.now at }
{
    counts.get(at).copied().unwrap_or(0)
}

// All kinds together.
fn sum(counts: &[u64]) -> u64 {
    counts
        .iter()
        .take(KINDS)
        .fold(0, |total: u64, count| total.wrapping_add(*count))
}

// Prints how many cases of each kind there were and how many differ, and how many of all, by lists of counts of any length: a
// count that is not there is 0.
pub fn report(rt: &impl Print, all: &[u64], differ: &[u64]) -> io::Result<()> {
    for kind in 1..KINDS {
        report_kind(rt, kind, get(all, kind), get(differ, kind))?;
    }
    let cases = sum(all);
    let differ = sum(differ);
    let malformed = get(all, 0);
    println!(rt; "cases {cases}, differ {differ}, malformed {malformed}")
}

fn report_kind(rt: &impl Print, kind: usize, all: u64, differ: u64) -> io::Result<()>
    requires { kind < 28 }
{
    if all != 0 {
        let name = NAMES[kind];
        println!(rt; "{name}: cases {all}, differ {differ}")?;
    }
    Ok(())
}

// Prints a text and a number.
pub fn print(rt: &impl Print, text: &str, n: u64) -> io::Result<()> {
    rt.print(text)?;
    rt.print(n)
}

pub fn end_line(rt: &impl Print) -> io::Result<()> {
    rt.print("\n")
}
