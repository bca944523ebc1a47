//! Closures of many small catalogues, to be compared with what `tools/closures.py` says they are.
//!
//! Each line of the input is a catalogue: the number of its terms and of its links, the length of its card table, and
//! then five numbers for each card, which are its form, its three numbers and its per-mille mark. Of each the program
//! prints these three, the refusal of each card that is refused, the cells of both tables, and the best mark of every
//! pair.
#![tactic(auto)]

use anyhow::{Context, bail};
use catalogue::{Classified, Draft, Refusal};
use logic::{ANY, Card, Statement};
use scale::{PerMille, Scale};
use std::alloc::Global;

fn parse_numbers(alloc: Global, line: &str) -> anyhow::Result<Vec<u16>> {
    let mut numbers = Vec::new(alloc);
    for word in line.split_whitespace() {
        numbers.push(word.parse::<u16>()?)?;
    }
    Ok(numbers)
}

fn card(record: &[u16]) -> anyhow::Result<Card<PerMille>> {
    let [form, first, second, third, number] = *record else {
        bail!("a card has five numbers");
    };
    let statement = Statement {
        form: u8::try_from(form)?,
        first,
        second,
        third,
    };
    let mark = PerMille::new(number).context("no per-mille mark is above 1000")?;
    Ok(Card { statement, mark })
}

// Files the cards, and prints which of them is refused, from 0, and with what number and place.
fn file(
    rt: &impl Print,
    draft: &mut Draft,
    table: &mut [Card<PerMille>],
    records: &[u16],
) -> anyhow::Result<()> {
    for (place, record) in records.chunks(5).enumerate() {
        match draft.file(table, card(record)?) {
            Ok(()) => {}
            Err(Refusal::OutOfRange(at)) => println!(rt;
                "card {place} refused 4 {}",
                u8::from(at)
            )?,
            Err(refusal) => println!(rt; "card {place} {refusal}")?,
        }
    }
    Ok(())
}

fn row(rt: &impl Print, name: &str, marks: &[PerMille]) -> anyhow::Result<()> {
    print!(rt; "{name}")?;
    for mark in marks {
        print!(rt; " {mark}")?;
    }
    println!(rt)?;
    Ok(())
}

// Asks the best mark of every pair.
fn best(
    rt: &impl Print,
    classified: &Classified,
    pairs: &[PerMille],
    n: u16,
) -> anyhow::Result<()> {
    print!(rt; "best")?;
    for a in 0..n {
        for b in 0..n {
            let mark = classified.ask(pairs, a, b)?;
            print!(rt; " {mark}")?;
        }
    }
    println!(rt)?;
    Ok(())
}

fn show(rt: &impl Print, alloc: Global, numbers: &[u16]) -> anyhow::Result<()> {
    let [term_count, link_count, capacity, records @ ..] = numbers else {
        bail!("a catalogue has three numbers before its cards");
    };
    let (n, k, c) = (
        usize::from(*term_count),
        usize::from(*link_count),
        usize::from(*capacity),
    );
    let lowest = PerMille::lowest();
    let mut cards = vec![in alloc; Card::is(ANY, ANY, lowest); c]?;
    let mut pairs = vec![in alloc; lowest; n * n]?;
    let mut links = vec![in alloc; lowest; k * n * n]?;
    println!(rt; "terms {n} links {k} cards {c}")?;
    let mut draft = Draft::build(n, k, c, &cards, &pairs, &links)?;
    file(rt, &mut draft, &mut cards, records)?;
    match draft.classify(&cards, &mut pairs, &mut links) {
        Ok(classified) => {
            row(rt, "pairs", &pairs)?;
            row(rt, "links", &links)?;
            best(rt, &classified, &pairs, *term_count)
        }
        Err((_draft, refusal)) => Err(refusal.into()),
    }
}

fn main(rt: HostRuntime) -> anyhow::Result<()> {
    for line in rt.lines(rt.alloc()) {
        let line = line?;
        let numbers = parse_numbers(rt.alloc(), &line)?;
        show(&rt, rt.alloc(), &numbers)?;
    }
    Ok(())
}
