// The catalogues that the program builds.
use super::lines::{Answer, CardLine};
use super::names::{COLD, FLOOR, ICE, MOSS, NEAR, OVER, RISKY, SLICK, SMOOTH, WET};
use anyhow::Context;
use catalogue::{Classified, Draft, Refusal};
use logic::{ANY, Card, NONE};
use scale::{PerMille, Scale};

// A card whose mark is a plain number, as a card of the per-mille scale. The two crates of cases on catalogues make
// theirs alike; none of the three stands on another.
fn graded(card: &Card<u16>) -> anyhow::Result<Card<PerMille>> {
    let mark = PerMille::new(card.mark).context("no per-mille mark is above 1000")?;
    Ok(Card {
        statement: card.statement,
        mark,
    })
}

fn refused(rt: &impl Print, refusal: Refusal) -> anyhow::Result<()> {
    println!(rt; "  {refusal}")?;
    Ok(())
}

// Files a card, and prints its line, with the number of the refusal if it is refused.
fn file(
    rt: &impl Print,
    draft: &mut Draft,
    table: &mut [Card<PerMille>],
    card: Card<PerMille>,
) -> anyhow::Result<()> {
    let line = CardLine { card };
    match draft.file(table, card) {
        Ok(()) => println!(rt; "  {line}")?,
        Err(refusal) => println!(rt; "  {line}  ({refusal})")?,
    }
    Ok(())
}

// Asks the best mark of each pair, and prints the answers.
fn answer(
    rt: &impl Print,
    classified: &Classified,
    pairs: &[PerMille],
    asks: &[(u16, u16)],
) -> anyhow::Result<()> {
    for &(first, second) in asks {
        match classified.ask(pairs, first, second) {
            Ok(mark) => {
                let answer = Answer {
                    first,
                    second,
                    mark,
                };
                println!(rt; "  -> {answer}")?;
            }
            Err(refusal) => refused(rt, refusal)?,
        }
    }
    Ok(())
}

// Builds a catalogue of ten terms and two links, files the cards, classifies and asks.
fn show(
    rt: &impl Print,
    title: &str,
    cards: &[Card<u16>],
    asks: &[(u16, u16)],
) -> anyhow::Result<()> {
    println!(rt; "{title}")?;
    let mut table = [Card::is(ANY, ANY, PerMille::lowest()); 8];
    let mut pairs = [PerMille::lowest(); 100];
    let mut links = [PerMille::lowest(); 200];
    let mut draft = match Draft::build(10, 2, 8, &table, &pairs, &links) {
        Ok(draft) => draft,
        Err(refusal) => return refused(rt, refusal),
    };
    for card in cards {
        file(rt, &mut draft, &mut table, graded(card)?)?;
    }
    match draft.classify(&table, &mut pairs, &mut links) {
        Ok(classified) => answer(rt, &classified, &pairs, asks),
        Err((_draft, refusal)) => refused(rt, refusal),
    }
}

// What follows from cards on terms alone.
pub(crate) fn over_terms(rt: &impl Print) -> anyhow::Result<()> {
    show(
        rt,
        "What is wet is slick, and what is slick is risky: the lowest mark counts, and not the product.",
        &[Card::is(WET, SLICK, 700), Card::is(SLICK, RISKY, 400)],
        &[(WET, RISKY), (RISKY, WET)],
    )?;
    show(
        rt,
        "What is wet and smooth is slick, and ice is both.",
        &[
            Card::both(WET, SMOOTH, SLICK, 900),
            Card::is(ICE, WET, 600),
            Card::is(ICE, SMOOTH, 800),
        ],
        &[(ICE, SLICK)],
    )
}

// What follows from cards on links.
pub(crate) fn over_links(rt: &impl Print) -> anyhow::Result<()> {
    show(
        rt,
        "A floor lies over ice, and what lies over something wet is risky.",
        &[
            Card::has(FLOOR, OVER, ICE, 800),
            Card::is(ICE, WET, 700),
            Card::from(OVER, WET, RISKY, 600),
        ],
        &[(FLOOR, RISKY)],
    )?;
    show(
        rt,
        "What lies over something is near it.",
        &[
            Card::has(FLOOR, OVER, ICE, 800),
            Card::under(OVER, NEAR, 500),
            Card::from(NEAR, ICE, COLD, 900),
        ],
        &[(FLOOR, COLD)],
    )?;
    show(
        rt,
        "What lies over something lies over what is below that.",
        &[
            Card::has(FLOOR, OVER, MOSS, 900),
            Card::has(MOSS, OVER, ICE, 650),
            Card::chain(OVER, OVER, OVER, 1000),
            Card::from(OVER, ICE, COLD, 1000),
        ],
        &[(FLOOR, COLD)],
    )
}

// A term that cannot exist, and cards that are refused.
pub(crate) fn edge_cases(rt: &impl Print) -> anyhow::Result<()> {
    show(
        rt,
        "Nothing can be wet, so no floor over something wet can exist: it falls under everything.",
        &[Card::is(WET, NONE, 1), Card::has(FLOOR, OVER, WET, 300)],
        &[(WET, SLICK), (FLOOR, COLD), (FLOOR, NONE), (SLICK, WET)],
    )?;
    show(
        rt,
        "A statement stands once (6), and the lowest mark says nothing (5).",
        &[
            Card::is(WET, SLICK, 700),
            Card::is(WET, SLICK, 900),
            Card::is(WET, RISKY, 0),
        ],
        &[(WET, SLICK)],
    )
}
