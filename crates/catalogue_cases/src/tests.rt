use catalogue::Place::{First, Second, Third};
use catalogue::{Classified, Draft, Refusal, Rule};
use logic::{ANY, Card, Form, NONE, Statement, UnknownForm};
use scale::{Grade, Pair, PerMille, Scale};
use std::test::Fail;

// The terms after `any` and `none`. They are plain numbers, as a card has them.
const WET: u16 = 2;

const SMOOTH: u16 = 3;

const SLICK: u16 = 4;

const RISKY: u16 = 5;

const ICE: u16 = 6;

const MOSS: u16 = 7;

const FLOOR: u16 = 8;

const COLD: u16 = 9;

// The links.
const OVER: u16 = 0;

const NEAR: u16 = 1;

// The numbers of the forms. They are plain numbers here, as in a table that is lent, which may hold a number that is no
// form's.
const IS: u8 = 1;

const BOTH: u8 = 2;

const HAS: u8 = 3;

const FROM: u8 = 4;

const UNDER: u8 = 5;

const CHAIN: u8 = 6;

// A card of a table below, in one line: its form, its three numbers and the number of its mark.
type Record = (u8, u16, u16, u16, u16);

// An ask of a table below: two terms and the number of the best mark.
type Ask = (u16, u16, u16);

static CASES: [(&[Record], &[Ask]); 9] = [
    (
        &[],
        &[
            (WET, WET, 1000),
            (WET, ANY, 1000),
            (NONE, WET, 1000),
            (WET, SLICK, 0),
            (ANY, NONE, 0),
        ],
    ),
    (
        &[(IS, WET, SLICK, 0, 700), (IS, SLICK, RISKY, 0, 400)],
        &[(WET, RISKY, 400), (RISKY, WET, 0)],
    ),
    (
        &[
            (IS, WET, SLICK, 0, 700),
            (IS, SLICK, RISKY, 0, 400),
            (IS, WET, RISKY, 0, 550),
        ],
        &[(WET, RISKY, 550)],
    ),
    (
        &[
            (BOTH, WET, SMOOTH, SLICK, 900),
            (IS, ICE, WET, 0, 600),
            (IS, ICE, SMOOTH, 0, 800),
        ],
        &[(ICE, SLICK, 600)],
    ),
    (
        &[
            (HAS, FLOOR, OVER, ICE, 800),
            (IS, ICE, WET, 0, 700),
            (FROM, OVER, WET, RISKY, 600),
        ],
        &[(FLOOR, RISKY, 600)],
    ),
    (
        &[
            (HAS, FLOOR, OVER, ICE, 800),
            (UNDER, OVER, NEAR, 0, 500),
            (FROM, NEAR, ICE, COLD, 900),
        ],
        &[(FLOOR, COLD, 500)],
    ),
    (
        &[
            (HAS, FLOOR, OVER, MOSS, 900),
            (HAS, MOSS, OVER, ICE, 650),
            (CHAIN, OVER, OVER, OVER, 1000),
            (FROM, OVER, ICE, COLD, 1000),
        ],
        &[(FLOOR, COLD, 650)],
    ),
    (
        &[(IS, WET, NONE, 0, 1), (HAS, FLOOR, OVER, WET, 300)],
        &[(WET, SLICK, 1000), (FLOOR, COLD, 1000), (SLICK, WET, 0)],
    ),
    (
        &[(IS, ANY, WET, 0, 500), (IS, WET, NONE, 0, 1)],
        &[(ANY, NONE, 1000)],
    ),
];

// The numbers n, k and c, the lengths of the tables of cards, pairs and links, and what is refused.
static BUILDS: [(usize, usize, usize, usize, usize, usize, Option<Refusal>); 22] = [
    (1, 0, 0, 0, 1, 0, Some(Refusal::Limits)),
    (2, 0, 0, 0, 4, 0, None),
    (256, 0, 0, 0, 65536, 0, None),
    (257, 0, 0, 0, 66049, 0, Some(Refusal::Limits)),
    (2, 32, 0, 0, 4, 128, None),
    (2, 33, 0, 0, 4, 132, Some(Refusal::Limits)),
    (2, 0, 4096, 4096, 4, 0, None),
    (2, 0, 4097, 4097, 4, 0, Some(Refusal::Limits)),
    (256, 32, 4096, 4096, 65536, 2097152, None),
    (3, 2, 4, 4, 9, 18, None),
    (3, 2, 4, 3, 9, 18, Some(Refusal::TableLength)),
    (3, 2, 4, 5, 9, 18, Some(Refusal::TableLength)),
    (3, 2, 4, 4, 8, 18, Some(Refusal::TableLength)),
    (3, 2, 4, 4, 10, 18, Some(Refusal::TableLength)),
    (3, 2, 4, 4, 9, 17, Some(Refusal::TableLength)),
    (3, 2, 4, 4, 9, 19, Some(Refusal::TableLength)),
    (1, 2, 4, 0, 0, 0, Some(Refusal::Limits)),
    (3, 33, 4, 0, 0, 0, Some(Refusal::Limits)),
    (3, 2, 4097, 0, 0, 0, Some(Refusal::Limits)),
    (usize::MAX, 2, 4, 0, 0, 0, Some(Refusal::Limits)),
    (3, usize::MAX, 4, 0, 0, 0, Some(Refusal::Limits)),
    (3, 2, usize::MAX, 0, 0, 0, Some(Refusal::Limits)),
];

// Cards that are refused where `is wet slick` stands.
static REFUSED: [(Record, Refusal); 28] = [
    ((0, WET, SLICK, 0, 700), Refusal::UnknownForm),
    ((7, WET, SLICK, 0, 700), Refusal::UnknownForm),
    ((7, 10, 10, 10, 0), Refusal::UnknownForm),
    ((IS, 10, SLICK, 0, 700), Refusal::OutOfRange(First)),
    ((IS, WET, 10, 0, 700), Refusal::OutOfRange(Second)),
    ((IS, WET, SLICK, 1, 700), Refusal::OutOfRange(Third)),
    ((IS, 10, 10, 1, 0), Refusal::OutOfRange(First)),
    ((IS, WET, 10, 1, 0), Refusal::OutOfRange(Second)),
    ((IS, WET, SLICK, 1, 0), Refusal::OutOfRange(Third)),
    (
        (BOTH, u16::MAX, SMOOTH, SLICK, 700),
        Refusal::OutOfRange(First),
    ),
    (
        (BOTH, WET, u16::MAX, SLICK, 700),
        Refusal::OutOfRange(Second),
    ),
    (
        (BOTH, WET, SMOOTH, u16::MAX, 700),
        Refusal::OutOfRange(Third),
    ),
    ((HAS, 10, OVER, ICE, 700), Refusal::OutOfRange(First)),
    ((HAS, FLOOR, 2, ICE, 700), Refusal::OutOfRange(Second)),
    ((HAS, FLOOR, OVER, 10, 700), Refusal::OutOfRange(Third)),
    ((FROM, 2, ICE, COLD, 700), Refusal::OutOfRange(First)),
    ((FROM, OVER, 10, COLD, 700), Refusal::OutOfRange(Second)),
    ((FROM, OVER, ICE, 10, 700), Refusal::OutOfRange(Third)),
    ((UNDER, 2, NEAR, 0, 700), Refusal::OutOfRange(First)),
    ((UNDER, OVER, 2, 0, 700), Refusal::OutOfRange(Second)),
    ((UNDER, OVER, NEAR, 1, 700), Refusal::OutOfRange(Third)),
    ((CHAIN, 2, OVER, OVER, 700), Refusal::OutOfRange(First)),
    ((CHAIN, OVER, 2, OVER, 700), Refusal::OutOfRange(Second)),
    ((CHAIN, OVER, OVER, 2, 700), Refusal::OutOfRange(Third)),
    ((IS, SLICK, WET, 0, 0), Refusal::LowestMark),
    ((IS, WET, SLICK, 0, 0), Refusal::LowestMark),
    ((IS, WET, SLICK, 0, 700), Refusal::AlreadyStands),
    ((IS, WET, SLICK, 0, 300), Refusal::AlreadyStands),
];

// A place of a standing card, the record that is written there, and the rule that it breaks.
static BROKEN_RECORDS: [(usize, Record, Rule); 9] = [
    (0, (9, WET, SLICK, 0, 700), Rule::Form),
    (1, (0, WET, SLICK, 0, 700), Rule::Form),
    (2, (9, 10, 10, 10, 0), Rule::Form),
    (0, (IS, 10, SLICK, 0, 700), Rule::Number),
    (1, (UNDER, OVER, NEAR, 1, 700), Rule::Number),
    (2, (FROM, 2, ICE, COLD, 0), Rule::Number),
    (0, (IS, WET, SLICK, 0, 0), Rule::Mark),
    (1, (IS, WET, SLICK, 0, 0), Rule::Mark),
    (2, (CHAIN, OVER, OVER, OVER, 0), Rule::Mark),
];

// The lengths of the tables of cards, pairs and links, one of them not as the draft has it.
static LENGTHS: [(usize, usize, usize); 6] = [
    (3, 100, 200),
    (5, 100, 200),
    (4, 99, 200),
    (4, 101, 200),
    (4, 100, 199),
    (4, 100, 201),
];

static FORMS: [(Form, u8); 6] = [
    (Form::Is, 1),
    (Form::Both, 2),
    (Form::Has, 3),
    (Form::From, 4),
    (Form::Under, 5),
    (Form::Chain, 6),
];

static NUMBERS: [(Refusal, u8); 10] = [
    (Refusal::Limits, 1),
    (Refusal::TableLength, 2),
    (Refusal::UnknownForm, 3),
    (Refusal::OutOfRange(First), 4),
    (Refusal::OutOfRange(Third), 4),
    (Refusal::LowestMark, 5),
    (Refusal::AlreadyStands, 6),
    (Refusal::TableFull, 7),
    (Refusal::BrokenCard(0, Rule::Form), 9),
    (Refusal::BrokenCard(4095, Rule::Mark), 9),
];

fn mark(number: u16) -> Result<PerMille, Fail> {
    Ok(PerMille::new(number).ok_or("a number up to 1000")?)
}

// The tour and `closure_cases` make theirs alike; none of the three crates stands on another.
fn card(record: Record) -> Result<Card<PerMille>, Fail> {
    let (form, first, second, third, number) = record;
    let mark = mark(number)?;
    let statement = Statement {
        form,
        first,
        second,
        third,
    };
    Ok(Card { statement, mark })
}

// What a call that is not refused answers.
fn answered<T, E: Drop>(res: Result<T, E>) -> Result<T, Fail> {
    Ok(res.ok().ok_or("the call is refused")?)
}

// What a call that is refused hands back.
fn refused<T: Drop, E>(res: Result<T, E>) -> Result<E, Fail> {
    Ok(res.err().ok_or("the call is not refused")?)
}

// Whether every cell holds the mark.
fn hold(cells: &[PerMille], mark: PerMille) -> bool {
    cells.iter().all(|cell| *cell == mark)
}

// The tables of a catalogue of ten terms, two links and up to four cards.
#[derive(Drop)]
struct Tables<S> {
    cards: [Card<S>; 4],
    pairs: [S; 100],
    links: [S; 200],
}

impl<S: Scale> Tables<S> {
    // Tables in which the mark is everywhere.
    fn of(mark: S) -> Tables<S> {
        Tables {
            cards: [Card::is(ANY, ANY, mark); 4],
            pairs: [mark; 100],
            links: [mark; 200],
        }
    }

    fn draft(&self) -> Result<Draft, Fail> {
        answered(Draft::build(10, 2, 4, &self.cards, &self.pairs, &self.links))
    }

    fn classify(&mut self, draft: Draft) -> Result<Classified, Fail> {
        answered(draft.classify(&self.cards, &mut self.pairs, &mut self.links))
    }
}

#[test]
fn best_marks(rt: HostRuntime) -> Result<(), Fail> {
    for &(records, asks) in &CASES {
        let mut tables = Tables::of(PerMille::lowest());
        let mut draft = tables.draft()?;
        for &record in records {
            answered(draft.file(&mut tables.cards, card(record)?))?;
        }
        let classified = tables.classify(draft)?;
        for &(a, b, number) in asks {
            assert!(rt; classified.ask(&tables.pairs, a, b) == Ok(mark(number)?));
        }
    }
    Ok(())
}

// The best mark of wet in risky, over `is wet slick` and `is slick risky`.
fn over_two_cards<S: Scale>(tables: &mut Tables<S>, first: S, second: S) -> Result<S, Fail> {
    let mut draft = tables.draft()?;
    answered(draft.file(&mut tables.cards, Card::is(WET, SLICK, first)))?;
    answered(draft.file(&mut tables.cards, Card::is(SLICK, RISKY, second)))?;
    let classified = tables.classify(draft)?;
    answered(classified.ask(&tables.pairs, WET, RISKY))
}

#[test]
fn best_marks_on_other_scales(rt: HostRuntime) -> Result<(), Fail> {
    let mut tables = Tables::of(Grade::Full);
    assert!(rt; over_two_cards(&mut tables, Grade::Strong, Grade::Trace)? == Grade::Trace);
    let strong = Pair {
        first: Grade::Strong,
        second: mark(100)?,
    };
    let partial = Pair {
        first: Grade::Partial,
        second: mark(900)?,
    };
    let mut tables = Tables::of(strong);
    assert!(rt; over_two_cards(&mut tables, strong, partial)? == partial);
    Ok(())
}

#[test]
fn build_limits_and_lengths(rt: HostRuntime) -> Result<(), Fail> {
    for &(n, k, c, cards, pairs, links, refusal) in &BUILDS {
        let cards = vec![in rt.alloc(); Card::is(ANY, ANY, Grade::Full); cards]?;
        let pairs = vec![in rt.alloc(); Grade::Full; pairs]?;
        let links = vec![in rt.alloc(); Grade::Full; links]?;
        let built = Draft::build(n, k, c, &cards, &pairs, &links);
        assert_eq!(rt; built.err(), refusal);
    }
    Ok(())
}

#[test]
fn refused_cards_leave_the_table(rt: HostRuntime) -> Result<(), Fail> {
    let mut tables = Tables::of(PerMille::highest());
    let mut draft = tables.draft()?;
    answered(draft.file(&mut tables.cards, Card::is(WET, SLICK, mark(700)?)))?;
    let before = tables.cards;
    for &(record, refusal) in &REFUSED {
        assert!(rt; draft.file(&mut tables.cards, card(record)?) == Err(refusal));
        assert!(rt; tables.cards == before);
    }
    let next = Card::is(ANY, ANY, mark(1)?);
    answered(draft.file(&mut tables.cards, next))?;
    let last = Card::has(COLD, NEAR, COLD, mark(1)?);
    answered(draft.file(&mut tables.cards, last))?;
    assert!(rt; tables.cards == [before[0], next, last, before[3]]);
    Ok(())
}

#[test]
fn full_tables(rt: HostRuntime) -> Result<(), Fail> {
    let mut no_cards: [Card<Grade>; 0] = [];
    let mut draft = answered(Draft::build(2, 0, 0, &no_cards, &[Grade::Full; 4], &[]))?;
    let any = Card::is(ANY, ANY, Grade::Full);
    assert!(rt; draft.file(&mut no_cards, any) == Err(Refusal::TableFull));
    assert!(rt; draft.file(&mut [any], any) == Err(Refusal::TableLength));

    let mut tables = Tables::of(PerMille::highest());
    let mut draft = tables.draft()?;
    let standing = Card::under(OVER, NEAR, mark(200)?);
    answered(draft.file(&mut tables.cards, standing))?;
    for b in WET..RISKY {
        answered(draft.file(&mut tables.cards, Card::is(ICE, b, mark(1)?)))?;
    }
    let before = tables.cards;
    let again = Card::under(OVER, NEAR, mark(300)?);
    assert!(rt; draft.file(&mut tables.cards, again) == Err(Refusal::AlreadyStands));
    let other = Card::under(NEAR, OVER, mark(300)?);
    assert!(rt; draft.file(&mut tables.cards, other) == Err(Refusal::TableFull));
    assert!(rt; draft.file(&mut tables.cards[0..3], other) == Err(Refusal::TableLength));
    assert!(rt; draft.file(&mut [other; 5], other) == Err(Refusal::TableLength));
    assert!(rt; tables.cards == before);
    Ok(())
}

#[test]
fn classify_refuses_other_lengths(rt: HostRuntime) -> Result<(), Fail> {
    let filler = mark(123)?;
    let next = Card::is(WET, SLICK, filler);
    for &(cards, pairs, links) in &LENGTHS {
        let mut tables = Tables::of(filler);
        let draft = tables.draft()?;
        let cards = vec![in rt.alloc(); next; cards]?;
        let mut pairs = vec![in rt.alloc(); filler; pairs]?;
        let mut links = vec![in rt.alloc(); filler; links]?;
        let (mut draft, refusal) = refused(draft.classify(&cards, &mut pairs, &mut links))?;
        assert_eq!(rt; refusal, Refusal::TableLength);
        assert!(rt; hold(&pairs, filler) && hold(&links, filler));
        answered(draft.file(&mut tables.cards, next))?;
        let classified = tables.classify(draft)?;
        assert!(rt; classified.ask(&tables.pairs, WET, SLICK) == Ok(filler));
    }
    Ok(())
}

#[test]
fn classify_names_the_first_broken_card(rt: HostRuntime) -> Result<(), Fail> {
    let filler = mark(123)?;
    for &(place, record, rule) in &BROKEN_RECORDS {
        let mut tables = Tables::of(filler);
        let mut draft = tables.draft()?;
        for b in WET..RISKY {
            answered(draft.file(&mut tables.cards, Card::is(ICE, b, mark(700)?)))?;
        }
        let whole = tables.cards;
        let broken = card((9, 10, 10, 10, 0))?;
        tables.cards[2] = broken;
        tables.cards[3] = broken;
        assert!(rt; place < 3);
        tables.cards[place] = card(record)?;
        let result = draft.classify(&tables.cards, &mut tables.pairs, &mut tables.links);
        let (draft, refusal) = refused(result)?;
        assert_eq!(rt; refusal, Refusal::BrokenCard(place, rule));
        assert!(rt; hold(&tables.pairs, filler) && hold(&tables.links, filler));
        tables.cards = whole;
        tables.cards[3] = broken;
        let classified = tables.classify(draft)?;
        assert!(rt; classified.ask(&tables.pairs, ICE, WET) == Ok(mark(700)?));
    }
    Ok(())
}

#[test]
fn refused_asks(rt: HostRuntime) -> Result<(), Fail> {
    let mut tables = Tables::of(Grade::Full);
    let draft = tables.draft()?;
    let classified = tables.classify(draft)?;
    assert!(rt; classified.ask(&tables.pairs[0..99], 10, 10) == Err(Refusal::TableLength));
    assert!(rt; classified.ask(&[Grade::Full; 101], WET, WET) == Err(Refusal::TableLength));
    assert!(rt; classified.ask(&tables.pairs, 10, COLD) == Err(Refusal::OutOfRange(First)));
    assert!(rt; classified.ask(&tables.pairs, COLD, 10) == Err(Refusal::OutOfRange(Second)));
    assert!(rt; classified.ask(&tables.pairs, 10, u16::MAX) == Err(Refusal::OutOfRange(First)));
    assert!(rt; classified.ask(&tables.pairs, COLD, COLD) == Ok(Grade::Full));
    Ok(())
}

#[test]
fn the_most_terms_and_links(rt: HostRuntime) -> Result<(), Fail> {
    let low = PerMille::lowest();
    let mut cards = [Card::is(ANY, ANY, low); 5];
    let mut pairs = vec![in rt.alloc(); low; 65536]?;
    let mut links = vec![in rt.alloc(); low; 2097152]?;
    let mut draft = answered(Draft::build(256, 32, 5, &cards, &pairs, &links))?;
    answered(draft.file(&mut cards, Card::has(255, 31, 254, mark(900)?)))?;
    answered(draft.file(&mut cards, Card::has(254, 31, 255, mark(800)?)))?;
    answered(draft.file(&mut cards, Card::chain(31, 31, 31, mark(1000)?)))?;
    answered(draft.file(&mut cards, Card::is(255, 253, mark(700)?)))?;
    answered(draft.file(&mut cards, Card::from(31, 253, 252, mark(950)?)))?;
    let classified = answered(draft.classify(&cards, &mut pairs, &mut links))?;
    assert!(rt; classified.ask(&pairs, 255, 252) == Ok(mark(700)?));
    Ok(())
}

#[test]
fn the_fewest_terms_and_links(rt: HostRuntime) -> Result<(), Fail> {
    let no_cards: [Card<Grade>; 0] = [];
    let mut pairs = [Grade::Partial; 4];
    let draft = answered(Draft::build(2, 0, 0, &no_cards, &pairs, &[]))?;
    let classified = answered(draft.classify(&no_cards, &mut pairs, &mut []))?;
    assert!(rt; classified.ask(&pairs, ANY, NONE) == Ok(Grade::Absent));
    assert!(rt; classified.ask(&pairs, NONE, ANY) == Ok(Grade::Full));
    Ok(())
}

#[test]
fn refusal_numbers(rt: HostRuntime) {
    for &(refusal, number) in &NUMBERS {
        assert_eq!(rt; refusal.number(), number);
    }
}

#[test]
fn forms_and_places_by_number(rt: HostRuntime) -> Result<(), Fail> {
    for &(form, number) in &FORMS {
        assert_eq!(rt; u8::from(form), number);
        assert_eq!(rt; Form::try_from(number), Ok(form));
    }
    for number in [0, 7, u8::MAX] {
        assert_eq!(rt; Form::try_from(number), Err(UnknownForm(number)));
    }
    assert_eq!(rt;
        (u8::from(First), u8::from(Second), u8::from(Third)),
        (1, 2, 3)
    );
    assert_eq!(rt;
        (
            u8::from(Rule::Form),
            u8::from(Rule::Number),
            u8::from(Rule::Mark)
        ),
        (3, 4, 5)
    );
    let refusal = Refusal::OutOfRange(Third);
    let text = format!(in rt.alloc(); "{}, {refusal}", UnknownForm(7))?;
    assert_eq!(rt; text.as_str(), "no form has the number 7, refused 4");
    Ok(())
}

#[test]
fn statements_of_cards(rt: HostRuntime) {
    let statement = Card::both(WET, SMOOTH, SLICK, Grade::Trace).statement();
    assert!(rt; statement.same(Card::both(WET, SMOOTH, SLICK, Grade::Full).statement()));
    assert!(rt; !statement.same(Card::both(WET, SLICK, SMOOTH, Grade::Trace).statement()));
    assert!(rt; !statement.same(Card::chain(WET, SMOOTH, SLICK, Grade::Trace).statement()));
}

// How strongly something wet is slick; none where a call is refused. It is the example of the pages, where slick is the
// term 3.
fn how_slick() -> Option<Grade> {
    const SLICK: u16 = 3;
    let mut cards = [Card::is(0, 0, Grade::Absent); 4];
    let mut pairs = [Grade::Absent; 16];
    let mut links = [Grade::Absent; 0];
    let mut draft = Draft::build(4, 0, 4, &cards, &pairs, &links).ok()?;
    draft
        .file(&mut cards, Card::is(WET, SLICK, Grade::Strong))
        .ok()?;
    let classified = draft.classify(&cards, &mut pairs, &mut links).ok()?;
    classified.ask(&pairs, WET, SLICK).ok()
}

#[test]
fn the_documented_example(rt: HostRuntime) {
    assert!(rt; how_slick() == Some(Grade::Strong));
}
