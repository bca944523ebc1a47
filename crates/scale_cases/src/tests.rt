use super::Switch;
use scale::{Grade, NotADigit, Pair, PerMille, Ranked, Scale, Written, lower, read_back};
use std::fmt::Debug;
use std::process::Abort;
use std::test::Fail;

static NUMBERS: [(u16, &[u8]); 9] = [
    (0, b"0"),
    (1, b"1"),
    (9, b"9"),
    (10, b"10"),
    (99, b"99"),
    (100, b"100"),
    (907, b"907"),
    (999, b"999"),
    (1000, b"1000"),
];

static GRADES: [(Grade, &[u8]); 5] = [
    (Grade::Absent, b"absent"),
    (Grade::Trace, b"trace"),
    (Grade::Partial, b"partial"),
    (Grade::Strong, b"strong"),
    (Grade::Full, b"full"),
];

static NO_NUMBERS: [&[u8]; 12] = [
    b"",
    b"00",
    b"007",
    b"1001",
    b"1000000000000",
    b"+5",
    b"-1",
    b" 7",
    b"7 ",
    b"7a",
    b"0x7",
    b"full",
];

static NO_GRADES: [&[u8]; 7] = [
    b"",
    b"Strong",
    b"STRONG",
    b"stron",
    b"strongs",
    b"strong/100",
    b"3",
];

static NO_RANKS: [&[u8]; 13] = [
    b"",
    b"Strong",
    b"/",
    b"strong",
    b"100",
    b"strong/",
    b"/100",
    b"strong/100/1",
    b"strong//1",
    b"Strong/100",
    b"strong/0100",
    b"strong/1001",
    b"100/strong",
];

fn mark(number: u16) -> Result<PerMille, Fail> {
    Ok(PerMille::new(number).ok_or("a number up to 1000")?)
}

// The mark is printed as the word, into that place alone, and the word is read as the mark.
fn both_ways<S: Written + Debug + PartialEq>(
    rt: &impl Abort,
    mark: S,
    word: &[u8],
) -> Result<(), Fail> {
    assert_eq!(rt; mark.printed_len(), word.len());
    assert!(rt; word.len() <= S::max_width());
    assert_eq!(rt; S::read(word), Some(mark));
    let mut out = [b'.'; 20];
    let end = mark.print(&mut out, 3).ok_or("room for every form")?;
    assert!(rt; 3 <= end && end <= 20);
    assert_eq!(rt; &out[3..end], word);
    assert_eq!(rt; &out[0..3], b"...".as_slice());
    assert_eq!(rt; &out[end..], &[b'.'; 20][end..]);
    assert_eq!(rt; read_back(mark, &mut out, 8), Some(mark));
    Ok(())
}

#[test]
fn per_mille_both_ways(rt: HostRuntime) -> Result<(), Fail> {
    for &(value, word) in &NUMBERS {
        let mark = mark(value)?;
        assert_eq!(rt; mark.value(), value);
        both_ways(&rt, mark, word)?;
    }
    assert_eq!(rt; PerMille::new(1001), None);
    assert_eq!(rt; PerMille::new(u16::MAX), None);
    Ok(())
}

#[test]
fn every_ranked_mark_is_read_back(rt: HostRuntime) -> Result<(), Fail> {
    for &(grade, _) in &GRADES {
        for value in 0..=1000 {
            let mark = ranked(grade, value)?;
            assert_eq!(rt; mark.second.value(), value);
            let mut out = [b'.'; 12];
            assert_eq!(rt; read_back(mark, &mut out, 0), Some(mark));
        }
    }
    Ok(())
}

#[test]
fn numbers_rise(rt: HostRuntime) -> Result<(), Fail> {
    for (i, &(a, _)) in NUMBERS.iter().enumerate() {
        let a = mark(a)?;
        assert!(rt; PerMille::lowest().at_most(a) && a.at_most(PerMille::highest()));
        for (j, &(b, _)) in NUMBERS.iter().enumerate() {
            let b = mark(b)?;
            assert_eq!(rt; a.at_most(b), i <= j);
        }
    }
    assert!(rt; PerMille::lowest().value() == 0 && PerMille::highest().value() == 1000);
    Ok(())
}

#[test]
fn grades_both_ways(rt: HostRuntime) -> Result<(), Fail> {
    for &(grade, word) in &GRADES {
        both_ways(&rt, grade, word)?;
    }
    Ok(())
}

fn ranked(first: Grade, second: u16) -> Result<Ranked, Fail> {
    let second = mark(second)?;
    Ok(Pair { first, second })
}

#[test]
fn ranked_both_ways(rt: HostRuntime) -> Result<(), Fail> {
    both_ways(&rt, ranked(Grade::Absent, 0)?, b"absent/0")?;
    both_ways(&rt, ranked(Grade::Strong, 100)?, b"strong/100")?;
    both_ways(&rt, ranked(Grade::Partial, 1000)?, b"partial/1000")
}

#[test]
fn marks_by_display(rt: HostRuntime) -> Result<(), Fail> {
    let mark = ranked(Grade::Strong, 100)?;
    let text = format!(in rt.alloc(); "{}, {}, {mark}", mark.first, mark.second)?;
    assert_eq!(rt; text.as_str(), "strong, 100, strong/100");
    let text = format!(in rt.alloc(); "{}", NotADigit(10))?;
    assert_eq!(rt; text.as_str(), "10 is not a digit");
    Ok(())
}

#[test]
fn refused_words(rt: HostRuntime) {
    for word in &NO_NUMBERS {
        assert_eq!(rt; PerMille::read(word), None);
    }
    for word in &NO_GRADES {
        assert_eq!(rt; Grade::read(word), None);
    }
    for word in &NO_RANKS {
        assert_eq!(rt; Ranked::read(word), None);
    }
}

#[test]
fn second_parts_decide_between_equal_first_parts(rt: HostRuntime) -> Result<(), Fail> {
    let low = ranked(Grade::Strong, 100)?;
    let high = ranked(Grade::Strong, 101)?;
    assert!(rt; low.at_most(high) && low.at_most(low) && !high.at_most(low));
    assert!(rt; lower(low, high) == low && lower(high, low) == low);
    let other = ranked(Grade::Partial, 900)?;
    assert!(rt; other.at_most(low) && !low.at_most(other));
    assert_eq!(rt; lower(low, other), other);
    Ok(())
}

#[test]
fn grades_rise(rt: HostRuntime) {
    for (i, &(a, _)) in GRADES.iter().enumerate() {
        for (j, &(b, _)) in GRADES.iter().enumerate() {
            assert_eq!(rt; a.at_most(b), i <= j);
        }
    }
    assert!(rt; Grade::lowest() == Grade::Absent && Grade::highest() == Grade::Full);
}

#[test]
fn no_room_leaves_the_buffer(rt: HostRuntime) -> Result<(), Fail> {
    let mark = ranked(Grade::Strong, 100)?;
    let mut out = [b'.'; 12];
    assert_eq!(rt; mark.print(&mut out, 3), None);
    assert_eq!(rt; mark.print(&mut out, 12), None);
    assert_eq!(rt; mark.print(&mut out, usize::MAX), None);
    assert_eq!(rt; &out, b"............");
    assert_eq!(rt; mark.print(&mut out, 2), Some(12));
    assert_eq!(rt; &out, b"..strong/100");
    Ok(())
}

#[test]
fn a_scale_of_ones_own(rt: HostRuntime) {
    let off = Pair {
        first: Switch::Off,
        second: Grade::Full,
    };
    let on = Pair {
        first: Switch::On,
        second: Grade::Absent,
    };
    assert!(rt; off.at_most(on) && !on.at_most(off));
    assert_eq!(rt; lower(on, off), off);
    assert_eq!(rt; Pair::<Switch, Grade>::highest().second, Grade::Full);
}
