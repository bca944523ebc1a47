//! A tour of the library: on each scale, the strength of a short route of surfaces; then small catalogues of surfaces,
//! each of which is built, filled with cards, classified and asked, and prints its cards and its answers.
#![tactic(auto)]

mod catalogues;
mod lines;
mod names;
mod route;

use anyhow::Context;
use route::Route;
use scale::{Grade, PerMille, Ranked, Written};
use std::io;
use std::io::Write;

// Reads the two marks of a route, and prints its line after the scale's name.
fn tell<S: Written>(
    rt: &impl Print,
    name: &str,
    first: &[u8],
    second: &[u8],
) -> anyhow::Result<()> {
    let first = S::read(first).context("the first step has no mark of the scale")?;
    let second = S::read(second).context("the second step has no mark of the scale")?;
    // `Route::print` writes into a buffer that is lent, which is what this part of the program shows.
    let mut line = [0u8; 96];
    let end = Route { first, second }
        .print(&mut line)
        .context("the line is too long")?;
    print!(rt; "{name}: ")?;
    io::writer(rt).write_all(&line[..end])?;
    Ok(())
}

// A route on each scale.
fn routes(rt: &impl Print) -> anyhow::Result<()> {
    println!(rt; "The strength of a route is the lower of its marks.")?;
    tell::<PerMille>(rt, "per-mille", b"700", b"400")?;
    tell::<Grade>(rt, "grade", b"strong", b"trace")?;
    tell::<Ranked>(rt, "ranked", b"strong/100", b"partial/900")
}

fn main(rt: HostRuntime) -> anyhow::Result<()> {
    routes(&rt)?;
    catalogues::over_terms(&rt)?;
    catalogues::over_links(&rt)?;
    catalogues::edge_cases(&rt)
}
