// Asks judges about rows, and prints a table: the judge, the rows, the voucher, the answer, and the cause of a no.
#![tactic(auto)]

use cases::{doubled, example_referee, in_a_ring, opposed};
use judges::{Chain, Residue, Sum, referee};
use rows::{JudgeCause, Row};
use std::alloc::{AllocError, Global};
use std::fmt;

// As many as are shown of a long list.
const SHOWN: usize = 3;

// Rows or numbers, one after another.
fn joined<T: fmt::Display>(heap: Global, items: &[T]) -> Result<String, AllocError> {
    let mut text = String::new(heap);
    for (i, item) in items.iter().take(SHOWN).enumerate() {
        let comma = if i > 0 { ", " } else { "" };
        write!(text, "{comma}{item}")?;
    }
    match items.len() {
        0 => text.push_str("none")?,
        1..=SHOWN => {}
        n => write!(text, " and {} more", n - SHOWN)?,
    }
    Ok(text)
}

fn show(
    rt: &HostRuntime,
    name: &str,
    rows: &[Row],
    voucher: &[i32],
    answer: Result<(), JudgeCause>,
) -> anyhow::Result<()> {
    let heap = rt.alloc();
    let rows = joined(heap, rows)?;
    let voucher = joined(heap, voucher)?;
    match answer {
        Ok(()) => println!(rt; "{name:<7} | {rows:<41} | {voucher:<7} | yes")?,
        Err(cause) => println!(rt; "{name:<7} | {rows:<41} | {voucher:<7} | no     | {cause}")?,
    }
    Ok(())
}

// Rows and a voucher.
type Question<'a> = (&'a [Row], &'a [i32]);

// Each question, put to a judge.
fn ask<F: Fn(&[Row], &[i32]) -> Result<(), JudgeCause>>(
    rt: &HostRuntime,
    name: &str,
    judge: F,
    questions: &[Question],
) -> anyhow::Result<()>
    requires { F.IsAlwaysCallable judge }
{
    for (rows, voucher) in questions {
        show(rt, name, rows, voucher, judge(rows, voucher))?;
    }
    Ok(())
}

// The pair of the sum and the pair of the chain and the residue.
fn show_pair(rt: &HostRuntime) -> anyhow::Result<()> {
    let rows = opposed();
    ask(
        rt,
        "pair",
        |rows, voucher| example_referee(rows, voucher),
        &[
            (&rows, &[0, 1, 1]),
            (&rows, &[0, 1, 0]),
            (&rows, &[0, 0, 0]),
            (&rows, &[1, 0]),
            (&rows, &[2, 1, 1]),
            (&[rows[0]; 65], &[0]),
        ],
    )
}

fn show_judges(rt: &HostRuntime) -> anyhow::Result<()> {
    println!(rt;
        "{:<7} | {:<41} | {:<7} | answer | cause",
        "judge", "rows", "voucher"
    )?;
    let rows = opposed();
    let odd = doubled(-1);
    ask(
        rt,
        "sum",
        |rows, voucher| referee(&Sum, rows, voucher),
        &[(&rows, &[1, 1]), (&rows, &[1, -1])],
    )?;
    ask(
        rt,
        "chain",
        |rows, voucher| referee(&Chain, rows, voucher),
        &[
            (&rows, &[]),
            (&rows[0..1], &[]),
            (&in_a_ring(-1), &[]),
            (&in_a_ring(0), &[]),
            (&odd, &[]),
        ],
    )?;
    ask(
        rt,
        "residue",
        |rows, voucher| referee(&Residue, rows, voucher),
        &[(&odd, &[2, 1]), (&odd, &[1, 1]), (&doubled(-2), &[2, 1])],
    )?;
    show_pair(rt)
}

fn main(rt: HostRuntime) -> anyhow::Result<()> {
    println!(rt; "Judges: a yes says that no whole numbers satisfy the rows.")?;
    show_judges(&rt)
}
