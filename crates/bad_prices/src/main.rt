// Lines and texts of prices, right and wrong, and what each comes to.
#![tactic(auto)]

use price_line::flaw::Flaw;
use price_line::price::price;
use price_line::run_lengths::run_lengths;
use price_text::text::read_text;
use std::{fmt, io};

// What a line spells, or what is wrong with it.
fn try_line<T: fmt::Debug + Drop>(
    rt: &HostRuntime,
    line: &str,
    spelled: Result<T, Flaw>,
) -> io::Result<()> {
    match spelled {
        Ok(value) => println!(rt; "<{line}>: {value:?}"),
        Err(flaw) => println!(rt; "<{line}>: {flaw}"),
    }
}

fn try_text(rt: &HostRuntime, what: &str, number: usize, text: &[u8]) -> io::Result<()> {
    match read_text(text, rt.alloc()) {
        Ok(read) => {
            let count = read.prices.len();
            println!(rt; "{what} {number}: {count} prices")
        }
        Err(problem) => println!(rt; "{what} {number}: {problem}"),
    }
}

fn try_prices(rt: &HostRuntime) -> io::Result<()> {
    let lines = [
        "0",
        "-0",
        "5",
        "-5",
        "5.1",
        "5.12",
        "-5.12",
        "0.01",
        "-0.1",
        "00005.50",
        "21474836.47",
        "-21474836.47",
        "21474836.48",
        "-21474836.48",
        "21474837",
        "99999999999999999999",
        "",
        "-",
        ".5",
        "-.5",
        "5.",
        "5.123",
        "5,1",
        "+5",
        " 5",
        "5 ",
        "--5",
        "5.-1",
        "5.1.",
        "5..1",
        "1e3",
        "five",
    ];
    for line in lines {
        try_line(rt, line, price(line.as_bytes()))?;
    }
    Ok(())
}

fn try_first_lines(rt: &HostRuntime) -> io::Result<()> {
    let lines = [
        "runs 6 4 3 2 1 0 0 0",
        "runs 65535 0004 3 2 1 0 0 0",
        "runs 65536 4 3 2 1 0 0 0",
        "runs 99999999999999999999 4 3 2 1 0 0 0",
        "runs 65536 x",
        "",
        "runs",
        "run 6 4 3 2 1 0 0 0",
        "Runs 6 4 3 2 1 0 0 0",
        "runs 6 4 3 2 1 0 0",
        "runs 6 4 3 2 1 0 0 0 0",
        "runs 6 4 3 2 1 0 0 0 ",
        "runs  6 4 3 2 1 0 0 0",
        "runs 6 4 3 2 1 0 0 -1",
        "runs 6 4 3 2 1 0 0 x",
        "runs6 4 3 2 1 0 0 0",
    ];
    for line in lines {
        try_line(rt, line, run_lengths(line.as_bytes()))?;
    }
    Ok(())
}

fn try_texts(rt: &HostRuntime) -> io::Result<()> {
    let texts = [
        "",
        "\n",
        "5\n",
        "runs 6 4 3 2 1 0 0 0",
        "runs 6 4 3 2 1 0 0 0\n",
        "runs 6 4 3 2 1 0 0 0\r\n5\r\n-5\r\n",
        "runs 6 4 3 2 1 0 0 0\n5\n\n-5\n",
        "runs 6 4 3 2 1 0 0 0\n5\n-5\nx",
        "runs 6 4 3 2 1 0 0 0\n5\r\r\n",
    ];
    for (number, text) in texts.iter().enumerate() {
        try_text(rt, "text", number, text.as_bytes())?;
    }
    Ok(())
}

// A text with so many prices.
fn try_year(rt: &HostRuntime, count: usize) -> anyhow::Result<()> {
    let mut text = Vec::new(rt.alloc());
    text.extend_from_slice(b"runs 6 4 3 2 1 0 0 0\n")?;
    for _ in 0..count {
        text.extend_from_slice(b"-5.5\n")?;
    }
    try_text(rt, "prices", count, &text)?;
    Ok(())
}

fn main(rt: HostRuntime) -> anyhow::Result<()> {
    try_prices(&rt)?;
    try_first_lines(&rt)?;
    try_texts(&rt)?;
    for count in [35_039, 35_040, 35_041, 35_135, 35_136, 35_137] {
        try_year(&rt, count)?;
    }
    Ok(())
}
