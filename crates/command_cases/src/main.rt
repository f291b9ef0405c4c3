// Calls the programs as functions of their arguments, and prints what they print or why they refuse. Standard input is empty.
#![tactic(auto)]

use commands::Refusal;
use std::io::Write;
use std::{fs, io};

#[derive(Clone, Copy)]
enum Program {
    Judge,
    Show,
    Put,
}

const CASES: [(Program, &str); 56] = [
    (Program::Judge, ""),
    (Program::Judge, "--version"),
    (Program::Judge, "--help"),
    (Program::Judge, "--help catalogue.view"),
    (Program::Judge, "--what catalogue.view"),
    (Program::Judge, "catalogue.view last-mark.view"),
    (Program::Judge, "--row --row"),
    (Program::Judge, "catalogue.view"),
    (Program::Judge, "last-mark.view"),
    (Program::Judge, "--row catalogue.view"),
    (Program::Judge, "--bytes wide.view"),
    (Program::Judge, "fault.view"),
    (Program::Judge, "-"),
    (Program::Judge, "--row -"),
    (Program::Judge, "missing.view"),
    (Program::Judge, "."),
    (Program::Judge, "/dev/zero"),
    (Program::Judge, "--row /dev/zero"),
    (Program::Show, ""),
    (Program::Show, "--version"),
    (Program::Show, "--help"),
    (Program::Show, "catalogue.view"),
    (Program::Show, "catalogue.view catalogue.txt catalogue.txt"),
    (Program::Show, "--new catalogue.view catalogue.txt"),
    (Program::Show, "- -"),
    (Program::Show, "catalogue.view catalogue.txt"),
    (Program::Show, "catalogue.view -"),
    (Program::Show, "catalogue.view missing.txt"),
    (Program::Show, "catalogue.view ."),
    (Program::Show, "fault.view catalogue.txt"),
    (Program::Show, "last-mark.view catalogue.txt"),
    (Program::Show, "catalogue.view fault.view"),
    (Program::Show, "catalogue.view broken.txt"),
    (Program::Show, "catalogue.view short.txt"),
    (Program::Show, "catalogue.view marks.txt"),
    (Program::Show, "catalogue.view title.txt"),
    (Program::Show, "wide.view broken.txt"),
    (Program::Show, "catalogue.view /dev/zero"),
    (Program::Show, "wide.view long.txt"),
    (Program::Put, ""),
    (Program::Put, "--version"),
    (Program::Put, "--new catalogue.view catalogue.txt"),
    (Program::Put, "--new last-mark.view catalogue.txt"),
    (Program::Put, "--new catalogue.view fault.view"),
    (Program::Put, "--help"),
    (Program::Put, "catalogue.view changed-page.txt"),
    (Program::Put, "- catalogue.txt -"),
    (
        Program::Put,
        "catalogue.view catalogue.txt changed-page.txt",
    ),
    (Program::Put, "catalogue.view - changed-page.txt"),
    (Program::Put, "catalogue.view catalogue.txt -"),
    (
        Program::Put,
        "last-mark.view catalogue.txt changed-page.txt",
    ),
    (Program::Put, "catalogue.view fault.view fault.view"),
    (Program::Put, "catalogue.view catalogue.txt fault.view"),
    (Program::Put, "catalogue.view missing.txt changed-page.txt"),
    (Program::Put, "catalogue.view catalogue.txt missing.txt"),
    (Program::Put, "catalogue.view catalogue.txt /dev/zero"),
];

fn main(rt: HostRuntime) -> io::Result<()> {
    let long = vec![in rt.alloc(); b'a'; 120_000]?;
    fs::write(&rt, "long.txt", long.as_slice())?;
    for (program, line) in CASES {
        run(&rt, program, line)?;
    }
    Ok(())
}

// Runs one program with the words of the line.
fn run(rt: &HostRuntime, program: Program, line: &str) -> io::Result<()> {
    let mut args = Vec::new(rt.alloc());
    for word in line.split_ascii_whitespace() {
        args.push(String::from_str(rt.alloc(), word)?)?;
    }
    let (name, result) = match program {
        Program::Judge => ("judge", commands::judge(rt, &args)),
        Program::Show => ("show", commands::show(rt, &args)),
        Program::Put => ("put", commands::put(rt, &args)),
    };
    println!(rt; "$ {name} {line}")?;
    match result {
        Ok(printed) => rt.stdout().write_all(&printed),
        Err(refusal) => println!(rt; "refused: {refusal}"),
    }
}
