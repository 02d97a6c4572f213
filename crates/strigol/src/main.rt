// The program `strigol` of document 01. It keeps the file `deck` of the folder it is run in, and standard input; runs the deck; and prints the
// records and a line: outcome, number or 0, steps done (of a refused deck its card), notes. What can't be read or written is said on standard
// error; then the line is missing. No contract says which bytes a file or a stream gives or takes.
#![tactic(auto)]

ghost use Rattle.std.specs.Prelude.{◌≡◌, length};
ghost use Rattle.calls.specs.Strigol.{kept_deck, kept_input};
ghost use Rattle.strigol.specs.Keeping.{FileKept, KeptWhole};

use batch::{KEPT_DECK, KEPT_INPUT, PRINTED, run_deck};
use std::env::{Env, FillError};
use std::fs::File;
use std::io;
use std::io::{ErrorKind, Read, Write};

// what the system says of an error, without the number that stands behind it
fn reason(said: &str) -> &str {
    match said.split_once(" (os error ") {
        Some((words, _)) => words,
        None => said,
    }
}

// Says on standard error what could not be read or written, and why.
fn fail(rt: &HostRuntime, name: &str, error: io::Error) {
    let _ = match format!(in rt.alloc(); "{error}") {
        Ok(said) => {
            let words = reason(said.as_str());
            eprintln!(rt; "{name}: {words}")
        }
        Err(_) => eprintln!(rt; "{name}"),
    };
}

// Keeps the first bytes that a reader gives: as many as there are, and as there is room for.
// kept: a while, since a read gives as many bytes as it likes; read_exact fails where fewer come; no Vec: only an error's words are allocated. It
// answers how many, as read does: a slice of the array would have to be lent on by those that call it
fn keep<R: Read>(from: &mut R, to: &mut [u8]) -> io::Result<usize>
    ensures { FileKept result to.new }
{
    let mut kept = 0;
    while kept < to.len() {
        let got = from.read(&mut to[kept..])?;
        if got == 0 {
            break;
        }
        kept += got;
    }
    Ok(kept)
}

// Keeps the deck; a missing file counts as empty.
fn keep_deck(rt: &HostRuntime, to: &mut [u8]) -> io::Result<usize>
    requires { length to.old ≡ kept_deck }
    ensures { FileKept result to.new }
{
    match File::open(rt, "deck") {
        Ok(mut file) => keep(&mut file, to),
        Err(error) => {
            if error.kind() == ErrorKind::NotFound {
                return Ok(0);
            }
            Err(error)
        }
    }
}

// Keeps standard input.
fn keep_input(rt: &HostRuntime, to: &mut [u8]) -> io::Result<usize>
    requires { length to.old ≡ kept_input }
    ensures { FileKept result to.new }
{
    keep(&mut rt.stdin(), to)
}

// Runs a deck on an input and prints.
fn run(rt: &HostRuntime, deck: &[u8], input: &[u8])
    requires { KeptWhole deck.now input.now }
{
    let mut out = [0u8; PRINTED];
    let n = run_deck(deck, input, &mut out);
    if let Err(error) = rt.stdout().write_all(&out[..n]) {
        fail(rt, "strigol: standard output", error);
    }
}

// whether a word stands behind the program's name
fn is_given_words(rt: &HostRuntime) -> bool {
    let mut first = [0u8; 1];
    !matches!(rt.arg(1, &mut first), Err(FillError::NotPresent))
}

fn main(rt: HostRuntime) {
    if is_given_words(&rt) {
        let _ = eprintln!(&rt;
            "usage: strigol <INPUT\nruns the file `deck` of this folder on standard input"
        );
        return;
    }
    let mut deck = [0u8; KEPT_DECK];
    let deck_length = match keep_deck(&rt, &mut deck) {
        Ok(kept) => kept,
        Err(error) => return fail(&rt, "strigol: deck", error),
    };
    let mut input = [0u8; KEPT_INPUT];
    let input_length = match keep_input(&rt, &mut input) {
        Ok(kept) => kept,
        Err(error) => return fail(&rt, "strigol: standard input", error),
    };
    run(&rt, &deck[..deck_length], &input[..input_length]);
}
