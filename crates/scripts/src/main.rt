// The calculator: reads a script from standard input or a file, and prints the answers.
#![tactic(auto)]

mod help;

use anyhow::anyhow;
use session::script::{INPUT_BYTES, answer_script};
use std::env;
use std::fs::File;
use std::io::{Read, Write};

const VERSION: &str = "calculator 0.1, for G-algebras\n";

// Reads to the end, or until there is more than a script may have. A loop and no `take(..).read_to_end(..)`: that asks for 512 bytes at first, and
// of an input that comes in packets it would lose what is left of a longer one.
fn read_script<R: Read>(reader: &mut R, input: &mut Vec<u8>) -> anyhow::Result<()> {
    let mut buffer = [0u8; 4096];
    for _ in 0..u64::MAX {
        let n = reader.read(&mut buffer)?;
        if n == 0 || input.len() > INPUT_BYTES {
            return Ok(());
        }
        input.extend_from_slice(&buffer[..n])?;
    }
    Ok(())
}

fn print(rt: &HostRuntime, bytes: &[u8]) -> anyhow::Result<()> {
    let mut out = rt.stdout();
    out.write_all(bytes)?;
    out.flush()?;
    Ok(())
}

// The answers of the script that a reader gives.
fn answer<R: Read>(rt: &HostRuntime, reader: &mut R) -> anyhow::Result<()> {
    let mut input = Vec::new(rt.alloc());
    read_script(reader, &mut input)?;
    let output = answer_script(rt.alloc(), input.as_slice())?;
    print(rt, output.as_slice())
}

fn main(rt: HostRuntime) -> anyhow::Result<()> {
    let mut args = env::args(&rt)?.skip(1);
    let Some(first) = args.next() else {
        return answer(&rt, &mut rt.stdin());
    };
    if args.next().is_some() {
        return Err(anyhow!("more than one argument: see calculator --help"));
    }
    match first.as_str() {
        "--help" => print(&rt, help::TEXT.as_bytes()),
        "--version" => print(&rt, VERSION.as_bytes()),
        path => answer(&rt, &mut File::open(&rt, path)?),
    }
}
