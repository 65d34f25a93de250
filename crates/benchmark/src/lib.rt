// The run as the benchmark calls it: integers, weighted degree with weights 1. The crate benchmark_c gives it to C.
#![tactic(auto)]

use integers::integers::Integers;
use orders::degree::Degree;
use orders::letter::Letter;
use orders::weight::Weight;
use run::calls::Calculation;
use run::relation::{Relation, Table};
use run::rules::Rules;
use words::term::Term;
use words::word::{Word, WordFault};

// The integer 1.
const ONE: u64 = 2;

// The relations that a run is measured with.
#[derive(Clone, Copy)]
enum Specimen {
    Weyl,
    Sl2,
    Commuting,
    FourWeylPairs,
}

// As C numbers them.
impl From<u32> for Specimen {
    fn from(which: u32) -> Specimen {
        match which {
            0 => Specimen::Weyl,
            1 => Specimen::Sl2,
            3 => Specimen::FourWeylPairs,
            _ => Specimen::Commuting,
        }
    }
}

fn term(letters: &[u8], code: u64) -> Result<Term, WordFault> {
    let mut word = Word::empty();
    for x in letters {
        word.push(u64::from(*x))?;
    }
    let row = word.row();
    Ok(Term { row, code })
}

// x_j x_i = x_i x_j + one term.
fn declare(table: &mut Table, j: u64, i: u64, letters: &[u8], code: u64) -> Option<()> {
    let j = Letter::new(j)?;
    let i = Letter::new(i)?;
    let tail = term(letters, code).ok()?;
    table[Relation::pair_place(j, i)] = Relation::new(ONE, &[tail])?;
    Some(())
}

impl Specimen {
    fn table(self) -> Option<Table> {
        let mut table = [Relation::new(ONE, &[])?; 64];
        match self {
            Specimen::Weyl => declare(&mut table, 2, 1, &[], ONE)?,
            Specimen::Sl2 => {
                declare(&mut table, 2, 1, &[3], 1)?;
                declare(&mut table, 3, 1, &[1], 4)?;
                declare(&mut table, 3, 2, &[2], 3)?;
            }
            Specimen::Commuting => {}
            Specimen::FourWeylPairs => {
                for i in 1..5 {
                    declare(&mut table, i + 4, i, &[], ONE)?;
                }
            }
        }
        Some(table)
    }

    fn rules(self) -> Option<Rules<Integers, Degree>> {
        let one = Weight::try_from(1).ok()?;
        Some(Rules {
            ring: Integers,
            order: Degree::new([one; 8]),
            table: self.table()?,
        })
    }
}

// The steps of one run times 10,000 and the number of its terms, 9,999 where it was refused.
fn repeated(
    rules: &Rules<Integers, Degree>,
    list: &[Term],
    work: &mut [Term],
    out: &mut [Term],
    times: u64,
) -> u64 {
    let mut answer = 0u64;
    for _ in 0..times {
        answer = match rules.calculate(&Calculation::Normalise(list), work, out) {
            Ok((count, steps)) => steps.saturating_mul(10000).saturating_add(count as u64),
            Err(fault) => fault.place.step.saturating_mul(10000).saturating_add(9999),
        };
    }
    answer
}

// Normalises a word with coefficient 1 so many times; a word that is too long stands as the blank term.
pub fn normalise_many(which: u32, letters: &[u8], times: u64) -> u64 {
    let Some(rules) = Specimen::from(which).rules() else {
        return 0;
    };
    let list = [term(letters, ONE).unwrap_or(Term::blank())];
    let mut work = [Term::blank(); 512];
    let mut out = [Term::blank(); 512];
    repeated(&rules, &list, &mut work, &mut out, times)
}
