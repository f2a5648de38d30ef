// Plans of pipes, as they are written.
ghost use Rattle.std.specs.Prelude.{◌<◌, All, IsTrue};

use crate::places::hash_of;
use bloom_block::Bloom;
use case_text::{CaseError, Entry, number_of, numbers_of, pair_of, push_read, set_read};
use exact_filter::{Exact, RowPlaces};
use rpt_base::Listed;
use rpt_engine::AnyPlace;
use std::alloc::Global;
use transfer_core::{Pipe, Plan, Port};

// The parts of a plan that were read.
#[derive(Drop)]
struct Draft {
    morsel: u32,
    words: Vec<u32>,
    places: Vec<AnyPlace>,
    pipes: Vec<Pipe>,
}

/// The plan that lines write: `morsel N`, `words N ..` of each region, for each placement `rows ITEMS`, `codes COUNT
/// CODE ..` or `hashes HASH ..`, and for each pipe `pipe ITEMS` and behind it `reads` and `writes` with a region and a
/// placement for each port. Other lines say nothing of it.
pub fn plan_of(alloc: Global, entries: &[Entry]) -> Result<Plan<AnyPlace>, CaseError> {
    let mut draft = Draft {
        morsel: 0,
        words: Vec::new(alloc),
        places: Vec::new(alloc),
        pipes: Vec::new(alloc),
    };
    for entry in entries {
        draft.take(alloc, entry.word.as_str(), entry.rest.as_str())?;
    }
    let Draft {
        morsel,
        words,
        places,
        pipes,
    } = draft;
    Ok(Plan {
        morsel,
        words: Listed::from_vec(words),
        places: Listed::from_vec(places),
        pipes: Listed::from_vec(pipes),
    })
}

impl Draft {
    fn take(&mut self, alloc: Global, word: &str, rest: &str) -> Result<(), CaseError> {
        match word {
            "morsel" => set_read(&mut self.morsel, number_of(Some(rest))),
            "words" => set_read(&mut self.words, numbers_of(alloc, rest)),
            "rows" | "codes" | "hashes" => self.add_places(alloc, word, rest),
            "pipe" => self.add_pipe(alloc, rest),
            "reads" | "writes" => self.set_ports(alloc, word, rest),
            _ => Ok(()),
        }
    }

    fn add_places(&mut self, alloc: Global, word: &str, rest: &str) -> Result<(), CaseError> {
        let places = match word {
            "rows" => places_by_rows(rest),
            "codes" => places_by_codes(alloc, rest),
            _ => places_by_hashes(alloc, rest),
        };
        push_read(&mut self.places, places)
    }

    fn add_pipe(&mut self, alloc: Global, items: &str) -> Result<(), CaseError> {
        self.pipes.push(Pipe {
            items: number_of(Some(items))?,
            reads: Listed::from_vec(Vec::new(alloc)),
            writes: Listed::from_vec(Vec::new(alloc)),
        })?;
        Ok(())
    }

    // Sets the ports of the last pipe.
    fn set_ports(&mut self, alloc: Global, word: &str, rest: &str) -> Result<(), CaseError> {
        let ports = ports_of(alloc, rest)?;
        if let Some(pipe) = self.pipes.last_mut() {
            match word {
                "reads" => pipe.reads = ports,
                _ => pipe.writes = ports,
            }
        }
        Ok(())
    }
}

fn places_by_rows(items: &str) -> Result<AnyPlace, CaseError> {
    Ok(AnyPlace::Rows(RowPlaces::new(number_of(Some(items))?)))
}

fn places_by_codes(alloc: Global, rest: &str) -> Result<AnyPlace, CaseError> {
    let (count, codes) = rest.split_once(' ').unwrap_or((rest, ""));
    places_by(alloc, number_of(Some(count))?, codes)
}

/// The places of items by these codes, which are below the count.
pub fn places_by(alloc: Global, count: u32, codes: &str) -> Result<AnyPlace, CaseError> {
    let codes = numbers_of(alloc, codes)?;
    if codes.len() > 1000 || !are_below(&codes, count) {
        return Err(CaseError::Range);
    }
    Ok(AnyPlace::Exact(Exact::new(codes, count)))
}

// The places of items by these hashes.
fn places_by_hashes(alloc: Global, rest: &str) -> Result<AnyPlace, CaseError> {
    let mut hashes = Vec::new(alloc);
    for hash in rest.split_whitespace() {
        push_read(&mut hashes, hash_of(Some(hash)))?;
    }
    if hashes.len() > 1000 {
        return Err(CaseError::Range);
    }
    Ok(AnyPlace::Bloom(Bloom::new(hashes)))
}

fn are_below(codes: &[u32], count: u32) -> bool
    ensures { IsTrue result → All (λ code. code < count) codes.now }
{
    codes.iter().all(|code| *code < count)
}

fn ports_of(alloc: Global, rest: &str) -> Result<Listed<Port>, CaseError> {
    let mut ports = Vec::new(alloc);
    for port in rest.split_whitespace() {
        push_read(&mut ports, port_of(port))?;
    }
    Ok(Listed::from_vec(ports))
}

fn port_of(text: &str) -> Result<Port, CaseError> {
    let Some((region, places)) = text.split_once(':') else {
        return Err(CaseError::Word);
    };
    let (region, places) = pair_of(Some(region), Some(places))?;
    Ok(Port { region, places })
}
