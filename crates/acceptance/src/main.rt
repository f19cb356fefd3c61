//! Runs cases over the depot server in memory, and compares what it answers with what is expected.
//!
//! The words of the command line name files of cases, whose lines `data/README.md` tells. The answers that the cases of
//! a file `NAME.cases` are to have stand in `NAME.expected`. Where the server answers just so, a line says how many
//! lines were compared; else it names the first line that differs, shows both and the program ends with status 1. Where
//! there is no such file the answers themselves are printed.
#![tactic(auto)]

use case_files::{CaseGate, Disks, Ran, Server, Setting, Sites, answer_files};
use chain_server::{ChainEnded, Ended, Pair, PartyEnd, WholeEnded, whole_top};
use depot_path::Sequence;
use memory_world::{FixedClock, MemoryDisk, MemorySink, MemorySource};
use std::alloc::{AllocError, Global};
use std::io;
use std::process::ExitCode;
use std::sync::Wait;
use std::thread::Threads;

/// What the clock says.
const NOW: u64 = 1_700_000_000;

/// The depot server.
#[derive(Drop)]
struct DepotServer {
    alloc: Global,
}

/// What each of these parties got.
fn sinks_of(
    alloc: Global,
    parties: Sequence<PartyEnd<MemorySink>>,
) -> Result<Vec<MemorySink>, AllocError> {
    let mut sinks = Vec::new(alloc);
    for party in parties.into_vec() {
        sinks.push(party.sink)?;
    }
    Ok(sinks)
}

/// What is left of a run.
#[derive(Drop)]
struct Outcome {
    status: u8,
    sites: Sites,
    parties: Sequence<PartyEnd<MemorySink>>,
}

/// The disks that are given back.
fn disks_of(files: Pair<MemoryDisk>) -> Disks {
    let Pair { journal, archive } = files;
    Disks { journal, archive }
}

/// The disks of the server.
fn pair_of(disks: Disks) -> Pair<MemoryDisk> {
    let Disks { journal, archive } = disks;
    Pair { journal, archive }
}

/// What is left of a run over disks of a depot, with the status and the parties of its end.
fn left_of(
    ended: Ended<MemoryDisk, MemorySource, MemorySink>,
) -> (u8, Disks, Sequence<PartyEnd<MemorySink>>) {
    let Ended {
        status,
        cause: _,
        order,
        parties,
        sources,
        journal,
        archive,
    } = ended;
    drop(order);
    drop(sources);
    (status, Disks { journal, archive }, parties)
}

/// What is left of a run that ended so.
fn outcome_of(alloc: Global, ended: WholeEnded<MemoryDisk, MemorySource, MemorySink>) -> Outcome {
    match ended {
        WholeEnded::Depot { ended, node } => {
            let (status, depot, parties) = left_of(ended);
            let node = disks_of(node);
            let sites = Sites { depot, node };
            Outcome {
                status,
                sites,
                parties,
            }
        }
        WholeEnded::Node { ended, depot } => {
            let (status, node, parties) = left_of(ended);
            let depot = disks_of(depot);
            let sites = Sites { depot, node };
            Outcome {
                status,
                sites,
                parties,
            }
        }
        WholeEnded::Followed { ended } => {
            let ChainEnded {
                status,
                cause: _,
                up,
                node,
            } = ended;
            let depot = disks_of(up);
            let node = disks_of(node);
            let sites = Sites { depot, node };
            Outcome {
                status,
                sites,
                parties: Sequence::new(alloc),
            }
        }
    }
}

impl Server for DepotServer {
    fn run<R: Threads + Wait + Sync>(
        &self,
        rt: &R,
        setting: Setting,
        sites: Sites,
        gate: &CaseGate,
    ) -> Result<Ran, AllocError> {
        let Setting {
            words,
            mut doors,
            mut out,
        } = setting;
        let Sites { depot, node } = sites;
        let clock = FixedClock::new(NOW);
        let ended = whole_top(
            rt,
            self.alloc,
            &words,
            &mut doors,
            pair_of(depot),
            pair_of(node),
            &mut out,
            &clock,
            gate,
        );
        drop(doors);
        let Outcome {
            status,
            sites,
            parties,
        } = outcome_of(self.alloc, ended);
        match sinks_of(self.alloc, parties) {
            Ok(sinks) => Ok(Ran {
                status,
                sites,
                sinks,
                out,
            }),
            Err(AllocError) => {
                drop(sites);
                drop(out);
                Err(AllocError)
            }
        }
    }
}

fn main(rt: HostRuntime) -> io::Result<ExitCode> {
    let server = DepotServer { alloc: rt.alloc() };
    answer_files(&rt, &server)
}
