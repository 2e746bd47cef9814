//! Readers and writers that fail or are interrupted, at each engine.

use crate::fakes::{Fails, Full, InterruptedReader, InterruptedWriter};
use crate::scripts::FLAT_PA_COMMIT;
use audit_engine::run_log;
use report_io::Failure;
use std::alloc::Global;
use std::io::{Read, Write};
use tree_engine::{TreeOutput, run_tree};
use xa_engine::run_xa;

/// An engine.
#[derive(Clone, Copy)]
enum Engine {
    Tree,
    Xa,
    Log,
}

const ENGINES: [Engine; 3] = [Engine::Tree, Engine::Xa, Engine::Log];

/// An input of an engine that has an output.
fn input_of(engine: Engine) -> &'static [u8] {
    match engine {
        Engine::Tree => FLAT_PA_COMMIT.as_bytes(),
        Engine::Xa => b"open TMNOFLAGS",
        Engine::Log => b"---\n",
    }
}

/// Why a run fails.
fn failure_of<R: Read, W: Write>(
    alloc: Global,
    engine: Engine,
    reader: &mut R,
    writer: &mut W,
) -> Option<Failure> {
    match engine {
        Engine::Tree => run_tree(alloc, TreeOutput::Trace, reader, writer).err(),
        Engine::Xa => run_xa(alloc, reader, writer).err(),
        Engine::Log => run_log(alloc, reader, writer).err(),
    }
}

/// Where reading fails, each engine says so, and has written nothing.
pub(crate) fn a_reader_that_fails(alloc: Global) -> bool {
    for engine in ENGINES {
        let mut out = Vec::new(alloc);
        let failure = failure_of(alloc, engine, &mut Fails, &mut out);
        if failure != Some(Failure::Read) || !out.is_empty() {
            return false;
        }
    }
    true
}

/// Where writing fails, or takes nothing, each engine says so.
pub(crate) fn a_writer_that_fails(alloc: Global) -> bool {
    for engine in ENGINES {
        for fails in [false, true] {
            let mut input = input_of(engine);
            let failure = failure_of(alloc, engine, &mut input, &mut Full { fails });
            if failure != Some(Failure::Write) {
                return false;
            }
        }
    }
    true
}

/// Whether an engine writes through streams that are interrupted what it writes through others.
fn goes_on(alloc: Global, engine: Engine) -> bool {
    let mut out = Vec::new(alloc);
    let plain = failure_of(alloc, engine, &mut input_of(engine), &mut out);
    let mut reader = InterruptedReader {
        bytes: input_of(engine),
        is_next: true,
    };
    let mut writer = InterruptedWriter {
        bytes: Vec::new(alloc),
        is_next: true,
    };
    let interrupted = failure_of(alloc, engine, &mut reader, &mut writer);
    plain.is_none() && interrupted.is_none() && writer.bytes.as_slice() == out.as_slice()
}

/// A read or a write that is interrupted is made again.
pub(crate) fn streams_that_are_interrupted(alloc: Global) -> bool {
    for engine in ENGINES {
        if !goes_on(alloc, engine) {
            return false;
        }
    }
    true
}
