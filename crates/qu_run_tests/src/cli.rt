//! A source and a sink that see what each call moves.

use qu_base::List;
use qu_cli::qu_alone;
use qu_io::{Failed, MemSink, MemSource, PIECE, Sink, Source};
use qu_testing::holds;
use std::alloc::Global;
use std::test::Fail;

/// A source that records whether each read asked for a whole piece.
#[derive(Drop)]
struct Asked {
    source: MemSource,
    whole: bool,
}

impl Source for Asked {
    ghost use Rattle.qu_io.specs.InMemory.{known_of};

    ghost known = { λ asked. known_of asked.source };

    fn read(&mut self, into: &mut [u8]) -> Result<usize, Failed> {
        self.whole &= into.len() == PIECE;
        self.source.read(into)
    }
}

/// A sink that records whether each write offered all that was left of the first.
#[derive(Drop)]
struct Offered {
    sink: MemSink,
    left: Option<usize>,
    whole: bool,
}

impl Sink for Offered {
    ghost use Rattle.qu_io.specs.InMemory.{known_of};

    ghost known = { λ offered. known_of offered.sink };

    fn write(&mut self, piece: &[u8]) -> Result<usize, Failed> {
        let left = self.left.unwrap_or(piece.len());
        self.whole &= piece.len() == left;
        let taken = self.sink.write(piece)?;
        self.left = Some(left.saturating_sub(taken));
        Ok(taken)
    }
}

const SCRIPT: &str = "bounds 1\nseed 7\nclients 1\nobject 0 counter\n";

fn short_script(alloc: Global) -> Result<Asked, Fail> {
    let script = List::from_clones(alloc, SCRIPT.as_bytes())?;
    Ok(Asked {
        source: MemSource::new(script, 10, List::new(alloc)),
        whole: true,
    })
}

fn small_sink(alloc: Global) -> Offered {
    Offered {
        sink: MemSink::new(alloc, 4, List::new(alloc)),
        left: None,
        whole: true,
    }
}

fn have_moved(input: &Asked, output: &Offered) -> Result<(), Fail> {
    holds(input.whole && input.source.calls() == 6, "whole pieces")?;
    holds(output.whole && output.sink.calls() == 18, "whole rests")?;
    holds(output.sink.taken().len() == 72, "the report")
}

#[test]
fn each_call_moves_what_it_can(rt: HostRuntime) -> Result<(), Fail> {
    let words = [String::from_str(rt.alloc(), "sim")?];
    let mut input = short_script(rt.alloc())?;
    let mut output = small_sink(rt.alloc());
    let status = qu_alone(rt.alloc(), &words, &mut input, &mut output).status;
    holds(status == 0, "it is done")?;
    have_moved(&input, &output)
}
