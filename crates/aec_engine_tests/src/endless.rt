//! Sources that never end.

use crate::asserts::{same, same_at};
use crate::devices::{After, Basin, Pieces};
use aec_bits::Sink;
use aec_engine::{decode, encode, range};
use aec_params::{Fault, Limits, Params, Settings};
use std::alloc::Global;
use std::process::Abort;
use std::test::Fail;

#[derive(Clone, Copy, Debug)]
enum Engine {
    Encode,
    Decode,
    Range,
}

// Returns the result of an engine for endless zeros. Checks that nothing is begun or written.
fn answer(
    rt: &impl Abort,
    alloc: Global,
    engine: Engine,
    limits: Limits,
) -> Result<Result<(), Fault>, Fail> {
    let params = Params::new(Settings::USUAL)?;
    let mut source = Pieces::of(&[], 1, After::Zeros);
    let mut sink = Basin::of(alloc, 64, 1 << 20);
    let result = match engine {
        Engine::Encode => encode(alloc, &params, limits, &mut source, &mut sink),
        Engine::Decode => decode(alloc, &params, limits, None, &mut source, &mut sink),
        Engine::Range => range(alloc, &params, limits, None, 0, 1, &mut source, &mut sink),
    };
    same_at(rt, sink.begins(), 0, &engine);
    same(rt, sink.bytes.as_slice(), b"".as_slice());
    Ok(result)
}

#[test]
fn endless_sources_are_refused_at_the_limit(rt: HostRuntime) -> Result<(), Fail> {
    let limits = Limits::new(20, 1000).ok_or("limits")?;
    let too_long = Err(Fault::StreamTooLong { limit: 1000 });
    let too_many = Err(Fault::TooManySamples { limit: 20 });
    let rows = [
        (Engine::Decode, too_long),
        (Engine::Range, too_long),
        (Engine::Encode, too_many),
    ];
    for (engine, wanted) in rows {
        let result = answer(&rt, rt.alloc(), engine, limits)?;
        same_at(&rt, result, wanted, &engine);
    }
    Ok(())
}
