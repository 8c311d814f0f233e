//! `decode_edited`: edits of an empty stream, coded and decoded.

use crate::asserts::same;
use aec_bits::Codec;
use aec_edit::Outcome;
use aec_engine::decode_edited;
use aec_params::{Edit, Fault, Params, Samples, Settings};
use std::alloc::{AllocError, Global};
use std::test::Fail;

fn appended(alloc: Global, values: &[i64]) -> Result<Edit, AllocError> {
    Ok(Edit::Append {
        values: Samples::new(values.to_vec(alloc)?),
    })
}

/// Appends five samples of 7 and four more. A truncation to ten samples is refused; those to six
/// and to five are applied.
#[test]
fn edited_streams_are_decoded(rt: HostRuntime) -> Result<(), Fail> {
    let alloc = rt.alloc();
    let params = Params::new(Settings::USUAL)?;
    let edits = [
        appended(alloc, &[7, 7, 7, 7, 7])?,
        appended(alloc, &[7, 7, 7, 8])?,
        Edit::Truncate { count: 10 },
        Edit::Truncate { count: 6 },
        Edit::Truncate { count: 5 },
    ];
    let decoded = decode_edited(alloc, &params, 9, &edits)?;
    same(
        &rt,
        decoded.outcomes.as_slice(),
        [
            Outcome::Done { coded: 1 },
            Outcome::Done { coded: 1 },
            Outcome::Refused {
                fault: Fault::OutOfRange { count: 9 },
            },
            Outcome::Done { coded: 1 },
            Outcome::Done { coded: 1 },
        ]
        .as_slice(),
    );
    same(&rt, decoded.codec.calls(), 4);
    same(&rt, decoded.stream.as_slice(), [0x00, 0x78].as_slice());
    same(&rt, decoded.samples.as_slice(), [7, 7, 7, 7, 7].as_slice());
    Ok(())
}
