use super::case::Case;
use super::names::{Named, bytes_of};
use super::no_answer::NoAnswer;
use super::parts::Part;
use super::told::Told;
use super::{changes, seals};
use std::alloc::Global;

/// The answer of a case on bytes.
pub fn answer_bytes(
    alloc: Global,
    names: &[Named<'_>],
    case: &Case<'_>,
    out: &mut Told,
) -> Result<(), NoAnswer> {
    let bytes = bytes_of(alloc, names, case.base())?;
    of_bytes(alloc, names, case, bytes.as_slice(), out)
}

fn of_bytes(
    alloc: Global,
    names: &[Named<'_>],
    case: &Case<'_>,
    bytes: &[u8],
    out: &mut Told,
) -> Result<(), NoAnswer> {
    match case.command {
        "decode" | "exact" | "changes" => of_part(alloc, names, case, bytes, out),
        "hmac" => seals::hmac_of(alloc, names, case, bytes, out),
        _ => of_seal(alloc, case, bytes, out),
    }
}

/// The answer of a case on what is read of bytes.
fn of_part(
    alloc: Global,
    names: &[Named<'_>],
    case: &Case<'_>,
    bytes: &[u8],
    out: &mut Told,
) -> Result<(), NoAnswer> {
    let part = Part::of(case.word(0)).ok_or(NoAnswer::Word)?;
    match case.command {
        "decode" => {
            changes::decode(alloc, part, bytes, out);
            Ok(())
        }
        "exact" => Ok(changes::exact(alloc, part, bytes, out)?),
        _ => changes::changes(alloc, names, part, case.lines, bytes, out),
    }
}

/// The answer of a case on classes, digests or HMACs.
fn of_seal(alloc: Global, case: &Case<'_>, bytes: &[u8], out: &mut Told) -> Result<(), NoAnswer> {
    match case.command {
        "method" => seals::method(alloc, case, bytes, out),
        "digest" => seals::digest_of(alloc, case, bytes, out),
        "mac" => seals::mac(case, bytes, out),
        "signed" => seals::signed(alloc, case, bytes, out),
        "receive" => seals::received(alloc, case, bytes, out),
        "cull" => seals::cull(alloc, case, bytes, out),
        _ => Err(NoAnswer::Word),
    }
}
