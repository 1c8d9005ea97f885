use qu_base::{BadBounds, BadText, Bounds, Cursor, ObjectId, Outbytes, ReplicaId, Why};
use qu_testing::{all_hold, holds};
use std::alloc::Global;
use std::test::Fail;

fn are_sizes(b: u8, n: u8, q: u8, r: u8) -> bool {
    match Bounds::new(b) {
        Ok(bounds) => { bounds.b() == b && bounds.n() == n && bounds.q() == q && bounds.r() == r }
        Err(_) => false,
    }
}

#[test]
fn bounds_of_each_number() -> Result<(), Fail> {
    all_hold(&[
        (are_sizes(1, 6, 5, 3), "one may lie"),
        (are_sizes(2, 11, 9, 5), "two may lie"),
        (are_sizes(3, 16, 13, 7), "three may lie"),
        (
            Bounds::new(0).err() == Some(BadBounds::OutOfRange(0)),
            "none",
        ),
        (
            Bounds::new(4).err() == Some(BadBounds::OutOfRange(4)),
            "four",
        ),
    ])
}

#[test]
fn a_text_is_read_to_its_end() -> Result<(), Fail> {
    let mut text = Cursor::new(&[7, 1, 2, 0, 0, 0, 0, 0, 0, 2, 1, 9]);
    all_hold(&[
        (text.u8() == Some(7), "one byte"),
        (text.u16() == Some(258), "two bytes"),
        (text.u64() == Some(513), "eight bytes"),
        (text.u16().is_none(), "one byte is not two"),
        (text.place() == 11, "the place"),
        (text.take(1).is_some(), "the last byte"),
        (text.u8().is_none(), "the end"),
    ])
}

/// Whether a field is refused at this place.
fn is_refused<T>(field: Result<T, BadText>, place: u64, why: Why) -> bool
where
    T: Drop,
{
    match field {
        Ok(_) => false,
        Err(bad) => bad == BadText { place, why },
    }
}

#[test]
fn a_field_is_refused_where_it_begins() -> Result<(), Fail> {
    let mut text = Cursor::new(&[9, 0, 64, 2]);
    all_hold(&[
        (
            is_refused(text.u8_within(1, 8), 0, Why::Range),
            "9 is above 8",
        ),
        (text.u8() == Some(9), "the place stays"),
        (is_refused(text.object(), 1, Why::Range), "no object 64"),
        (text.u16() == Some(64), "the place stays"),
        (is_refused(text.flag(true), 3, Why::Range), "no flag 2"),
        (
            is_refused(text.digest(), 3, Why::Short),
            "a digest has 32 bytes",
        ),
    ])
}

#[test]
fn fields_are_read() -> Result<(), Fail> {
    let mut text = Cursor::new(&[0, 63, 15, 1, 1]);
    all_hold(&[
        (text.object() == Ok(ObjectId(63)), "the last object"),
        (text.replica() == Ok(ReplicaId(15)), "the last replica"),
        (text.flag(true) == Ok(true), "a flag that may be set"),
        (
            is_refused(text.flag(false), 4, Why::Range),
            "a flag that may not",
        ),
        (
            is_refused(text.u64_within(0, 1), 4, Why::Short),
            "one byte is not eight",
        ),
    ])
}

fn two_pieces(alloc: Global) -> Result<Outbytes, Fail> {
    let mut out = Outbytes::new(alloc);
    out.put(b"line ")?;
    out.put(b"1")?;
    Ok(out)
}

#[test]
fn a_text_is_written_in_pieces(rt: HostRuntime) -> Result<(), Fail> {
    let copy = two_pieces(rt.alloc())?.done().copy(rt.alloc())?;
    all_hold(&[
        (copy.as_slice() == b"line 1".as_slice(), "both pieces"),
        (copy.get(5).copied() == Some(b'1'), "the last byte"),
    ])
}

/// Whether there is memory for a byte, a flag, and numbers of two bytes and of eight.
fn are_put(out: &mut Outbytes) -> bool {
    out.u8(7).is_ok() && out.flag(true).is_ok() && out.u16(258).is_ok() && out.u64(513).is_ok()
}

#[test]
fn numbers_are_written_big_endian(rt: HostRuntime) -> Result<(), Fail> {
    let mut out = Outbytes::new(rt.alloc());
    let is_written = are_put(&mut out) && out.len() == 12;
    out.rewind(4);
    let is_rewound = out.done().as_slice() == [7, 1, 1, 2].as_slice();
    all_hold(&[(is_written, "all bytes"), (is_rewound, "the first four")])
}
