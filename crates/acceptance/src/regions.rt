//! Rows of regions.

use anyhow::Result;
use apr_region::Region;

/// Tells bytes as a text.
fn show(rt: &HostRuntime, what: &str, bytes: &[u8]) -> Result<()> {
    println!(rt; "{what} \"{}\"", str::from_utf8(bytes)?)?;
    Ok(())
}

/// Places three pieces, and one more after a reset.
fn place_pieces(rt: &HostRuntime, region: &mut Region) -> Result<()> {
    let ab = region.place(b"ab")?;
    let none = region.place(b"")?;
    let c = region.place(b"c")?;
    show(rt, "the first", region.bytes(ab))?;
    show(rt, "the second", region.bytes(none))?;
    show(rt, "the third", region.bytes(c))?;
    region.reset();
    let d = region.place(b"d")?;
    show(rt, "after a reset", region.bytes(d))
}

/// Tells what pieces of a region hold.
pub(crate) fn region_spans(rt: &HostRuntime) -> Result<()> {
    println!(rt; "bytes of a region")?;
    place_pieces(rt, &mut Region::new(rt.alloc()))
}
