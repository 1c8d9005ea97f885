ghost use Rattle.std.specs.Prelude.{◌≡◌, IfOk};
ghost use Rattle.qu_kept.specs.Keyed.{with_item};
ghost use Rattle.qu_kept.specs.Performing.{linked_object, links_to_others, with_links};

use qu_base::{List, NoMemory, ObjectId};
use qu_objects::Link;
use qu_stamp::Stamp;
use std::alloc::Global;

/// An object's links after an act with these parts, or a copy with this group, that it is one of: the links to the
/// others are under its own new stamp.
pub fn links_after<X>(
    alloc: Global,
    links: &[Link],
    object: ObjectId,
    stamp: Stamp,
    parts: &[(ObjectId, X)],
) -> Result<List<Link>, NoMemory>
    ensures { IfOk result (λ new. new ≡ with_links (links_to_others object stamp parts.now) links.now) }
{
    let mut new = List::from_clones(alloc, links)?;
    for (other, _) in parts {
        if *other != object {
            let link = Link {
                object: *other,
                stamp,
            };
            new = with_link(alloc, new.as_slice(), link)?;
        }
    }
    Ok(new)
}

/// The links with this one in the place of that to its object.
fn with_link(alloc: Global, links: &[Link], link: Link) -> Result<List<Link>, NoMemory>
    ensures { IfOk result (λ new. new ≡ with_item linked_object link links.now) }
{
    let mut new = List::new(alloc);
    for lower in links {
        if lower.object.0 < link.object.0 {
            new.push(*lower)?;
        }
    }
    new.push(link)?;
    for higher in links {
        if link.object.0 < higher.object.0 {
            new.push(*higher)?;
        }
    }
    Ok(new)
}
