//! The bytes of a map: its records one after the other, numbers little-endian.
ghost use Rattle.std.specs.Prelude.{◌≡◌, ◌+◌, ◌*◌, ◌≤◌, ◌++◌, length};
ghost use Rattle.frame.specs.Framing.{kind_value};
ghost use Rattle.map.specs.Values.{paper_map, paper_place, paper_places};
ghost use Rattle.paper.specs.Bytes.{put16, put32};
ghost use Rattle.paper.specs.Maps.{map_head_record, place_record, link_record, write_out};
ghost use Rattle.paper.specs.Records.{end_record};
ghost use Rattle.paper.specs.Words.{joined};

use arrayvec::ArrayVec;
use frame::Kind;
use layout::{Layout, Place};

/// How many bytes a map has at most: a head, 64 places, 64 links and the end.
pub(crate) const MOST: usize = 12 + 64 * 14 + 64 * 6 + 4;

/// The bytes of a map, in fixed memory, since a heap that runs out would be a refusal that no rule gives.
pub(crate) type Image = ArrayVec<u8, MOST>;

// Appends a number of two bytes.
fn push16(image: &mut Image, n: u16)
    requires { length image.old.items + 2 ≤ MOST }
    ensures items { image.new.items ≡ image.old.items ++ put16 n }
    ensures len { length image.new.items ≡ length image.old.items + 2 }
{
    image.push((n % 256) as u8);
    image.push((n / 256) as u8);
}

// Appends a number of four bytes.
fn push32(image: &mut Image, n: u32)
    requires { length image.old.items + 4 ≤ MOST }
    ensures items { image.new.items ≡ image.old.items ++ put32 n }
    ensures len { length image.new.items ≡ length image.old.items + 4 }
{
    push16(image, (n % 65536) as u16);
    push16(image, (n / 65536) as u16);
}

// Appends what a record starts with: its length and its kind.
fn push_start(image: &mut Image, bytes: u16, kind: Kind)
    requires { length image.old.items + 4 ≤ MOST }
    ensures items { image.new.items ≡ image.old.items ++ (put16 bytes ++ put16 (kind_value kind).kind) }
    ensures len { length image.new.items ≡ length image.old.items + 4 }
{
    push16(image, bytes);
    push16(image, kind.number());
}

// Appends the head's record.
fn push_head(image: &mut Image, map: &Layout)
    requires { length image.old.items + 12 ≤ MOST }
    ensures items { image.new.items ≡ image.old.items ++ map_head_record (paper_map map.now) }
    ensures len { length image.new.items ≡ length image.old.items + 12 }
{
    push_start(image, 12, Kind::MapHead);
    push16(image, map.alignment);
    push32(image, map.total);
    push16(image, map.places.len() as u16);
}

// Appends the record of a place.
fn push_place(image: &mut Image, place: &Place)
    requires { length image.old.items + 14 ≤ MOST }
    ensures items { image.new.items ≡ image.old.items ++ place_record (paper_place place.now) }
    ensures len { length image.new.items ≡ length image.old.items + 14 }
{
    push_start(image, 14, Kind::Place);
    push16(image, place.identity);
    push32(image, place.address);
    push32(image, place.size);
}

// Appends the record of a link.
fn push_link(image: &mut Image, identity: u16)
    requires { length image.old.items + 6 ≤ MOST }
    ensures items { image.new.items ≡ image.old.items ++ link_record identity }
    ensures len { length image.new.items ≡ length image.old.items + 6 }
{
    push_start(image, 6, Kind::Link);
    push16(image, identity);
}

// Appends the records of some places.
fn push_places(image: &mut Image, places: &[Place])
    requires { length image.old.items + 14 * length places.now ≤ MOST }
    ensures items { image.new.items ≡ image.old.items ++ joined place_record (paper_places places.now) }
    ensures len { length image.new.items ≡ length image.old.items + 14 * length places.now }
{
    for place in places {
        push_place(image, place);
    }
}

// Appends the records of some links.
fn push_links(image: &mut Image, links: &[u16])
    requires { length image.old.items + 6 * length links.now ≤ MOST }
    ensures items { image.new.items ≡ image.old.items ++ joined link_record links.now }
    ensures len { length image.new.items ≡ length image.old.items + 6 * length links.now }
{
    for &link in links {
        push_link(image, link);
    }
}

/// The bytes of a map.
#[tactic(auto, unfolding(paper::specs::Maps::write_out))]
pub(crate) fn image(map: &Layout) -> Image
    ensures { result.items ≡ write_out (paper_map map.now) }
{
    let mut image = Image::new();
    push_head(&mut image, map);
    push_places(&mut image, &map.places);
    push_links(&mut image, &map.chain);
    push_start(&mut image, 4, Kind::End);
    image
}
