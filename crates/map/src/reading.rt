//! Reading a map: its head, the counted places, the links of its chain, and the end record.
ghost use Rattle.std.specs.Prelude.{◌≡◌, ◌+◌, ◌≤◌, ◌<◌, [], length, Ok, IfOk};
ghost use Rattle.std.specs.Result.{result_map_both};
ghost use Rattle.frame.specs.Framing.{record_value, record_at};
ghost use Rattle.frame.specs.Values.{values_of, answer_of, with_value};
ghost use Rattle.layout.specs.Values.{layout_value};
ghost use Rattle.map.specs.Values.{paper_map};
ghost use Rattle.paper.specs.Maps.{link_or_end, read_links, read_map_records, read_map};
ghost use Rattle.paper.specs.Records.{framing, after};
ghost use Rattle.paper.specs.Refusals.{first, unless_at};

use crate::rules::{ends_at_total, head_fault, is_link, is_place, total_is_greatest_end};
use crate::{Layout, Place};
use frame::{Fault, Kind, Record, Refusal, le16, le32};
use slots::Slots;

/// A map as read so far, and where the next record starts.
#[derive(Drop)]
struct Walk {
    at: usize,
    map: Layout,
}

impl Walk {
    ghost use Rattle.map.specs.Steps.{walk_value, IsChained, head_step, place_step, places_walk, link_step, end_step};

    // The walk past the head.
    #[tactic(auto, unfolding(crate::specs::Steps::head_step))]
    fn head(bytes: &[u8]) -> Result<Walk, Refusal>
        ensures { result_map_both walk_value values_of result ≡ head_step bytes.now }
    {
        let end = Record::only(bytes, 0, Kind::MapHead)?;
        let alignment = le16(bytes, 4);
        let total = le32(bytes, 6);
        if let Some(fault) = head_fault(alignment, total, usize::from(le16(bytes, 10))) {
            return Err(fault.at(0));
        }
        Ok(Walk {
            at: end,
            map: Layout {
                alignment,
                total,
                places: Slots::new(),
                chain: Slots::new(),
            },
        })
    }

    // The walk past a place.
    #[tactic(auto, unfolding(crate::specs::Steps::place_step))]
    fn past_place(self, bytes: &[u8]) -> Result<Walk, Refusal>
        requires aligned { 0 < self.map.alignment }
        requires room { length self.map.places.items < 64 }
        ensures { result_map_both walk_value values_of result ≡ place_step bytes.now (walk_value self) }
    {
        let end = Record::only(bytes, self.at, Kind::Place)?;
        let place = Place {
            identity: le16(bytes, self.at + 4),
            address: le32(bytes, self.at + 6),
            size: le32(bytes, self.at + 10),
        };
        if !is_place(&self.map, &place) {
            return Err(Fault::Place.at(self.at));
        }
        let mut map = self.map;
        map.places.push(place);
        Ok(Walk { at: end, map })
    }

    // The walk past so many places.
    fn places(self, bytes: &[u8], count: u16) -> Result<Walk, Refusal>
        requires aligned { 0 < self.map.alignment }
        requires room { length self.map.places.items + count ≤ 64 }
        ensures { result_map_both walk_value values_of result ≡ places_walk count bytes.now (walk_value self) }
    {
        let mut walk = self;
        for i in 0..count {
            walk = walk.past_place(bytes)?;
        }
        Ok(walk)
    }

    // The next record: a link or, once there is one, the end.
    fn next(&self, bytes: &[u8]) -> Result<Record, Refusal>
        ensures framed { result_map_both record_value values_of result
            ≡ unless_at self.now.at (first (framing (link_or_end self.now.map.chain.items) bytes.now self.now.at)) (Ok (record_at bytes.now self.now.at)) }
        ensures inside { IfOk result (λ r. self.now.at + 4 ≤ r.end) }
        ensures end { IfOk result (λ r. r.end ≡ after bytes.now self.now.at) }
    {
        if self.map.chain.is_empty() {
            Record::read(bytes, self.at, &[Kind::Link])
        } else {
            Record::read(bytes, self.at, &[Kind::Link, Kind::End])
        }
    }

    // The walk past a link, which is framed and ends at `end`.
    #[tactic(auto, unfolding(crate::specs::Steps::link_step))]
    fn past_link(self, bytes: &[u8], end: usize) -> Result<Walk, Refusal>
        requires chained { IsChained (paper_map self.map) }
        requires ends { end ≡ after bytes.now self.at }
        requires whole { self.at + 4 ≤ end }
        ensures { result_map_both walk_value values_of result ≡ link_step bytes.now (walk_value self) }
    {
        let identity = le16(bytes, self.at + 4);
        if !is_link(&self.map, identity) {
            return Err(Fault::Chain.at(self.at));
        }
        let mut map = self.map;
        map.chain.push(identity);
        Ok(Walk { at: end, map })
    }

    // The walk past the end record, which is framed and ends at `end`.
    #[tactic(auto, unfolding(crate::specs::Steps::end_step))]
    fn past_end(self, bytes: &[u8], end: usize) -> Result<Walk, Refusal>
        requires { end ≡ after bytes.now self.at }
        ensures { result_map_both walk_value values_of result ≡ end_step bytes.now (walk_value self) }
    {
        if !ends_at_total(&self.map) {
            return Err(Fault::Chain.at(self.at));
        }
        Ok(Walk {
            at: end,
            map: self.map,
        })
    }

    // The walk past all links and the end record. There are fewer records than bytes.
    fn links(self, bytes: &[u8]) -> Result<Walk, Refusal>
        requires few { length self.map.places.items ≤ 64 }
        requires unlinked { self.map.chain.items ≡ [] }
        ensures { result_map_both walk_value values_of result ≡ read_links (length bytes.now) bytes.now (walk_value self) }
    {
        let mut walk = self;
        for i in 0..bytes.len() {
            let record = walk.next(bytes)?;
            if record.kind == Kind::End {
                return walk.past_end(bytes, record.end);
            }
            walk = walk.past_link(bytes, record.end)?;
        }
        Err(Fault::BytesRunOut.at(walk.at))
    }

    // The walk past all records.
    fn records(bytes: &[u8]) -> Result<Walk, Refusal>
        ensures { result_map_both walk_value values_of result ≡ read_map_records bytes.now }
    {
        let head = Walk::head(bytes)?;
        let walk = head.places(bytes, le16(bytes, 10))?;
        if !total_is_greatest_end(&walk.map) {
            return Err(Fault::Total.at(0));
        }
        walk.links(bytes)
    }
}

/// The map that some bytes say, or what is wrong with them.
pub fn read(bytes: &[u8]) -> Result<Layout, Refusal>
    ensures { answer_of result ≡ with_value layout_value (read_map bytes.now) }
{
    let walk = Walk::records(bytes)?;
    if walk.at < bytes.len() {
        return Err(Fault::BytesAfterEnd.at(walk.at));
    }
    Ok(walk.map)
}
