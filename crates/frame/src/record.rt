//! A framed record: the checks that each record of a sheet or a map has before its fields are looked at.
ghost use Rattle.std.specs.Prelude.{◌≡◌, ◌+◌, ◌≤◌, [], ◌∷◌, map, length, Ok, IfOk};
ghost use Rattle.std.specs.Result.{result_map_both};
ghost use Rattle.paper.specs.Records.{framing, after};
ghost use Rattle.paper.specs.Refusals.{first, unless_at};

use crate::{Fault, Kind, Refusal, le16};

/// A record that stands whole in some bytes and may stand there.
#[derive(Clone, Copy, Debug, PartialEq, Eq)]
pub struct Record {
    pub kind: Kind,

    /// Where the next record starts.
    pub end: usize,
}

impl Record {
    ghost use Rattle.frame.specs.Values.{values_of, answer_of};
    ghost use Rattle.frame.specs.Framing.{kind_value, record_value, record_at};

    /// The record at `at`, where one of the kinds `here` may stand.
    pub fn read(bytes: &[u8], at: usize, here: &[Kind]) -> Result<Record, Refusal>
        ensures framed { result_map_both record_value values_of result
            ≡ unless_at at (first (framing (map kind_value here.now) bytes.now at)) (Ok (record_at bytes.now at)) }
        ensures inside { IfOk result (λ r. (at + (kind_value r.kind).shortest ≤ r.end) × (r.end ≤ length bytes.now)) }
        ensures end { IfOk result (λ r. r.end ≡ after bytes.now at) }
    {
        if bytes.len() < at || bytes.len() - at < 4 {
            return Err(Fault::BytesRunOut.at(at));
        }
        let length = le16(bytes, at);
        let kind = match Kind::among(here, le16(bytes, at + 2)) {
            Some(kind) => kind,
            None => return Err(Fault::Kind.at(at)),
        };
        if !kind.suits(length) {
            return Err(Fault::Length.at(at));
        }
        if bytes.len() - at < usize::from(length) {
            return Err(Fault::BytesRunOut.at(at));
        }
        Ok(Record {
            kind,
            end: at + usize::from(length),
        })
    }

    /// Where the record at `at` ends, where only one kind may stand.
    pub fn only(bytes: &[u8], at: usize, kind: Kind) -> Result<usize, Refusal>
        ensures framed { answer_of result ≡ unless_at at (first (framing (kind_value kind ∷ []) bytes.now at)) (Ok (after bytes.now at)) }
        ensures inside { IfOk result (λ end. (at + (kind_value kind).shortest ≤ end) × (end ≤ length bytes.now)) }
        ensures end { IfOk result (λ end. end ≡ after bytes.now at) }
    {
        let record = Record::read(bytes, at, &[kind])?;
        Ok(record.end)
    }
}
